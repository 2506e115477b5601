//! Laws of the definitions: regions have one normal map.
ghost use Rattle.std.specs.Prelude.{◌≡◌, ℕ, List};
ghost use Rattle.bl_map.specs.declared.region.Region.{Region};
ghost use Rattle.bl_map.specs.NormalMap.{IsNormalMap, kind_at};

/// Regions that give each address the same kind have the same normal map.
pub fn normal_maps_are_determined()
    ensures one_map { (regions others xs ys : List Region)
        → ((a : ℕ) → kind_at regions a ≡ kind_at others a)
        → IsNormalMap regions xs → IsNormalMap others ys → xs ≡ ys }
{}
