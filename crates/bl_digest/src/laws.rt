//! Laws of the definitions: what a table of digests is worth.
ghost use Rattle.std.specs.Prelude.{◌≡◌, ◌++◌};
ghost use Rattle.std.specs.List.{flat_map};
ghost use Rattle.bl_load.specs.Handover.{Handover};
ghost use Rattle.bl_image.specs.Front.{front_of};
ghost use Rattle.bl_image.specs.Image.{spelling};
ghost use Rattle.bl_image.specs.Versions.{written_version};
ghost use Rattle.bl_digest.specs.Digests.{digests_of};
ghost use Rattle.bl_digest.specs.Tables.{IsTableOf};

/// An image is its front, and behind it the bytes of its parts, one part's after the other's. So
/// its table has for each byte of the image just one row, beside that of the whole.
pub fn digests_cover_the_image()
    ensures split { (h : Handover) → spelling written_version h
        ≡ front_of written_version h ++ flat_map (λ part. part.bytes) h.parts }
    ensures covered { (h : Handover) → IsTableOf (spelling written_version h) (digests_of h) }
{}
