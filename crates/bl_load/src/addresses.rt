//! Where the parts of an entry stand.
ghost use Rattle.std.specs.Prelude.{◌≡◌, All};
ghost use Rattle.bl_load.specs.Addresses as addresses;
ghost use Rattle.bl_load.specs.internal.Placing.{EndsLow};

use bl_plan::{Place, Role};

/// The address of the part of a role and an index, 0 where there is none.
fn find_address(role: Role, index: u32, places: &[Place]) -> u64
    ensures { result ≡ addresses.address_of role index places.now }
{
    match places {
        [] => 0,
        [place, rest @ ..] => {
            if place.role.number() == role.number() && place.index == index {
                place.address
            } else {
                find_address(role, index, rest)
            }
        }
    }
}

/// The address of the part of a role and an index among places that end below 4 GiB, 0 where there
/// is none.
pub fn address_of(role: Role, index: u32, places: &[Place]) -> u32
    requires { All EndsLow places.now }
    ensures { result ≡ addresses.address_of role index places.now }
{
    find_address(role, index, places) as u32
}
