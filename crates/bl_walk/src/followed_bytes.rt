//! What a kernel follows.
ghost use Rattle.std.specs.Prelude.{◌≡◌, ◌==◌, length, Some, IfOk, option_copied};
ghost use Rattle.std.specs.List.{position};
ghost use Rattle.bl_walk.specs.Faults.{IsFollowed};
ghost use Rattle.bl_walk.specs.PartBytes.{bytes_in};
ghost use Rattle.bl_walk.specs.Seen as seen;
ghost use Rattle.bl_walk.specs.internal.Walking.{FindsOrFaults};

use crate::fault::WalkFault;
use crate::part_bytes::bytes_at;
use bl_image::Image;
use std::alloc::Allocator;

/// The bytes of a range that a kernel follows.
pub(crate) fn follow<A: Allocator>(
    image: &Image<A>,
    address: u64,
    count: u32,
) -> Result<&[u8], WalkFault>
    requires { IsFollowed image.now address count }
    ensures bytes { FindsOrFaults image.now
        (λ bytes. bytes_in image.now.parts address count ≡ Some bytes.now) result }
    ensures long { IfOk result (λ bytes. length bytes.now ≡ count) }
{
    match bytes_at(image, address, count) {
        Some(bytes) => Ok(bytes),
        None => Err(WalkFault::OutsideImage),
    }
}

/// Where the first zero stands.
fn zero_at(bytes: &[u8]) -> Option<usize>
    ensures { result ≡ position (λ b. b == 0) bytes.now }
{
    bytes.iter().position(|byte| *byte == 0)
}

/// A text up to its zero.
#[tactic(auto, unfolding(crate::specs::Seen::text_to_zero))]
pub(crate) fn text_to_zero(bytes: &[u8]) -> Option<&[u8]>
    ensures { option_copied result ≡ seen.text_to_zero bytes.now }
{
    match zero_at(bytes) {
        Some(count) => Some(&bytes[..count]),
        None => None,
    }
}
