//! How long an image is.
ghost use Rattle.std.specs.Prelude.{◌≡◌, ◌+◌, ◌≤◌, ℕ, List, length, All};
ghost use Rattle.bl_load.specs.PlanContents.{handover_in};
ghost use Rattle.bl_image.specs.Image.{spelling};
ghost use Rattle.bl_image.specs.ImageLength.{image_length};
ghost use Rattle.bl_image.specs.Versions.{written_version};

use crate::front::{HEAD, RECORD};
use bl_load::Handoff;
use std::alloc::Allocator;

/// How many bytes the image of a handoff has, which `write_image` writes whatever memory holds.
pub fn image_len<A: Allocator>(handoff: &Handoff<A>) -> u64
    ensures sum { result ≡ image_length handoff.now.places }
    ensures exact { (bytes : List ℕ)
        → All (λ place. place.address + place.length ≤ length bytes) handoff.now.places
        → result ≡ length (spelling written_version (handover_in bytes
        handoff.now.protocol handoff.now.registers handoff.now.places)) }
{
    let mut len = HEAD as u64;
    for i in 0..handoff.len() {
        len += RECORD as u64 + handoff.place(i).length;
    }
    len
}
