//! The parts of the kernel.
ghost use Rattle.std.specs.Prelude.{◌≡◌, IfOk};
ghost use Rattle.bl_walk.specs.Seen.{kernel_in};

use crate::seen::SeenPart;
use crate::state::is_kernel;
use bl_image::Image;
use std::alloc::{AllocError, Allocator};

/// The parts of the kernel, by address and length.
pub(crate) fn kernel_of<A: Allocator + Copy>(
    alloc: A,
    image: &Image<A>,
) -> Result<Vec<SeenPart, A>, AllocError>
    ensures ok { IfOk result (λ kernel. kernel.items ≡ kernel_in image.now.parts) }
{
    image
        .parts()
        .iter()
        .filter(|part| is_kernel(part))
        .map(|part| SeenPart {
            address: part.address(),
            length: part.bytes().len() as u64,
        })
        .collect(alloc)
}
