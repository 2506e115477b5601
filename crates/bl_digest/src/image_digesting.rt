//! The digests of an image that is at hand.
ghost use Rattle.std.specs.Prelude.{◌≡◌, IfOk};
ghost use Rattle.bl_digest.specs.Digests.{digests_of};

use crate::digests::Digests;
use crate::image_hasher::ImageHasher;
use bl_image::Image;
use std::alloc::{AllocError, Allocator};

/// The digests of what an image says, as an image of the version that is written has them,
/// whichever version it was read from. It fails only where memory for a row for each part is
/// refused.
pub fn digest_image<A: Allocator, B: Allocator>(
    alloc: A,
    image: &Image<B>,
) -> Result<Digests<A>, AllocError>
    ensures { IfOk result (λ d. d ≡ digests_of image.now) }
{
    let parts = image.parts();
    let mut hasher = ImageHasher::new(alloc, image.protocol(), &image.registers(), image)?;
    for part in parts {
        hasher.take(part.bytes());
    }
    Ok(hasher.end())
}
