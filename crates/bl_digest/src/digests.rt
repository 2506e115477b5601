//! The digests of an image.
use crate::image_digest::ImageDigest;
use crate::part_digest::PartDigest;
use std::alloc::Allocator;
use std::marker::Model;

/// The digests of an image: of the whole and of its front, and of each part.
#[derive(Drop)]
pub struct Digests<A: Allocator> {
    image: ImageDigest,
    parts: Vec<PartDigest, A>,
}

impl<A: Allocator> Model for Digests<A> {
    ghost use Rattle.bl_digest.specs.DigestsFacts.{DigestsFacts};

    ghost Value = { DigestsFacts };

    ghost view = { λ d. record { image = d.image; parts = d.parts.items } };
}

impl<A: Allocator> Digests<A> {
    ghost use Rattle.std.specs.Prelude.{◌≡◌};

    /// These digests.
    pub(crate) fn new(image: ImageDigest, parts: Vec<PartDigest, A>) -> Digests<A>
        ensures { result ≡ record { image = image; parts = parts.items } }
    {
        Digests { image, parts }
    }

    /// Those of the image and of its front.
    pub fn image(&self) -> ImageDigest
        ensures { result ≡ self.now.image }
    {
        self.image
    }

    /// Those of the parts, in address order.
    pub fn parts(&self) -> &[PartDigest]
        ensures { result.now ≡ self.now.parts }
    {
        self.parts.as_slice()
    }
}
