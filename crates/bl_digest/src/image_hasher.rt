//! Takes the bytes of an image's parts, and digests the image and each part.
use crate::digests::Digests;
use crate::hasher::Hasher;
use crate::image_digest::ImageDigest;
use crate::message::Message;
use crate::part_digest::PartDigest;
use crate::parts_hasher::PartsHasher;
use bl_image::{MAX_FRONT, Places, front_bytes};
use bl_load::{Protocol, Registers};
use std::alloc::{AllocError, Allocator};
use std::marker::Model;

/// Is given the bytes of an image's parts, one part's after the other's, in pieces of any length;
/// it has hashed what stands before them. Contracts see that front, the places of the parts, and
/// what was taken.
#[derive(Drop)]
pub(crate) struct ImageHasher<A: Allocator> {
    image: Hasher,
    length: u64,
    front_length: u64,
    front: [u8; 32],
    parts: PartsHasher<A>,
    before: Message,
}

impl<A: Allocator> Model for ImageHasher<A> {
    ghost use Rattle.bl_digest.specs.internal.Hashing.{HashedFacts, IsHashed};

    ghost Value = { HashedFacts };

    ghost view = { λ h. record {
      front = h.before.bytes;
      places = h.parts.places;
      taken = h.parts.taken;
    } };

    ghost invariant = { λ h. IsHashed h.before.bytes h.parts h.image h.length
        h.front_length h.front };
}

impl<A: Allocator> ImageHasher<A> {
    ghost use Rattle.std.specs.Prelude.{◌≡◌, ◌+◌, ◌≤◌, [], ◌++◌, length, IfOk};
    ghost use Rattle.bl_load.specs.HandoffFacts.{IsWellFormedHandoff};
    ghost use Rattle.bl_load.specs.Handover.{Handover};
    ghost use Rattle.bl_image.specs.Front.{front_of};
    ghost use Rattle.bl_image.specs.ImageHandover.{handoff_of};
    ghost use Rattle.bl_image.specs.Versions.{written_version};
    ghost use Rattle.bl_digest.specs.internal.Hashing.{total_of, digests_along};

    /// Of the parts at these places nothing was taken. They are a handoff's, with this protocol and
    /// these registers.
    pub(crate) fn new<P: Places>(
        alloc: A,
        protocol: Protocol,
        registers: &Registers,
        places: &P,
    ) -> Result<ImageHasher<A>, AllocError>
        requires { IsWellFormedHandoff (record {
          protocol = protocol;
          registers = registers.now;
          places = P.places places.now;
        }) }
        ensures front { IfOk result (λ hasher. (h : Handover) → handoff_of h ≡ record {
          protocol = protocol;
          registers = registers.now;
          places = P.places places.now;
        } → hasher.front ≡ front_of written_version h) }
        ensures places { IfOk result (λ hasher. hasher.places ≡ P.places places.now) }
        ensures taken { IfOk result (λ hasher. hasher.taken ≡ []) }
    {
        let parts = PartsHasher::new(alloc, places)?;
        let mut buffer = [0u8; MAX_FRONT];
        let count = front_bytes(&mut buffer, protocol, registers, places);
        let front = &buffer[..count];
        let mut image = Hasher::new();
        image.give(front);
        Ok(ImageHasher {
            image,
            length: count as u64 + parts.room(),
            front_length: count as u64,
            front: Hasher::digest(front),
            parts,
            before: Message::empty().with_part(front),
        })
    }

    /// Takes these bytes.
    pub(crate) fn take(&mut self, bytes: &[u8])
        requires { length self.old.taken + length bytes.now ≤ total_of self.old.places }
        ensures { self.new ≡ record {
          front = self.old.front;
          places = self.old.places;
          taken = self.old.taken ++ bytes.now;
        } }
    {
        self.image.give(bytes);
        self.parts.take(bytes);
    }

    /// The digests of the image and of its front, once all bytes were taken.
    pub(crate) fn digest(&self) -> ImageDigest
        requires { length self.now.taken ≡ total_of self.now.places }
        ensures { result ≡ (digests_along self.now).image }
    {
        ImageDigest {
            length: self.length,
            sha256: self.image.digest_so_far(),
            front_length: self.front_length,
            front_sha256: self.front,
        }
    }

    /// The digests of the parts, once all bytes were taken.
    pub(crate) fn rows(&self) -> &[PartDigest]
        requires { length self.now.taken ≡ total_of self.now.places }
        ensures { result.now ≡ (digests_along self.now).parts }
    {
        self.parts.rows()
    }

    /// The digests, once all bytes were taken.
    pub(crate) fn end(self) -> Digests<A>
        requires { length self.taken ≡ total_of self.places }
        ensures { result ≡ digests_along self }
    {
        let image = self.digest();
        let ImageHasher { parts, .. } = self;
        Digests::new(image, parts.end())
    }
}
