//! Takes the bytes of parts, one part's after the other's, and digests each part.
use crate::hasher::Hasher;
use crate::message::Message;
use crate::part_digest::PartDigest;
use crate::row_lengths::length_at;
use bl_image::Places;
use std::alloc::{AllocError, Allocator};
use std::marker::Model;

/// Is given the bytes of parts, one part's after the other's, in pieces of any length: where a part
/// ends is known by the lengths of the places. Contracts see the places and what was taken.
#[derive(Drop)]
pub(crate) struct PartsHasher<A: Allocator> {
    /// A row for each part. The first `index` rows have their digests.
    rows: Vec<PartDigest, A>,
    index: usize,

    /// Of the part behind them: what of it was taken, and how many of its bytes are to come.
    part: Hasher,
    left: u64,

    /// How many bytes of all parts are to come.
    room: u64,
    taken: Message,
}

impl<A: Allocator> Model for PartsHasher<A> {
    ghost use Rattle.std.specs.Prelude.{map};
    ghost use Rattle.bl_digest.specs.internal.Hashing.{PartsFacts, told_place, AreBegun};

    ghost Value = { PartsFacts };

    ghost view = { λ h. record { places = map told_place h.rows.items; taken = h.taken.bytes } };

    ghost invariant = { λ h.
        AreBegun h.rows.items h.index h.part h.left h.room h.taken.bytes };
}

impl<A: Allocator> PartsHasher<A> {
    ghost use Rattle.std.specs.Prelude.{◌≡◌, ◌+◌, ◌≤◌, ◌<◌, ◌^◌, [], ◌++◌, length, take, All, IfOk};
    ghost use Rattle.bl_digest.specs.internal.Hashing.{total_of, part_digests};

    /// Of the parts at these places nothing was taken.
    pub(crate) fn new<P: Places>(alloc: A, places: &P) -> Result<PartsHasher<A>, AllocError>
        requires filled { All (λ place. 1 ≤ place.length) (P.places places.now) }
        requires short { total_of (P.places places.now) < 2 ^ 64 }
        ensures { IfOk result (λ h. h ≡ record { places = P.places places.now; taken = [] }) }
    {
        let mut rows = Vec::new(alloc);
        let mut room = 0u64;
        for i in 0..places.count() {
            let place = places.place_at(i);
            room += place.length;
            rows.push(PartDigest {
                place,
                sha256: [0; 32],
            })?;
        }
        let left = length_at(rows.as_slice(), 0);
        Ok(PartsHasher {
            rows,
            index: 0,
            part: Hasher::new(),
            left,
            room,
            taken: Message::empty(),
        })
    }

    /// How many bytes are to come.
    pub(crate) fn room(&self) -> u64
        ensures { length self.now.taken + result ≡ total_of self.now.places }
    {
        self.room
    }

    /// Takes what of these bytes belongs to one part, and says how many bytes that are.
    fn take_some(&mut self, bytes: &[u8]) -> usize
        requires some { 1 ≤ length bytes.now }
        requires room { length self.old.taken + length bytes.now ≤ total_of self.old.places }
        ensures some { 1 ≤ result }
        ensures within { result ≤ length bytes.now }
        ensures taken { self.new ≡ record {
          places = self.old.places;
          taken = self.old.taken ++ take result bytes.now;
        } }
    {
        let count = self.left.min(bytes.len() as u64) as usize;
        let piece = &bytes[..count];
        self.part.give(piece);
        self.taken = self.taken.with_part(piece);
        self.left -= count as u64;
        self.room -= count as u64;
        if self.left == 0 {
            self.rows[self.index].sha256 = self.part.end_and_begin();
            self.index += 1;
            self.left = length_at(self.rows.as_slice(), self.index);
        }
        count
    }

    /// Takes these bytes.
    pub(crate) fn take(&mut self, bytes: &[u8])
        requires { length self.old.taken + length bytes.now ≤ total_of self.old.places }
        ensures { self.new
            ≡ record { places = self.old.places; taken = self.old.taken ++ bytes.now } }
    {
        let mut done = 0;
        while done < bytes.len() {
            done += self.take_some(&bytes[done..]);
        }
    }

    /// The rows, once all bytes were taken.
    pub(crate) fn rows(&self) -> &[PartDigest]
        requires { length self.now.taken ≡ total_of self.now.places }
        ensures { result.now ≡ part_digests self.now.places self.now.taken }
    {
        self.rows.as_slice()
    }

    /// The rows, once all bytes were taken.
    pub(crate) fn end(self) -> Vec<PartDigest, A>
        requires { length self.taken ≡ total_of self.places }
        ensures { result.items ≡ part_digests self.places self.taken }
    {
        let PartsHasher { rows, .. } = self;
        rows
    }
}
