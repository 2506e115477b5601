//! Bytes that a value owns.
ghost use Rattle.std.specs.Prelude.{◌≡◌, ◌==◌, ◌<◌, ℕ, List, length, All, IfOk};

use std::alloc::{AllocError, Allocator};
use std::marker::Model;

/// A vector of bytes whose room does not count: contracts see the list alone, in which each number
/// is below 256. To wrap a vector, and to get it back, takes no memory.
#[derive(Drop)]
pub struct Bytes<A: Allocator> {
    held: Vec<u8, A>,
}

impl<A: Allocator> Model for Bytes<A> {
    ghost Value = { List ℕ };

    ghost view = { λ bytes. bytes.held.items };

    ghost invariant = { λ bytes. All (λ b. b < 256) bytes.held.items };
}

impl<A: Allocator> Bytes<A> {
    /// A copy of these bytes, or that memory for it was refused.
    pub fn copy(alloc: A, bytes: &[u8]) -> Result<Bytes<A>, AllocError>
        ensures ok { IfOk result (λ copy. copy ≡ bytes.now) }
    {
        Ok(Bytes {
            held: Vec::from_slice(alloc, bytes)?,
        })
    }

    /// All of the bytes.
    pub fn as_slice(&self) -> &[u8]
        ensures { result.now ≡ self.now }
    {
        self.held.as_slice()
    }

    /// The number of bytes.
    pub fn len(&self) -> usize
        ensures { result ≡ length self.now }
    {
        self.held.len()
    }

    /// Whether there is no byte.
    pub fn is_empty(&self) -> bool
        ensures { result ≡ (length self.now == 0) }
    {
        self.held.is_empty()
    }

    /// For the proof: each number is below 256. Nothing is done.
    pub fn are_bytes(&self)
        ensures { All (λ b. b < 256) self.now }
    {
        let _ = &self.held;
    }

    /// The vector that was wrapped.
    pub fn into_vec(self) -> Vec<u8, A>
        ensures { result.items ≡ self }
    {
        let Bytes { held } = self;
        held
    }
}

impl<A: Allocator> From<Vec<u8, A>> for Bytes<A> {
    ghost from_gives = { λ vec bytes. bytes ≡ vec.items };

    fn from(held: Vec<u8, A>) -> Bytes<A> {
        Bytes { held }
    }
}
