//! A file that was fetched, and one of its pieces.
ghost use Rattle.std.specs.Prelude.{◌≡◌, ◌↔◌, ◌*◌, ◌<◌, ◌^◌, length, IfSome, IsSome};
ghost use Rattle.bl_stage.specs.Files.{size_of, file_bytes, file_of};
ghost use Rattle.bl_stage.specs.PieceStates.{piece_of};

use bl_mem::Bytes;
use std::alloc::Allocator;

/// The greatest length of a file, in bytes. A longer one is not read.
pub const FILE_LIMIT: u64 = 0x4000_0000;

/// The bytes of a piece; a file's last piece has what is left.
const PIECE: usize = 4096;

/// A file that was fetched, as a store keeps it.
#[derive(Drop)]
pub enum Fetched<A: Allocator> {
    /// There is no such file, or it can't be read.
    Missing,
    /// A file of so many bytes, none of which is kept. A length that is not above `FILE_LIMIT`
    /// counts as the least that is.
    TooLong(u64),
    /// Its bytes.
    Bytes(Bytes<A>),
}

impl<A: Allocator> Fetched<A> {
    /// Its length in bytes; a missing file has none.
    pub fn size(&self) -> Option<u64>
        ensures { result ≡ size_of (file_of self.now) }
    {
        match self {
            Fetched::Missing => None,
            Fetched::TooLong(size) => Some((*size).max(FILE_LIMIT + 1)),
            Fetched::Bytes(bytes) => Some(bytes.len() as u64),
        }
    }

    /// The bytes of a piece; none if the file is not kept or has no such piece.
    pub fn piece(&self, index: u32) -> Option<&[u8]>
        ensures some { IsSome result ↔ (4096 * index < length (file_bytes (file_of self.now))) }
        ensures piece { IfSome result (λ piece.
            piece.now ≡ piece_of (file_bytes (file_of self.now)) index) }
    {
        match self {
            Fetched::Missing | Fetched::TooLong(_) => None,
            Fetched::Bytes(bytes) => piece_at(bytes.as_slice(), index as usize),
        }
    }
}

/// The bytes of a piece, if there is one.
pub fn piece_at(bytes: &[u8], index: usize) -> Option<&[u8]>
    requires { index < 2 ^ 32 }
    ensures some { IsSome result ↔ (4096 * index < length bytes.now) }
    ensures piece { IfSome result (λ piece. piece.now ≡ piece_of bytes.now index) }
{
    let start = PIECE * index;
    if start >= bytes.len() {
        return None;
    }
    let end = bytes.len().min(start + PIECE);
    Some(&bytes[start..end])
}
