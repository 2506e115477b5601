//! The files of a store, and their pieces.
ghost use Rattle.std.specs.Prelude.{◌≡◌, ◌↔◌, ◌*◌, ◌<◌, List, length};
ghost use Rattle.std.specs.Prelude.{IfSome, IsSome, slice_index_or};
ghost use Rattle.bl_stage.specs.PieceStates.{piece_of};
ghost use Rattle.bl_stage.specs.Files.{File, missing, size_of, file_bytes};

use bl_stage::piece_at;

/// The files of a menu, by their index, as a store reads them. An index that names none is a
/// missing file.
pub trait StoredFiles {
    /// The files.
    ghost files: { Self → List File };

    /// A file's length in bytes; `None` is a missing file.
    fn size(&self, file: u32) -> Option<u64>
        ensures { result ≡ size_of (slice_index_or (files self.now) file missing) };

    /// The bytes of a piece of a file: 4096 of them from byte 4096 times `index` on, or what is
    /// left of the file. None if the file is not kept or has no such piece.
    fn piece(&self, file: u32, index: u32) -> Option<&[u8]>
        ensures some { IsSome result ↔ (4096 * index
            < length (file_bytes (slice_index_or (files self.now) file missing))) }
        ensures piece { IfSome result (λ piece. piece.now
            ≡ piece_of (file_bytes (slice_index_or (files self.now) file missing)) index) };
}

/// Files that lie in slices, which their owner keeps: nothing of them is copied. `None` is a
/// missing file. A slice of any length is a file of that length; one above `FILE_LIMIT` is refused
/// by its size, as it is of every store.
#[derive(Clone, Copy, Debug)]
pub struct SliceFiles<'a> {
    pub files: &'a [Option<&'a [u8]>],
}

impl<'a> SliceFiles<'a> {
    ghost use Rattle.std.specs.Prelude.{map, option_copied};
    ghost use Rattle.bl_store.specs.Ledger.{sliced_file};

    /// The bytes of a file; a missing file has none.
    fn slice(&self, file: u32) -> Option<&'a [u8]>
        ensures { sliced_file (option_copied result)
            ≡ slice_index_or (map (λ file. sliced_file (option_copied file)) self.now.files.now)
            file missing }
    {
        match self.files.get(file as usize) {
            Some(Some(bytes)) => Some(bytes),
            _ => None,
        }
    }
}

impl StoredFiles for SliceFiles<'_> {
    ghost use Rattle.std.specs.Prelude.{map, option_copied};
    ghost use Rattle.bl_store.specs.Ledger.{sliced_file};

    ghost files = { λ slices. map (λ file. sliced_file (option_copied file)) slices.files.now };

    fn size(&self, file: u32) -> Option<u64> {
        Some(self.slice(file)?.len() as u64)
    }

    fn piece(&self, file: u32, index: u32) -> Option<&[u8]> {
        piece_at(self.slice(file)?, index as usize)
    }
}
