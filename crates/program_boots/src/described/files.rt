//! Where the files of a menu come from.
ghost use Rattle.std.specs.Prelude.{◌≡◌, ℕ, ◌-◌, ◌<◌, ◌^◌, List, [], ◌∷◌, ◌++◌, IfOk, OnErr};
ghost use Rattle.bl_stage.specs.Files.{File, file_of};
ghost use Rattle.program_boots.specs.described.Files.{KeepsLimit, TellsLength, CountsFault};
ghost use Rattle.program_boots.specs.described.Files.{answer_for};

use bl_mem::Bytes;
use bl_session::{FILE_LIMIT, Fetched};
use std::alloc::{AllocError, Allocator};

mod asked_names;
mod mem_files;

pub use asked_names::AskedNames;
pub use mem_files::MemFiles;

/// Files by their names. They count their own faults, so that whoever is told that a file is
/// missing can be shown it, and keep the names that they were asked for, so that a contract can
/// say which (`AskedNames` serves an implementation).
pub trait Files {
    /// What may be answered for a name from now on.
    ghost answers: { Self → List ℕ → File → Type 0 };

    /// How many faults there were.
    ghost faults: { Self → ℕ };

    /// The names that were asked for, in order, whatever came of it.
    ghost asked: { Self → List (List ℕ) };

    /// The file of this name, whole; or its length in bytes, if that is above `FILE_LIMIT`. Want of
    /// memory is no fault of the file's.
    fn fetch<A: Allocator>(&mut self, alloc: A, name: &str) -> Result<Fetched<A>, AllocError>
        requires { faults self.old < 2 ^ 64 - 1 }
        ensures told { IfOk result (λ file. answers self.old name.now (file_of file)) }
        ensures same { (file : List ℕ) (answer : File) →
            answers self.new file answer → answers self.old file answer }
        ensures limit { IfOk result (λ file. KeepsLimit (file_of file)) }
        ensures too_long { IfOk result TellsLength }
        ensures asked { asked self.new ≡ asked self.old ++ name.now ∷ [] }
        ensures missing { IfOk result (λ file.
            CountsFault (faults self.old) (faults self.new) (file_of file)) }
        ensures err { OnErr result (faults self.new ≡ faults self.old) };

    /// How many faults there were.
    fn faults(&self) -> u64
        requires { faults self.now < 2 ^ 64 }
        ensures { result ≡ faults self.now };
}

/// A file of these bytes; or their number, if they are too many.
pub fn copy_of<A: Allocator>(alloc: A, file: &[u8]) -> Result<Fetched<A>, AllocError>
    ensures copied { IfOk result (λ copy. file_of copy ≡ answer_for file.now) }
    ensures limit { IfOk result (λ copy. KeepsLimit (file_of copy)) }
    ensures too_long { IfOk result TellsLength }
    ensures present { IfOk result (λ copy. (n : ℕ) → CountsFault n n (file_of copy)) }
{
    let length = file.len() as u64;
    if length > FILE_LIMIT {
        return Ok(Fetched::TooLong(length));
    }
    Ok(Fetched::Bytes(Bytes::copy(alloc, file)?))
}
