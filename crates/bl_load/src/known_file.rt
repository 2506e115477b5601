//! Files that are there, and files of which only the length is known.
ghost use Rattle.std.specs.Prelude.{◌≡◌, ◌∷◌, IfOk, map};
ghost use Rattle.bl_load.specs.internal.KnownFiles.{blank_file, known_bytes};

use bl_mem::ByteView;
use std::alloc::{AllocError, Allocator};

/// A file, or the length of one, which reads as zeros. They stand for any bytes, so nothing may
/// depend on them.
#[derive(Drop)]
pub enum KnownFile<'a, V> {
    Whole(&'a V),
    Length(u64),
}

impl<V: ByteView> ByteView for KnownFile<'_, V> {
    ghost bytes = { known_bytes V.bytes };

    fn len(&self) -> u64 {
        match self {
            KnownFile::Whole(file) => file.len(),
            KnownFile::Length(size) => *size,
        }
    }

    fn read(&self, at: u64, out: &mut [u8]) {
        match self {
            KnownFile::Whole(file) => file.read(at, out),
            KnownFile::Length(_) => out.fill(0),
        }
    }

    fn lend(&self, at: u64, count: usize) -> Option<&[u8]> {
        match self {
            KnownFile::Whole(file) => file.lend(at, count),
            KnownFile::Length(_) => None,
        }
    }
}

/// The files of an entry by its kernel, which comes first, and the lengths of the others.
pub fn known_files<'a, A: Allocator + Copy, V: ByteView>(
    alloc: A,
    kernel: &'a V,
    lengths: &[u64],
) -> Result<Vec<KnownFile<'a, V>, A>, AllocError>
    ensures { IfOk result (λ files. map (known_bytes V.bytes) files.items
        ≡ V.bytes kernel.now ∷ map blank_file lengths.now) }
{
    let mut files = Vec::with_capacity(alloc, lengths.len() + 1)?;
    files.push(KnownFile::Whole(kernel))?;
    for size in lengths {
        files.push(KnownFile::Length(*size))?;
    }
    Ok(files)
}
