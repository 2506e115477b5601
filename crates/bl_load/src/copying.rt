//! A file's bytes come into memory, which may hold the file.
//!
//! They are copied through no buffer where the files lend them, or where they lie in memory and
//! memory moves bytes by itself; else through one of 4096 bytes.
ghost use Rattle.std.specs.Prelude.{◌+◌, ◌≤◌, length, slice_range};
ghost use Rattle.bl_load.specs.internal.BesideFiles.{IsVacant, IsPutBesideFiles};
ghost use Rattle.bl_load.specs.internal.BesideFiles.{IsCopiedBesideFiles};
ghost use Rattle.bl_load.specs.internal.BesideFiles.{IsRangeOfFile, IsSmallRangeOfFile};

use bl_map::FRAME_SIZE;
use bl_mem::{FileSet, PhysMem};

/// Writes bytes where no file lies, so that each file reads as before.
pub(crate) fn write_beside<M: PhysMem, F: FileSet>(memory: &mut M, at: u64, files: &F, part: &[u8])
    requires { IsVacant M.bytes M.room F.holds memory.old files.now at (length part.now) }
    ensures { IsPutBesideFiles M.lender M.bytes M.room F.texts files.now memory.old memory.new at
        part.now }
{
    memory.write(at, part);
}

/// Copies bytes of the file that lie in memory from `from` on.
fn copy_beside<M: PhysMem, F: FileSet>(memory: &mut M, at: u64, files: &F, from: u64, count: usize)
    requires few { count ≤ 4096 }
    requires source { from + count ≤ length (M.bytes memory.old) }
    requires free { IsVacant M.bytes M.room F.holds memory.old files.now at count }
    ensures { IsPutBesideFiles M.lender M.bytes M.room F.texts files.now memory.old memory.new at
        (slice_range (M.bytes memory.old) from (from + count)) }
{
    memory.copy(from, at, count);
}

/// Copies a piece of the file through a buffer. It is a function of its own, so that no other call
/// has the buffer on its stack.
#[inline(never)]
fn copy_through_buffer<M: PhysMem, F: FileSet>(
    memory: &mut M,
    at: u64,
    files: &F,
    file: usize,
    offset: u64,
    count: usize,
)
    requires free { IsVacant M.bytes M.room F.holds memory.old files.now at count }
    requires piece { IsSmallRangeOfFile (F.texts files.now (M.bytes memory.old)) file offset count }
    ensures { IsCopiedBesideFiles M.lender M.bytes M.room F.texts files.now memory.old memory.new
        at file offset count }
{
    let mut frame = [0u8; 4096];
    let buffer = &mut frame[..count];
    files.read(memory, file, offset, buffer);
    write_beside(memory, at, files, buffer);
}

/// Copies a piece of the file: as it is lent, within memory where it lies there, else through a
/// buffer.
fn copy_piece<M: PhysMem, F: FileSet>(
    memory: &mut M,
    at: u64,
    files: &F,
    file: usize,
    offset: u64,
    count: usize,
)
    requires free { IsVacant M.bytes M.room F.holds memory.old files.now at count }
    requires piece { IsSmallRangeOfFile (F.texts files.now (M.bytes memory.old)) file offset count }
    ensures { IsCopiedBesideFiles M.lender M.bytes M.room F.texts files.now memory.old memory.new
        at file offset count }
{
    if let Some(lent) = files.lend(memory, file, offset, count) {
        write_beside(memory, at, files, lent);
        return;
    }
    match files.address(memory, file, offset, count) {
        Some(from) => copy_beside(memory, at, files, from, count),
        None => copy_through_buffer(memory, at, files, file, offset, count),
    }
}

/// Copies `count` bytes of the file, from `offset` on, to `at`, piece by piece. A piece ends where
/// a frame of the file does, so that one of a file in frames of memory lies in one of them.
fn copy_by_pieces<M: PhysMem, F: FileSet>(
    memory: &mut M,
    at: u64,
    files: &F,
    file: usize,
    offset: u64,
    count: u64,
)
    requires free { IsVacant M.bytes M.room F.holds memory.old files.now at count }
    requires piece { IsRangeOfFile (F.texts files.now (M.bytes memory.old)) file offset count }
    ensures { IsCopiedBesideFiles M.lender M.bytes M.room F.texts files.now memory.old memory.new
        at file offset count }
{
    // For the proof: both lengths are below 2^64, so no sum here wraps.
    let _source = files.len(memory, file);
    let _target = memory.size();
    let mut done = 0u64;
    while done < count {
        let from = offset + done;
        let next = (count - done).min(FRAME_SIZE - from % FRAME_SIZE);
        copy_piece(memory, at + done, files, file, from, next as usize);
        done += next;
    }
}

/// Copies `count` bytes of the file, from `offset` on, to `at`: at once where the files lend them,
/// else piece by piece. Where `count` is 0 nothing is read, and `offset` may lie outside the file.
pub(crate) fn copy<M: PhysMem, F: FileSet>(
    memory: &mut M,
    at: u64,
    files: &F,
    file: usize,
    offset: u64,
    count: u64,
)
    requires free { IsVacant M.bytes M.room F.holds memory.old files.now at count }
    requires piece { IsRangeOfFile (F.texts files.now (M.bytes memory.old)) file offset count }
    ensures { IsCopiedBesideFiles M.lender M.bytes M.room F.texts files.now memory.old memory.new
        at file offset count }
{
    if count == 0 {
        return;
    }
    // For the proof: the file's length is below 2^64.
    let _source = files.len(memory, file);
    match files.lend(memory, file, offset, count as usize) {
        Some(lent) => write_beside(memory, at, files, lent),
        None => copy_by_pieces(memory, at, files, file, offset, count),
    }
}
