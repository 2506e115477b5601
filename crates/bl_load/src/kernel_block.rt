//! A relocatable kernel's image comes into memory.
ghost use Rattle.std.specs.Prelude.{◌≡◌, ◌<◌, length};
ghost use Rattle.bl_mem.specs.SegmentContents.{contents_of};
ghost use Rattle.bl_mem.specs.FileSet.{nth_file};
ghost use Rattle.bl_load.specs.internal.BesideFiles.{IsVacant, IsPutBesideFiles, IsBlockOfFile};
ghost use Rattle.bl_load.specs.KernelBlock.{span_of, block_of};
ghost use Rattle.bl_load.specs.Loadable.{IsCopyable};

use crate::copying::copy;
use bl_mem::{FileSet, PhysMem, Segment};

/// Writes a segment at `at`: its bytes of the file, and zeros after them.
fn load_segment<M: PhysMem, F: FileSet>(
    memory: &mut M,
    at: u64,
    files: &F,
    file: usize,
    segment: &Segment,
)
    requires file { file < length (F.texts files.now (M.bytes memory.old)) }
    requires copied { IsCopyable
        (length (nth_file (F.texts files.now (M.bytes memory.old)) file)) segment.now }
    requires free { IsVacant M.bytes M.room F.holds memory.old files.now at segment.now.memsz }
    ensures { IsPutBesideFiles M.lender M.bytes M.room F.texts files.now memory.old memory.new at
        (contents_of (nth_file (F.texts files.now (M.bytes memory.old)) file) segment.now) }
{
    // For the proof: memory's size is below 2^64, so no sum here wraps.
    let _size = memory.size();
    copy(memory, at, files, file, segment.offset, segment.filesz);
    memory.zero(at + segment.filesz..at + segment.memsz);
}

/// Writes the block of these segments at `at`, and says how long it is. Each of its bytes is
/// written once: zeros go into the gaps and after the bytes of the file alone.
pub(crate) fn load_block<M: PhysMem, F: FileSet>(
    memory: &mut M,
    at: u64,
    files: &F,
    file: usize,
    segments: &[Segment],
) -> u64
    requires block { IsBlockOfFile (F.texts files.now (M.bytes memory.old)) file segments.now }
    requires free { IsVacant M.bytes M.room F.holds memory.old files.now at (span_of segments.now) }
    ensures count { result ≡ span_of segments.now }
    ensures put { IsPutBesideFiles M.lender M.bytes M.room F.texts files.now memory.old memory.new
        at (block_of (nth_file (F.texts files.now (M.bytes memory.old)) file) segments.now) }
{
    // For the proof: memory's size is below 2^64, so no sum here wraps.
    let _size = memory.size();
    let low = segments[0].address;
    let mut done = 0u64;
    for segment in segments {
        let start = segment.address - low;
        memory.zero(at + done..at + start);
        load_segment(memory, at + start, files, file, segment);
        done = start + segment.memsz;
    }
    done
}
