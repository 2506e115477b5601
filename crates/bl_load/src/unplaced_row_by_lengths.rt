//! Which part of an entry finds no place, by its kernel and by the lengths of its other files.
ghost use Rattle.std.specs.Prelude.{◌≡◌, ℕ, ◌+◌, List, IfOk, IfErr, length};
ghost use Rattle.bl_load.specs.EntryValue.{value_of, file_count, IsWithinLimits};
ghost use Rattle.bl_load.specs.FilesByLengths.{HaveKernelAndLengths};
ghost use Rattle.bl_load.specs.Unplaced.{IsUnplaced, IsFaultBeforePlacing};

use crate::entry::Entry;
use crate::known_file::known_files;
use crate::refusal::PrepFault;
use crate::unplaced_row::unplaced;
use bl_map::Machine;
use bl_mem::ByteView;
use bl_plan::Row;
use std::alloc::Allocator;

/// What `unplaced` answers, if of the entry's files only the kernel is there: `lengths` are those
/// of the files after it, in the entry's order, as for `prepare_by_lengths`. The row, or the fault,
/// is that of all files of these lengths, whatever bytes they hold.
pub fn unplaced_by_lengths<A: Allocator + Copy, V: ByteView>(
    alloc: A,
    machine: &Machine<A>,
    entry: &Entry<A>,
    kernel: &V,
    lengths: &[u64],
) -> Result<Option<Row>, PrepFault>
    requires files { 1 + length lengths.now ≡ file_count entry.now }
    requires limits { IsWithinLimits entry.now }
    ensures which { IfOk result (λ which. (texts : List (List ℕ))
        → HaveKernelAndLengths (V.bytes kernel.now) lengths.now texts
        → IsUnplaced machine.now (value_of texts entry.now) which) }
    ensures fault { IfErr result (λ fault. (texts : List (List ℕ))
        → HaveKernelAndLengths (V.bytes kernel.now) lengths.now texts
        → IsFaultBeforePlacing machine.now (value_of texts entry.now) fault) }
{
    let files = known_files(alloc, kernel, lengths)?;
    unplaced(alloc, machine, entry, files.as_slice())
}
