//! What is loaded for an entry, by its kernel and by the lengths of its other files.
ghost use Rattle.std.specs.Prelude.{◌≡◌, ℕ, ◌+◌, List, IfOk, IfErr, length, map};
ghost use Rattle.bl_load.specs.EntryValue.{value_of, file_count, IsWithinLimits};
ghost use Rattle.bl_load.specs.FilesByLengths.{HaveKernelAndLengths};
ghost use Rattle.bl_load.specs.Parts.{IsHandover, IsPrepFault};
ghost use Rattle.bl_load.specs.Origins.{planned_origin, AreOrigins};
ghost use Rattle.bl_load.specs.PlanContents.{handover_by};
ghost use Rattle.bl_load.specs.Loadable.{lengths_of, IsLoadable};
ghost use Rattle.bl_load.specs.LeanPlans.{IsLean};

use crate::entry::Entry;
use crate::known_file::known_files;
use crate::plan::Plan;
use crate::preparing::prepare;
use crate::refusal::PrepFault;
use bl_map::Machine;
use bl_mem::ByteView;
use std::alloc::Allocator;

/// What is loaded for an entry on a machine, or its first refusal, if of its files only the kernel
/// is there: `lengths` are those of the files after it, in the entry's order (the modules, or the
/// initial ramdisk). The plan, or the refusal, is that of all files of these lengths, whatever
/// bytes they hold: a plan names the bytes that are copied out of them, and holds none.
///
/// The refusals come in the order of `prepare`. Want of memory may be answered at any growth.
pub fn prepare_by_lengths<A: Allocator + Copy, V: ByteView>(
    alloc: A,
    machine: &Machine<A>,
    entry: &Entry<A>,
    kernel: &V,
    lengths: &[u64],
) -> Result<Plan<A>, PrepFault>
    requires files { 1 + length lengths.now ≡ file_count entry.now }
    requires limits { IsWithinLimits entry.now }
    ensures handover { IfOk result (λ plan. (texts : List (List ℕ))
        → HaveKernelAndLengths (V.bytes kernel.now) lengths.now texts
        → IsHandover machine.now (value_of texts entry.now) (handover_by texts plan)) }
    ensures loadable { IfOk result (λ plan. (texts : List (List ℕ))
        → HaveKernelAndLengths (V.bytes kernel.now) lengths.now texts
        → IsLoadable (lengths_of texts) machine.now.size plan) }
    ensures lean { IfOk result (λ plan. IsLean plan.parts.items) }
    ensures origins { IfOk result (λ plan. (texts : List (List ℕ))
        → HaveKernelAndLengths (V.bytes kernel.now) lengths.now texts
        → AreOrigins machine.now (value_of texts entry.now)
        (map planned_origin plan.parts.items)) }
    ensures fault { IfErr result (λ fault. (texts : List (List ℕ))
        → HaveKernelAndLengths (V.bytes kernel.now) lengths.now texts
        → IsPrepFault machine.now (value_of texts entry.now) fault) }
{
    let files = known_files(alloc, kernel, lengths)?;
    prepare(alloc, machine, entry, files.as_slice())
}
