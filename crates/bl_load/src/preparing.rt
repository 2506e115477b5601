//! What is loaded for an entry on a machine, or its first refusal.
ghost use Rattle.std.specs.Prelude.{◌≡◌, IfOk, IfErr, length, map};
ghost use Rattle.bl_load.specs.EntryValue.{value_of, file_count, IsWithinLimits};
ghost use Rattle.bl_load.specs.Parts.{IsHandover, IsPrepFault};
ghost use Rattle.bl_load.specs.Origins.{planned_origin, AreOrigins};
ghost use Rattle.bl_load.specs.PlanContents.{handover_by};
ghost use Rattle.bl_load.specs.Loadable.{lengths_of, IsLoadable};
ghost use Rattle.bl_load.specs.LeanPlans.{IsLean};

use crate::entry::Entry;
use crate::entry_checks::checked_entry;
use crate::entry_kernel::read_entry_kernel;
use crate::placing::plan_parts;
use crate::plan::Plan;
use crate::refusal::PrepFault;
use bl_map::Machine;
use bl_mem::ByteView;
use std::alloc::Allocator;

/// What is loaded for an entry on a machine, or its first refusal. `files` are the entry's files in
/// order, the kernel first. The machine, the entry and the files stay as they are in each outcome.
///
/// The refusals come in the order: the entry's lines, what is read of its kernel, and then the
/// parts' places, part by part. Of a Multiboot2 kernel are read the header, the ELF header and
/// segments, and the entry; of a Linux kernel the setup, then the 64-bit entry if it is entered by
/// it, a line longer than `cmdline_size`, a memory map of more than 128 runs. Want of memory may be
/// answered at any growth, in the place of a refusal that would have come later; it is never told
/// as a refusal.
pub fn prepare<A: Allocator + Copy, V: ByteView>(
    alloc: A,
    machine: &Machine<A>,
    entry: &Entry<A>,
    files: &[V],
) -> Result<Plan<A>, PrepFault>
    requires files { length files.now ≡ file_count entry.now }
    requires limits { IsWithinLimits entry.now }
    ensures handover { IfOk result (λ plan. IsHandover machine.now
        (value_of (map V.bytes files.now) entry.now) (handover_by (map V.bytes files.now) plan)) }
    ensures loadable { IfOk result (λ plan. IsLoadable
        (lengths_of (map V.bytes files.now)) machine.now.size plan) }

    // Of the files' bytes a plan holds none but a Linux kernel's setup header, which stands in the
    // boot parameters: only what the loader makes has bytes of its own.
    ensures lean { IfOk result (λ plan. IsLean plan.parts.items) }

    // Where each part's bytes come from is decided by the facts and the value, too: which bytes of
    // which file, or what bytes of the plan's own.
    ensures origins { IfOk result (λ plan. AreOrigins machine.now
        (value_of (map V.bytes files.now) entry.now) (map planned_origin plan.parts.items)) }

    ensures fault { IfErr result (λ fault. IsPrepFault machine.now
        (value_of (map V.bytes files.now) entry.now) fault) }
{
    let no_copy = None;
    let checked = checked_entry(machine, entry, &no_copy, files)?;
    let kernel = read_entry_kernel(alloc, &checked)?;
    plan_parts(alloc, &checked, &kernel)
}
