//! Whether the lines of an entry are sound.
ghost use Rattle.std.specs.Prelude.{◌≡◌, ◌≤◌, ◌+◌, [], ◌∷◌, true, Some, None, IfSome, IfOk, IfErr};
ghost use Rattle.std.specs.Prelude.{length, map};
ghost use Rattle.bl_load.specs.EntryValue.{lines_fault, lines_of, IsRsdpCopy};
ghost use Rattle.bl_load.specs.EntryValue.{multiboot2_value, linux_value, value_of, file_count};
ghost use Rattle.bl_load.specs.EntryValue.{IsWithinLimits};
ghost use Rattle.bl_load.specs.Protocols.{has_params};
ghost use Rattle.bl_load.specs.internal.CheckedEntries.{IsCheckedEntry};
ghost use Rattle.bl_load.specs.internal.Multiboot2Entries.{lines_of_modules};
ghost use Rattle.bl_plan.specs.MenuLimits.{max_modules};

use crate::checked_entry::CheckedEntry;
use crate::entry::{Entry, Module};
use crate::line_checks::{check_line, check_lines};
use crate::refusal::Refusal;
use bl_map::Machine;
use bl_mem::{ByteView, Bytes};
use bl_plan::Protocol;
use std::alloc::Allocator;

/// A Multiboot2 entry of this line, these modules and these copies, or the first fault of its
/// lines.
fn multiboot2_entry<'a, A: Allocator, V: ByteView>(
    machine: &'a Machine<A>,
    line: &'a [u8],
    modules: &'a [Module<A>],
    rsdp_old: &'a Option<Bytes<A>>,
    rsdp_new: &'a Option<Bytes<A>>,
    files: &'a [V],
) -> Result<CheckedEntry<'a, A, V>, Refusal>
    requires files { length files.now ≡ 1 + length modules.now }
    requires few { length modules.now ≤ max_modules }
    requires old { IfSome rsdp_old.now IsRsdpCopy }
    requires new { IfSome rsdp_new.now IsRsdpCopy }
    ensures entry { IfOk result (IsCheckedEntry machine.now (map V.bytes files.now)
        (multiboot2_value (map V.bytes files.now) line.now (lines_of_modules modules.now)
        rsdp_old.now rsdp_new.now)) }
    ensures fault { IfErr result (λ refusal.
        lines_fault (line.now ∷ lines_of_modules modules.now) ≡ Some refusal) }
{
    check_lines(line, modules)?;
    let entry = CheckedEntry {
        protocol: Protocol::Multiboot2,
        machine,
        line,
        modules,
        rsdp_old,
        rsdp_new,
        files,
    };
    Ok(entry)
}

/// A Linux entry of this line, whose kernel is entered by this protocol, or the fault of its line.
/// It hands over no copy of an RSDP.
fn linux_entry<'a, A: Allocator, V: ByteView>(
    machine: &'a Machine<A>,
    protocol: Protocol,
    line: &'a [u8],
    no_copy: &'a Option<Bytes<A>>,
    files: &'a [V],
) -> Result<CheckedEntry<'a, A, V>, Refusal>
    requires params { has_params protocol ≡ true }
    requires none { no_copy.now ≡ None }
    requires files { 1 ≤ length files.now }
    ensures entry { IfOk result (IsCheckedEntry machine.now (map V.bytes files.now)
        (linux_value protocol (map V.bytes files.now) line.now)) }
    ensures fault { IfErr result (λ refusal. lines_fault (line.now ∷ []) ≡ Some refusal) }
{
    check_line(line)?;
    let entry = CheckedEntry {
        protocol,
        machine,
        line,
        modules: &[],
        rsdp_old: no_copy,
        rsdp_new: no_copy,
        files,
    };
    Ok(entry)
}

/// An entry with its files, on a machine, or the first fault of its lines. `no_copy` is lent in
/// place of the copies of an RSDP that a Linux entry does not have.
#[tactic(auto, unfolding(crate::specs::EntryValue::IsWithinLimits))]
pub fn checked_entry<'a, A: Allocator, V: ByteView>(
    machine: &'a Machine<A>,
    entry: &'a Entry<A>,
    no_copy: &'a Option<Bytes<A>>,
    files: &'a [V],
) -> Result<CheckedEntry<'a, A, V>, Refusal>
    requires none { no_copy.now ≡ None }
    requires files { length files.now ≡ file_count entry.now }
    requires limits { IsWithinLimits entry.now }
    ensures entry { IfOk result (IsCheckedEntry machine.now (map V.bytes files.now)
        (value_of (map V.bytes files.now) entry.now)) }
    ensures fault { IfErr result (λ refusal.
        lines_fault (lines_of (value_of (map V.bytes files.now) entry.now)) ≡ Some refusal) }
{
    match entry {
        Entry::Multiboot2 {
            line,
            modules,
            rsdp_old,
            rsdp_new,
            ..
        } => {
            let line = line.as_slice();
            let modules = modules.as_slice();
            multiboot2_entry(machine, line, modules, rsdp_old, rsdp_new, files)
        }
        Entry::Linux { line, wide, .. } => {
            let protocol = Protocol::of_linux(*wide);
            linux_entry(machine, protocol, line.as_slice(), no_copy, files)
        }
    }
}
