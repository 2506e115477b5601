//! An entry is handed over, or it is told that none is left.
ghost use Rattle.std.specs.Prelude.{◌≡◌, ◌+◌, ◌<◌, ◌≤◌, ◌^◌, ◌++◌, length, All, OnOk, OnErr, IfErr};
ghost use Rattle.bl_image.specs.Image.{spelling};
ghost use Rattle.bl_image.specs.Versions.{written_version};
ghost use Rattle.bl_session.specs.session.Phases.{handover_held};
ghost use Rattle.program_commands.specs.internal.CallEnds.{IsImageWriteFault, TookImage};
ghost use Rattle.program_say.specs.BootAndMapLines.{booted_line, refused_lines, no_entry_line};

use crate::boot_end::EndFault;
use bl_image::{Sink, write_image};
use bl_mem::PhysMem;
use bl_session::{Outcome, RefusedEntry};
use program_say::{say_booted, say_no_entry_left, say_refusals};
use std::alloc::{AllocError, Allocator};

/// Appends the lines of a boot in which each entry that was attempted was refused. An error leaves
/// the text as it was.
pub fn say_none_left<A: Allocator + Copy, B: Allocator>(
    alloc: A,
    refused: &[RefusedEntry],
    say: &mut Vec<u8, B>,
) -> Result<(), AllocError>
    ensures ok { OnOk result (say.new.items ≡ say.old.items
        ++ (refused_lines refused.now ++ no_entry_line)) }
    ensures err { OnErr result (say.new.items ≡ say.old.items) }
{
    let mut lines = Vec::new(alloc);
    say_refusals(&mut lines, refused)?;
    say_no_entry_left(&mut lines)?;
    say.extend_from_slice(&lines)
}

/// Writes the image of what memory holds, and appends the lines of the boot: those of the entries
/// that were refused before, and that of the entry with its title. The lines are formed and have
/// their place before the image is begun, so that a fault leaves the text as it was.
pub fn write_handover<A: Allocator + Copy, M: PhysMem, S: Sink, B: Allocator>(
    alloc: A,
    outcome: &Outcome<A>,
    memory: &M,
    title: &str,
    out: &mut S,
    say: &mut Vec<u8, B>,
) -> Result<(), EndFault>
    requires inside { All (λ place. place.address + place.length ≤ length (M.bytes memory.now))
        outcome.now.handoff.places }
    requires faults { S.faults out.old < 2 ^ 63 }
    ensures taken { OnOk result (TookImage (S.contents out.old) (S.contents out.new)
        (handover_held (M.bytes memory.now) outcome.now.handoff)) }
    ensures said { OnOk result (say.new.items ≡ say.old.items
        ++ (refused_lines outcome.now.refused.items ++ booted_line outcome.now.entry title.now)) }
    ensures sound { OnOk result (S.faults out.new ≡ S.faults out.old) }
    ensures unsaid { OnErr result (say.new.items ≡ say.old.items) }
    ensures fault { IfErr result (IsImageWriteFault (S.faults out.old) (S.faults out.new)
        (S.contents out.old) (S.contents out.new)
        (spelling written_version (handover_held (M.bytes memory.now) outcome.now.handoff))) }
{
    let mut lines = Vec::new(alloc);
    say_refusals(&mut lines, &outcome.refused)?;
    say_booted(&mut lines, outcome.entry as u64, title)?;
    say.reserve(lines.len())?;
    match write_image(&outcome.handoff, memory, out) {
        Ok(()) => {
            say.extend_from_slice(&lines).unwrap();
            Ok(())
        }
        Err(_) => Err(EndFault::Device),
    }
}
