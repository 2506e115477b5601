//! The boot of what was found for a description.
ghost use Rattle.std.specs.Prelude.{◌≡◌, [], ◌<◌, ◌^◌, length, map};
ghost use Rattle.bl_stage.specs.Files.{size_of};
ghost use Rattle.bl_session.specs.session.Phases.{boot_facts};
ghost use Rattle.program_commands.specs.internal.CallEnds.{FoundBootEnds, CountsSinkFault};
ghost use Rattle.program_desc.specs.Views.{view};

use crate::boot_end::{End, EndFault};
use crate::booting::handover::{say_none_left, write_handover};
use bl_image::Sink;
use bl_mem::PhysMem;
use bl_session::{BootFault, FileStore, run};
use program_boots::{DescribedBoot, title_of};
use std::alloc::Allocator;

/// Boots what is described by a store, writes the image of what is handed over, and says what
/// the boot came to.
pub fn boot_found<A: Allocator + Copy, M: PhysMem, S: Sink, B: Allocator>(
    alloc: A,
    memory: &mut M,
    store: &mut FileStore<A>,
    boot: &DescribedBoot<'_, A>,
    out: &mut S,
    say: &mut Vec<u8, B>,
) -> Result<End, EndFault>
    requires size { length (M.bytes memory.old) ≡ boot.now.machine.now.size }
    requires store { store.old.given ≡ [] }
    requires sink { S.faults out.old < 2 ^ 63 }
    ensures ends { FoundBootEnds (view boot.now.description.now)
        (boot_facts boot.now.machine.now boot.now.menu.now (map size_of store.old.files))
        store.old.files
        (S.contents out.old) (S.contents out.new) say.old.items say.new.items result }
    ensures faults { CountsSinkFault (S.faults out.old) (S.faults out.new) result }
{
    let ended = run(alloc, memory, store, boot.machine, boot.menu);
    // For the proof: each ticket was answered once, with its piece.
    store.faithful();
    match ended {
        Ok(outcome) => {
            let title = title_of(boot.description, outcome.entry);
            write_handover(alloc, &outcome, memory, title, out, say)?;
            Ok(End::Booted)
        }
        Err(BootFault::NoEntryLeft(refused)) => {
            say_none_left(alloc, &refused, say)?;
            Ok(End::NoEntryLeft)
        }
        Err(BootFault::NoMemory) => Err(EndFault::NoMemory),
    }
}
