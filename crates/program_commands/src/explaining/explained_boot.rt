//! The boot of what was found for a description, explained.
ghost use Rattle.std.specs.Prelude.{◌≡◌, [], ◌≤◌, length, map};
ghost use Rattle.bl_stage.specs.Files.{size_of};
ghost use Rattle.bl_session.specs.session.Phases.{boot_facts};
ghost use Rattle.program_boots.specs.described.DescribedMenu.{menu_of, attempted_file_names};
ghost use Rattle.program_commands.specs.internal.ExplanationEnds.{ExplainFoundEnds};
ghost use Rattle.program_desc.specs.Views.{view};

use crate::boot_end::{End, EndFault};
use bl_mem::PhysMem;
use bl_session::{BootFault, FileStore, run};
use program_boots::{DescribedBoot, find_details, find_steps, tell_booted, tell_none_left};
use program_say::Sought;
use std::alloc::Allocator;

/// Boots what is described by a store of what was found for these names, and says what the boot
/// comes to.
pub fn explain_found<A: Allocator + Copy, M: PhysMem, B: Allocator>(
    alloc: A,
    memory: &mut M,
    store: &mut FileStore<A>,
    boot: &DescribedBoot<'_, A>,
    names: &[&str],
    say: &mut Vec<u8, B>,
) -> Result<End, EndFault>
    requires size { length (M.bytes memory.old) ≡ boot.now.machine.now.size }
    requires store { store.old.given ≡ [] }
    requires few { length boot.now.description.now.entries.items ≤ 32 }
    requires menu { boot.now.menu.now ≡ menu_of (view boot.now.description.now) }
    requires names { map (λ n. n.now) names.now
        ≡ attempted_file_names (view boot.now.description.now) }
    ensures { ExplainFoundEnds A (view boot.now.description.now)
        (boot_facts boot.now.machine.now boot.now.menu.now (map size_of store.old.files))
        store.old.files
        (record { names = map (λ n. n.now) names.now; files = store.old.files })
        say.old.items say.new.items result }
{
    let ended = run(alloc, memory, store, boot.machine, boot.menu);
    // For the proof: each ticket was answered once, with its piece.
    store.faithful();
    let sought = Sought::new(names, store.fetched());
    match ended {
        Ok(outcome) => {
            let told = find_details(alloc, boot, &sought, &outcome.refused)?;
            let steps = find_steps(alloc, boot, &sought, outcome.entry)?;
            tell_booted(alloc, boot, &sought, &told, &steps, &outcome, say)?;
            Ok(End::Booted)
        }
        Err(BootFault::NoEntryLeft(refused)) => {
            let told = find_details(alloc, boot, &sought, &refused)?;
            tell_none_left(alloc, boot, &sought, &told, &refused, say)?;
            Ok(End::NoEntryLeft)
        }
        Err(BootFault::NoMemory) => Err(EndFault::NoMemory),
    }
}
