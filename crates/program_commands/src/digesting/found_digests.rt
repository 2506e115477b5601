//! The digests of what was found for a description.
ghost use Rattle.std.specs.Prelude.{map};
ghost use Rattle.bl_stage.specs.Files.{size_of, stored_files};
ghost use Rattle.bl_session.specs.session.Phases.{boot_facts};
ghost use Rattle.program_desc.specs.Views.{view};
ghost use Rattle.program_commands.specs.internal.DigestEnds.{FoundDigestEnds};

use crate::boot_end::{End, EndFault};
use crate::booting::say_none_left;
use crate::digesting::planned_menu::{MenuPlan, plan_menu};
use bl_session::Fetched;
use program_boots::{DescribedBoot, digest_entry, say_digested, title_of};
use std::alloc::Allocator;

/// Says what the boot of these files comes to, and the digests of what would be handed over.
pub fn digest_found<A: Allocator + Copy, B: Allocator>(
    alloc: A,
    files: &[Fetched<A>],
    boot: &DescribedBoot<'_, A>,
    say: &mut Vec<u8, B>,
) -> Result<End, EndFault>
    ensures { FoundDigestEnds (view boot.now.description.now)
        (boot_facts boot.now.machine.now boot.now.menu.now (map size_of (stored_files files.now)))
        (stored_files files.now) say.old.items say.new.items result }
{
    match plan_menu(alloc, boot.machine, boot.menu, files)? {
        MenuPlan::HandsOver(planned) => {
            let entry = boot.menu.entry(planned.entry);
            let digests = digest_entry(alloc, entry, files, &planned.plan)?;
            let title = title_of(boot.description, planned.entry);
            say_digested(alloc, &planned.refused, planned.entry, title, &digests, say)?;
            Ok(End::Booted)
        }
        MenuPlan::NoneLeft(refused) => {
            say_none_left(alloc, &refused, say)?;
            Ok(End::NoEntryLeft)
        }
    }
}
