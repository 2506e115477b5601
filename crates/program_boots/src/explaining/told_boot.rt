//! What a boot came to is told, for a person.
ghost use Rattle.std.specs.Prelude.{◌≡◌, ◌≤◌, OnOk, OnErr, length, map};
ghost use Rattle.std.specs.Io.{StartsWith};
ghost use Rattle.bl_stage.specs.Files.{size_of};
ghost use Rattle.bl_session.specs.session.Phases.{boot_facts};
ghost use Rattle.program_boots.specs.explaining.ToldBoots.{TellsBooted, TellsNoneLeft};
ghost use Rattle.program_desc.specs.Views.{view};

use crate::described::{DescribedBoot, title_of};
use bl_load::Step;
use bl_session::{Outcome, RefusedEntry};
use program_say::{
    Sought, ToldRefusal, say_attempt, say_booted, say_handoff, say_handoff_frames, say_hints,
    say_machine_firmware, say_no_entry_left, say_refused_attempts,
};
use std::alloc::{AllocError, Allocator};

/// Appends the lines of a boot in which each entry that was attempted was refused: what firmware
/// tells, each attempt with its files and its refusal, and the hints. An error leaves the text as
/// it was.
pub fn tell_none_left<A: Allocator + Copy, B: Allocator>(
    alloc: A,
    boot: &DescribedBoot<'_, A>,
    sought: &Sought<'_, A>,
    told: &[ToldRefusal],
    refused: &[RefusedEntry],
    say: &mut Vec<u8, B>,
) -> Result<(), AllocError>
    requires few { length boot.now.description.now.entries.items ≤ 32 }
    requires facts { TellsNoneLeft (boot_facts boot.now.machine.now boot.now.menu.now
        (map size_of sought.now.files)) (view boot.now.description.now).entries sought.now
        refused.now told.now }
    ensures ok { OnOk result (StartsWith say.new.items say.old.items) }
    ensures err { OnErr result (say.new.items ≡ say.old.items) }
{
    let mut lines = Vec::new(alloc);
    say_machine_firmware(&mut lines, &boot.machine.firmware())?;
    say_refused_attempts(&mut lines, boot.machine, boot.description, sought, told)?;
    say_no_entry_left(&mut lines)?;
    say_hints(&mut lines, boot.description, sought, refused, None)?;
    say.extend_from_slice(&lines)
}

/// Appends the lines of the entry that is handed over by these steps, and the hints.
fn say_outcome<A: Allocator + Copy>(
    out: &mut Vec<u8, A>,
    boot: &DescribedBoot<'_, A>,
    sought: &Sought<'_, A>,
    steps: &[Step],
    outcome: &Outcome<A>,
) -> Result<(), AllocError>
    requires { length boot.now.description.now.entries.items ≤ 32 }
{
    let entry = outcome.entry;
    say_booted(out, entry as u64, title_of(boot.description, entry))?;
    say_handoff(out, steps, &outcome.handoff)?;
    say_handoff_frames(
        out,
        boot.description,
        sought,
        boot.machine,
        entry,
        &outcome.handoff,
    )?;
    say_hints(out, boot.description, sought, &outcome.refused, Some(entry))
}

/// Appends the lines of a boot in which an entry is handed over by these steps: what firmware
/// tells, each attempt that was refused, the entry with its files and what it hands over, and the
/// hints. An error leaves the text as it was.
pub fn tell_booted<A: Allocator + Copy, B: Allocator>(
    alloc: A,
    boot: &DescribedBoot<'_, A>,
    sought: &Sought<'_, A>,
    told: &[ToldRefusal],
    steps: &[Step],
    outcome: &Outcome<A>,
    say: &mut Vec<u8, B>,
) -> Result<(), AllocError>
    requires few { length boot.now.description.now.entries.items ≤ 32 }
    requires facts { TellsBooted A (boot_facts boot.now.machine.now boot.now.menu.now
        (map size_of sought.now.files)) (view boot.now.description.now).entries sought.now
        outcome.now.entry outcome.now.refused.items outcome.now.handoff told.now steps.now }
    ensures ok { OnOk result (StartsWith say.new.items say.old.items) }
    ensures err { OnErr result (say.new.items ≡ say.old.items) }
{
    let mut lines = Vec::new(alloc);
    say_machine_firmware(&mut lines, &boot.machine.firmware())?;
    say_refused_attempts(&mut lines, boot.machine, boot.description, sought, told)?;
    say_attempt(&mut lines, boot.description, sought, outcome.entry)?;
    say_outcome(&mut lines, boot, sought, steps, outcome)?;
    say.extend_from_slice(&lines)
}
