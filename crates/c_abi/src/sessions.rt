//! A session of what C gives, and what C is told of its outcome.
ghost use Rattle.std.specs.Prelude.{◌≡◌, IfOk};
ghost use Rattle.c_abi.specs.Sessions.{IsSessionMade, TellsOutcome};
ghost use Rattle.c_abi.specs.Sessions as spec;

use crate::boot_telling::{tell_boot_fault, tell_outcome};
use crate::menu_files::files_of;
use crate::menus::menu_of;
use bl_plan::MAX_PARTS;
use bl_session::OwnedSession;
use c_records::{
    EntryRecord, FileRecord, GivenFault, HandoffRecord, MachineRecord, Misuse, PlaceRecord,
    RefusalRecord, UNREADABLE, machine_of,
};
use std::alloc::{AllocError, Allocator};

/// How long a file is; none if it can't be read.
fn length_of(file: &FileRecord) -> Option<u64>
    ensures { result ≡ spec.size_given file.now }
{
    if file.length == UNREADABLE {
        return None;
    }
    Some(file.length)
}

/// How long each file of a menu is.
fn sizes_of<A: Allocator + Copy>(
    alloc: A,
    entries: &[EntryRecord],
) -> Result<Vec<Option<u64>, A>, AllocError>
    ensures { IfOk result (λ sizes. sizes.items ≡ spec.sizes_given entries.now) }
{
    let files = files_of(alloc, entries)?;
    let mut sizes = Vec::new(alloc);
    for file in &files {
        sizes.push(length_of(file))?;
    }
    Ok(sizes)
}

/// The session of a menu whose files' bytes come later. Of a file its length alone is looked at.
///
/// The first fault that stands: of the machine, of the entries in order, and then `TooManyEntries`,
/// `TooManyModules`, `LongRsdp`, `BadIndex`.
pub fn session_given<A: Allocator + Copy>(
    alloc: A,
    machine: &MachineRecord,
    entries: &[EntryRecord],
    default: u32,
    fallbacks: &[u32],
) -> Result<OwnedSession<A>, GivenFault>
    ensures { IsSessionMade machine.now entries.now default fallbacks.now result }
{
    let made = match machine_of(alloc, machine) {
        Ok(made) => made,
        Err(fault) => return Err(fault),
    };
    let menu = match menu_of(alloc, entries, default, fallbacks) {
        Ok(menu) => menu,
        Err(fault) => return Err(fault),
    };
    let Ok(sizes) = sizes_of(alloc, entries) else {
        return Err(GivenFault::NoMemory);
    };
    Ok(OwnedSession::new(alloc, made, menu, sizes))
}

/// Tells the outcome of a session, with its status: 2 while there is none.
#[tactic(auto, using(crate::proofs::InsideLemmas::phase_within))]
pub fn outcome_told<A: Allocator + Copy>(
    session: &OwnedSession<A>,
    told: &mut HandoffRecord,
    places: &mut [PlaceRecord],
    refusals: &mut [RefusalRecord],
    count: &mut u64,
) -> u32
    ensures { TellsOutcome session.now result
        (record {
          handoff = told.old;
          places = places.old;
          refusals = refusals.old;
          count = count.old;
        })
        (record {
          handoff = told.new;
          places = places.new;
          refusals = refusals.new;
          count = count.new;
        }) }
{
    if places.len() < MAX_PARTS {
        return Misuse::SmallRoom.status();
    }
    match session.outcome() {
        Some(Ok(outcome)) => tell_outcome(outcome, told, places, refusals, count),
        Some(Err(fault)) => tell_boot_fault(fault, refusals, count),
        None => 2,
    }
}
