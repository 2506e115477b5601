//! A session for C: a boot that is told its pieces as they come.
ghost use Rattle.std.specs.Prelude.{◌≡◌, ℕ, List, [], None, Err, Result};
ghost use Rattle.std.specs.Option.{MatchOption};
ghost use Rattle.bl_session.specs.declared.session.outcome.Progress.{Progress};
ghost use Rattle.bl_store.specs.Events.{piece, fault};
ghost use Rattle.bl_session.specs.session.Phases.{SessionFacts, state_at};
ghost use Rattle.bl_session.specs.session.Requests.{first_request, request_after};
ghost use Rattle.c_abi.specs.BootTold.{Telling};
ghost use Rattle.c_abi.specs.Sessions.{IsSessionMade, TellsSession, TellsOutcome};
ghost use Rattle.c_records.specs.declared.given_fault.GivenFault.{GivenFault};
ghost use Rattle.c_handle.specs.declared.handle_fault.HandleFault.{HandleFault};
ghost use Rattle.c_handle.specs.declared.handle_fault.HandleFault.TheVariants.{NoSession};
ghost use Rattle.c_handle.specs.HandleTold.{TellsRequest, progress_status, record_ticket};
ghost use Rattle.c_handle.specs.SessionSteps.{IsStarted, IsStepped};

use c_abi::{given_status, outcome_told, session_given};
use c_handle::{Handle, HandleFault, RequestRecord, status_of};
use c_records::{
    EntryRecord, GivenFault, HandoffRecord, MachineRecord, PlaceRecord, RefusalRecord,
};
use std::alloc::Global;

/// A session is made, and kept; one that was kept before is freed then.
#[unsafe(no_mangle)]
pub extern "C" fn bootcore_session_make_arrays(
    alloc: Global,
    session: &mut Handle,
    machine: &MachineRecord<'_>,
    entries: &[EntryRecord],
    default: u32,
    fallbacks: &[u32],
) -> u32
    ensures { (made : Result SessionFacts GivenFault)
        × IsSessionMade machine.now entries.now default fallbacks.now made
        × TellsSession made result session.old.kept session.new.kept }
{
    match session_given(alloc, machine, entries, default, fallbacks) {
        Ok(made) => match session.make(alloc, made) {
            Ok(()) => 0,
            Err(_) => given_status(GivenFault::NoMemory),
        },
        Err(fault) => given_status(fault),
    }
}

/// The session that is kept starts, over memory that begins at a base.
#[unsafe(no_mangle)]
pub extern "C" fn bootcore_session_start_array(
    alloc: Global,
    session: &mut Handle,
    memory: &mut [u8],
    base: u32,
) -> u32
    ensures { (told : Result Progress HandleFault)
        × IsStarted session.old.kept session.new.kept base memory.old memory.new told
        × (result ≡ progress_status told) }
{
    session.start_told(alloc, base, memory)
}

/// A piece came.
#[unsafe(no_mangle)]
pub extern "C" fn bootcore_session_piece_arrays(
    alloc: Global,
    session: &mut Handle,
    memory: &mut [u8],
    base: u32,
    request: &RequestRecord,
    bytes: &[u8],
) -> u32
    ensures { (told : Result Progress HandleFault)
        × IsStepped session.old.kept session.new.kept base memory.old memory.new
        (piece (record_ticket request.now) bytes.now) told
        × (result ≡ progress_status told) }
{
    session.piece_told(alloc, base, memory, request, bytes)
}

/// A fault came in place of a piece.
#[unsafe(no_mangle)]
pub extern "C" fn bootcore_session_fault_array(
    alloc: Global,
    session: &mut Handle,
    memory: &mut [u8],
    base: u32,
    request: &RequestRecord,
) -> u32
    ensures { (told : Result Progress HandleFault)
        × IsStepped session.old.kept session.new.kept base memory.old memory.new
        (fault (record_ticket request.now)) told
        × (result ≡ progress_status told) }
{
    session.fault_told(alloc, base, memory, request)
}

/// The first piece that is awaited, and whether there is one.
#[unsafe(no_mangle)]
pub extern "C" fn bootcore_session_missing_record(
    alloc: Global,
    session: &mut Handle,
    request: &mut RequestRecord,
) -> bool
    ensures kept { session.new.kept ≡ session.old.kept }
    ensures place { session.new.at ≡ session.old.at }
    ensures told { (bytes : List ℕ) → MatchOption session.old.kept
        (TellsRequest [] None result request.old request.new)
        (λ session. TellsRequest session.boot.menu.attempts
        (first_request session.boot (state_at bytes session.phase))
        result request.old request.new) }
{
    session.missing_told(alloc, request)
}

/// The first piece that is awaited after that of a record, which it then is, and whether there is
/// one.
#[unsafe(no_mangle)]
pub extern "C" fn bootcore_session_missing_after_record(
    alloc: Global,
    session: &mut Handle,
    request: &mut RequestRecord,
) -> bool
    ensures kept { session.new.kept ≡ session.old.kept }
    ensures place { session.new.at ≡ session.old.at }
    ensures told { (bytes : List ℕ) → MatchOption session.old.kept
        (TellsRequest [] None result request.old request.new)
        (λ session. TellsRequest session.boot.menu.attempts
        (request_after session.boot (state_at bytes session.phase) (record_ticket request.old))
        result request.old request.new) }
{
    session.missing_after_told(alloc, request)
}

/// The outcome of the session that is kept.
#[unsafe(no_mangle)]
pub extern "C" fn bootcore_session_outcome_arrays(
    alloc: Global,
    session: &mut Handle,
    told: &mut HandoffRecord,
    places: &mut [PlaceRecord],
    refusals: &mut [RefusalRecord],
    count: &mut u64,
) -> u32
    ensures kept { session.new.kept ≡ session.old.kept }
    ensures place { session.new.at ≡ session.old.at }
    ensures told { let before : Telling = record {
      handoff = told.old;
      places = places.old;
      refusals = refusals.old;
      count = count.old;
    } in let after : Telling = record {
      handoff = told.new;
      places = places.new;
      refusals = refusals.new;
      count = count.new;
    } in MatchOption session.old.kept
        ((result ≡ progress_status (Err NoSession)) × (after ≡ before))
        (λ session. TellsOutcome session result before after) }
{
    let lent = session.lend(alloc);
    let status = match lent.look() {
        Some(kept) => outcome_told(kept, told, places, refusals, count),
        None => status_of(Err(HandleFault::NoSession)),
    };
    session.take_back(lent);
    status
}

/// The session that is kept is freed.
#[unsafe(no_mangle)]
pub extern "C" fn bootcore_session_free_kept(alloc: Global, session: &mut Handle)
    ensures { session.new.kept ≡ None }
{
    session.free(alloc)
}
