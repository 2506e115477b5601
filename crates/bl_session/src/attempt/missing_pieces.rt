//! The pieces that an attempt awaits, one after the other.
ghost use Rattle.std.specs.Prelude.{◌≡◌, ◌+◌, ◌<◌, ◌^◌, [], ℕ, List, IfSome, length, drop};
ghost use Rattle.std.specs.Prelude.{slice_index, slice_index_or, option_map, true};
ghost use Rattle.bl_map.specs.PoolFrames as room;
ghost use Rattle.bl_stage.specs.Pieces.{is_missing};
ghost use Rattle.bl_stage.specs.PieceStates.{piece_states};
ghost use Rattle.bl_session.specs.menu.Menu.{files_of};
ghost use Rattle.bl_session.specs.attempt.AwaitedTickets.{first_awaited_piece, first_ticket};
ghost use Rattle.bl_session.specs.internal.session.KeptPhases.{HasSmallFiles};
ghost use Rattle.bl_session.specs.internal.attempt.Cursors.{first_ticket_from};
ghost use Rattle.bl_session.specs.internal.attempt.MissingPieces.{HasCountablePieces, FindsMissing};
ghost use Rattle.bl_session.specs.attempt.AwaitedPieces.{piece_state_of};
ghost use Rattle.bl_session.specs.attempt.AwaitedTickets.{length_awaited, request_for};
ghost use Rattle.bl_session.specs.attempt.AwaitedTickets.{ticket_after};

use crate::attempt::request::Request;
use crate::menu::entry_files::file_at;
use bl_load::Entry;
use bl_map::frames_of;
use bl_stage::Stage;
use bl_store::Ticket;
use std::alloc::Allocator;

/// The most bytes that a piece has.
const PIECE: u64 = 4096;

/// How many pieces a file of a stage has.
pub fn pieces_of<A: Allocator>(stage: &Stage<A>, place: usize) -> u32
    requires file { place < length stage.now.sizes }
    requires small { HasSmallFiles stage.now }
    ensures { result ≡ room.frames_of (slice_index stage.now.sizes place) }
{
    frames_of(stage.size_of(place)) as u32
}

/// The first piece of a file, from this one on, that did not come.
fn piece_from<A: Allocator>(stage: &Stage<A>, place: u32, start: usize) -> Option<u32>
    requires file { place < length stage.now.sizes }
    requires small { HasSmallFiles stage.now }
    ensures first { (bytes : List ℕ) → result ≡ first_awaited_piece start
        (drop start (slice_index_or (piece_states bytes stage.now) place [])) }
    ensures missing { IfSome result (λ piece. is_missing stage.now place piece ≡ true) }
{
    for piece in start..pieces_of(stage, place as usize) as usize {
        if stage.is_missing(place, piece as u32) {
            return Some(piece as u32);
        }
    }
    None
}

/// The ticket of the first piece, from this file on, that did not come.
fn ticket_from<A: Allocator>(attempt: u32, stage: &Stage<A>, start: usize) -> Option<Ticket>
    requires { HasCountablePieces stage.now }
    ensures { FindsMissing stage.now
        (λ files. first_ticket attempt start (drop start files)) result }
{
    for place in start..stage.files() {
        if let Some(piece) = piece_from(stage, place as u32, 0) {
            return Some(Ticket {
                attempt,
                file: place as u32,
                piece,
            });
        }
    }
    None
}

/// The ticket of the first piece that did not come: of this file from this piece on, or else of the
/// files after it.
pub fn missing_from<A: Allocator>(
    attempt: u32,
    stage: &Stage<A>,
    file: u32,
    piece: usize,
) -> Option<Ticket>
    requires { HasCountablePieces stage.now }
    ensures { FindsMissing stage.now (λ files. first_ticket_from attempt files file piece) result }
{
    let place = file as usize;
    if place >= stage.files() {
        return None;
    }
    match piece_from(stage, file, piece) {
        Some(piece) => Some(Ticket {
            attempt,
            file,
            piece,
        }),
        None => ticket_from(attempt, stage, place + 1),
    }
}

/// The ticket of the first piece after a ticket's that did not come.
pub fn next_missing<A: Allocator>(attempt: u32, stage: &Stage<A>, ticket: Ticket) -> Option<Ticket>
    requires { HasCountablePieces stage.now }
    ensures { FindsMissing stage.now (λ files. ticket_after attempt files ticket) result }
{
    missing_from(attempt, stage, ticket.file, ticket.piece as usize + 1)
}

/// How many bytes a piece has that did not come.
fn missing_length<A: Allocator>(stage: &Stage<A>, ticket: Ticket) -> u32
    requires missing { is_missing stage.now ticket.file ticket.piece ≡ true }
    ensures { (bytes : List ℕ) → result
        ≡ length_awaited (piece_state_of (piece_states bytes stage.now) ticket.file ticket.piece) }
{
    let size = stage.size_of(ticket.file as usize);
    size.saturating_sub(PIECE * ticket.piece as u64).min(PIECE) as u32
}

/// What a piece is asked for by, if there is one.
pub fn request_of<A: Allocator>(
    entry: &Entry<A>,
    stage: &Stage<A>,
    found: Option<Ticket>,
) -> Option<Request>
    requires missing { IfSome found (λ ticket.
        is_missing stage.now ticket.file ticket.piece ≡ true) }
    requires files { length stage.now.sizes ≡ length (files_of entry.now) }
    ensures { (bytes : List ℕ) → result
        ≡ option_map (request_for (files_of entry.now) (piece_states bytes stage.now)) found }
{
    match found {
        Some(ticket) => Some(Request {
            file: file_at(entry, ticket.file as usize),
            ticket,
            len: missing_length(stage, ticket),
        }),
        None => None,
    }
}
