//! The calls of a session through its handle, with the numbers and records of C.
ghost use Rattle.std.specs.Prelude.{◌≡◌, ℕ, List, [], None, Result};
ghost use Rattle.std.specs.Option.{MatchOption};
ghost use Rattle.bl_session.specs.declared.session.outcome.Progress.{Progress as Progressed};
ghost use Rattle.bl_store.specs.Events.{piece, fault};
ghost use Rattle.bl_session.specs.session.Phases.{state_at};
ghost use Rattle.bl_session.specs.session.Requests.{first_request, request_after};
ghost use Rattle.c_handle.specs.declared.handle_fault.HandleFault.{HandleFault as Faulted};
ghost use Rattle.c_handle.specs.HandleTold.{TellsRequest, progress_status, record_ticket};
ghost use Rattle.c_handle.specs.SessionSteps.{IsStarted, IsStepped};

use crate::handle::Handle;
use crate::records::RequestRecord;
use crate::request_telling::{status_of, tell_request};
use bl_session::{Event, Ticket};
use std::alloc::Global;

/// The ticket of a record.
fn ticket_in(request: &RequestRecord) -> Ticket
    ensures { result ≡ record_ticket request.now }
{
    Ticket {
        attempt: request.attempt,
        file: request.place,
        piece: request.piece,
    }
}

impl Handle {
    /// Starts the session that is kept, over memory from a base on.
    pub fn start_told(&mut self, alloc: Global, base: u32, bytes: &mut [u8]) -> u32
        ensures { (told : Result Progressed Faulted)
            × IsStarted self.old.kept self.new.kept base bytes.old bytes.new told
            × (result ≡ progress_status told) }
    {
        status_of(self.start(alloc, base, bytes))
    }

    /// Tells the session that is kept that a piece came.
    pub fn piece_told(
        &mut self,
        alloc: Global,
        base: u32,
        bytes: &mut [u8],
        request: &RequestRecord,
        came: &[u8],
    ) -> u32
        ensures { (told : Result Progressed Faulted)
            × IsStepped self.old.kept self.new.kept base bytes.old bytes.new
            (piece (record_ticket request.now) came.now) told
            × (result ≡ progress_status told) }
    {
        let event = Event::Piece(ticket_in(request), came);
        status_of(self.event(alloc, base, bytes, event))
    }

    /// Tells the session that is kept that a fault came in place of a piece.
    pub fn fault_told(
        &mut self,
        alloc: Global,
        base: u32,
        bytes: &mut [u8],
        request: &RequestRecord,
    ) -> u32
        ensures { (told : Result Progressed Faulted)
            × IsStepped self.old.kept self.new.kept base bytes.old bytes.new
            (fault (record_ticket request.now)) told
            × (result ≡ progress_status told) }
    {
        let event = Event::Fault(ticket_in(request));
        status_of(self.event(alloc, base, bytes, event))
    }

    /// Tells the first piece that the session awaits, and whether there is one.
    pub fn missing_told(&mut self, alloc: Global, told: &mut RequestRecord) -> bool
        ensures kept { self.new.kept ≡ self.old.kept }
        ensures place { self.new.at ≡ self.old.at }
        ensures told { (bytes : List ℕ) → MatchOption self.old.kept
            (TellsRequest [] None result told.old told.new)
            (λ session. TellsRequest session.boot.menu.attempts
            (first_request session.boot (state_at bytes session.phase))
            result told.old told.new) }
    {
        let lent = self.lend(alloc);
        let is_told = match lent.look() {
            Some(session) => tell_request(session.menu(), session.missing(), told),
            None => false,
        };
        self.take_back(lent);
        is_told
    }

    /// Tells the first piece that the session awaits after that of a record, which it then is, and
    /// whether there is one.
    pub fn missing_after_told(&mut self, alloc: Global, told: &mut RequestRecord) -> bool
        ensures kept { self.new.kept ≡ self.old.kept }
        ensures place { self.new.at ≡ self.old.at }
        ensures told { (bytes : List ℕ) → MatchOption self.old.kept
            (TellsRequest [] None result told.old told.new)
            (λ session. TellsRequest session.boot.menu.attempts
            (request_after session.boot (state_at bytes session.phase) (record_ticket told.old))
            result told.old told.new) }
    {
        let ticket = ticket_in(told);
        let lent = self.lend(alloc);
        let is_told = match lent.look() {
            Some(session) => tell_request(session.menu(), session.missing_after(ticket), told),
            None => false,
        };
        self.take_back(lent);
        is_told
    }
}
