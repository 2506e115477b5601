//! What a session awaits, and what it asks a store for.
ghost use Rattle.std.specs.Prelude.{◌≡◌, ℕ, List, Some, true};
ghost use Rattle.bl_session.specs.session.Submissions.{attempt_submissions};
ghost use Rattle.bl_session.specs.session.Phases.{state_at, is_waiting};
ghost use Rattle.bl_session.specs.session.Requests.{first_request, request_after};
ghost use Rattle.bl_session.specs.internal.session.Submitted.{AreSubmitted, first_awaited_ticket};

use crate::attempt::cursor::first_missing;
use crate::attempt::missing_pieces::{next_missing, request_of};
use crate::attempt::request::Request;
use crate::session::phase::{Phase, awaits_pieces};
use crate::session::submissions::submit_files;
use crate::session::{BootHolder, SessionOver};
use bl_store::{Store, Ticket};
use std::alloc::{AllocError, Allocator};

impl<A: Allocator + Copy, H: BootHolder<A>> SessionOver<A, H> {
    /// Whether an attempt waits for pieces.
    pub fn is_waiting(&self) -> bool
        ensures { result ≡ is_waiting self.now.phase }
    {
        awaits_pieces(&self.phase)
    }

    /// Asks for each piece of the attempt that waits.
    pub(crate) fn submit_attempt<S: Store>(&self, store: &mut S) -> Result<(), AllocError>
        requires { is_waiting self.now.phase ≡ true }
        ensures asked { (bytes : List ℕ) → AreSubmitted result
            (attempt_submissions self.now.boot (state_at bytes self.now.phase))
            (S.given store.old) (S.given store.new) }
        ensures files { S.files store.new ≡ S.files store.old }
    {
        let Phase::Waits(waiting) = &self.phase else {
            unreachable!();
        };
        let menu = self.holder.menu();
        // For the proof: there are few attempts, so the number fits.
        menu.attempts();
        let entry = menu.entry(waiting.entry);
        submit_files(store, waiting.earlier.len() as u32, entry, &waiting.stage)
    }

    /// The first piece that the attempt awaits: files ascending, and in each of them pieces
    /// ascending. None if no attempt waits for pieces.
    pub fn missing(&self) -> Option<Request>
        ensures { (bytes : List ℕ)
            → result ≡ first_request self.now.boot (state_at bytes self.now.phase) }
    {
        let Phase::Waits(waiting) = &self.phase else {
            return None;
        };
        let menu = self.holder.menu();
        // For the proof: there are few attempts and files, so the numbers fit.
        menu.attempts();
        let entry = menu.entry(waiting.entry);
        let found = first_missing(waiting.earlier.len() as u32, &waiting.stage, waiting.cursor);
        request_of(entry, &waiting.stage, found)
    }

    /// The first piece that the attempt awaits after that of a ticket, of whatever attempt.
    pub fn missing_after(&self, ticket: Ticket) -> Option<Request>
        ensures { (bytes : List ℕ)
            → result ≡ request_after self.now.boot (state_at bytes self.now.phase) ticket }
    {
        let Phase::Waits(waiting) = &self.phase else {
            return None;
        };
        let menu = self.holder.menu();
        // For the proof: there are few attempts and files, so the numbers fit.
        menu.attempts();
        let entry = menu.entry(waiting.entry);
        let found = next_missing(waiting.earlier.len() as u32, &waiting.stage, ticket);
        request_of(entry, &waiting.stage, found)
    }

    /// The ticket of the first piece that the attempt awaits.
    pub(crate) fn first_missing_ticket(&self) -> Ticket
        requires { is_waiting self.now.phase ≡ true }
        ensures { (bytes : List ℕ) → first_awaited_ticket (state_at bytes self.now.phase)
            ≡ Some result }
    {
        let Phase::Waits(waiting) = &self.phase else {
            unreachable!();
        };
        let menu = self.holder.menu();
        // For the proof: there are few attempts and files, so the numbers fit.
        menu.attempts();
        menu.entry(waiting.entry);
        // For the proof: each file has its frames.
        waiting.stage.are_staged();
        let attempt = waiting.earlier.len() as u32;
        match first_missing(attempt, &waiting.stage, waiting.cursor) {
            Some(ticket) => ticket,
            None => unreachable!(),
        }
    }
}
