//! A session is kept, asked and freed through its handle.
ghost use Rattle.std.specs.Prelude.{◌≡◌, ℕ, List, None, Some, OnOk, OnErr};
ghost use Rattle.std.specs.Option.{MatchOption};
ghost use Rattle.bl_session.specs.session.Phases.{state_at};
ghost use Rattle.bl_session.specs.session.Requests.{first_request, request_after};

use crate::handle::Handle;
use bl_session::{OwnedSession, Request, Ticket};
use std::alloc::{AllocError, Global};

impl Handle {
    /// Keeps a session, on the heap. One that was kept before is freed.
    pub fn make(&mut self, alloc: Global, session: OwnedSession<Global>) -> Result<(), AllocError>
        ensures ok { OnOk result (self.new.kept ≡ Some session) }
        ensures err { OnErr result (self.new.kept ≡ self.old.kept) }
    {
        let boxed = Box::new(alloc, session)?;
        self.free(alloc);
        self.keep(boxed);
        Ok(())
    }

    /// Frees the session that is kept, if there is one. None is kept from here on.
    pub fn free(&mut self, alloc: Global)
        ensures { self.new.kept ≡ None }
    {
        let session = self.take(alloc);
        drop(session);
    }

    /// The first piece that the session awaits, as `OwnedSession::missing`; None if none is kept.
    pub fn missing(&mut self, alloc: Global) -> Option<Request>
        ensures kept { self.new.kept ≡ self.old.kept }
        ensures place { self.new.at ≡ self.old.at }
        ensures missing { (bytes : List ℕ) → MatchOption self.old.kept (result ≡ None)
            (λ session. result ≡ first_request session.boot (state_at bytes session.phase)) }
    {
        let lent = self.lend(alloc);
        let request = match lent.look() {
            Some(session) => session.missing(),
            None => None,
        };
        self.take_back(lent);
        request
    }

    /// The first piece that the session awaits after a ticket's, as `OwnedSession::missing_after`;
    /// None if none is kept.
    pub fn missing_after(&mut self, alloc: Global, ticket: Ticket) -> Option<Request>
        ensures kept { self.new.kept ≡ self.old.kept }
        ensures place { self.new.at ≡ self.old.at }
        ensures missing { (bytes : List ℕ) → MatchOption self.old.kept (result ≡ None)
            (λ session. result
            ≡ request_after session.boot (state_at bytes session.phase) ticket) }
    {
        let lent = self.lend(alloc);
        let request = match lent.look() {
            Some(session) => session.missing_after(ticket),
            None => None,
        };
        self.take_back(lent);
        request
    }
}
