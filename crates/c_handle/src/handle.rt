//! A handle to a session.
ghost use Rattle.std.specs.Prelude.{◌≡◌, Option, None, Some, option_map};
ghost use Rattle.bl_session.specs.session.Phases.{SessionFacts};
ghost use Rattle.c_handle.specs.Handles.{handle_owns, coded_kept_session, session_type};

use crate::lent_handle::LentHandle;
use crate::raw_box::RawBox;
use bl_session::OwnedSession;
use std::alloc::Global;
use std::marker::{Model, Send};
use std::mem;
use std::ptr::null_mut;

/// A handle: null, or a pointer to a session that it keeps. In C it is a struct of that pointer,
/// which the caller sets to null, hands to each call, and neither copies nor writes.
///
/// It is not freed when it goes out of scope: take what it keeps.
#[repr(C)]
#[derive(Drop)]
pub struct Handle {
    at: *mut u8,
    alloc: Global,
    pub ghost kept: { Option SessionFacts } by { coded_kept_session },
}

impl Model for Handle {
    ghost also_owns = { λ h. handle_owns session_type h.alloc h.at h.kept };
}

// What it keeps is plain data, and its block may be freed by any thread.
unsafe impl Send for Handle {}

impl Handle {
    /// A handle that keeps no session.
    pub fn empty(alloc: Global) -> Handle
        ensures { result.kept ≡ None }
    {
        Handle {
            at: null_mut(),
            alloc,
        }
    }

    fn from_raw_box(raw_box: RawBox<OwnedSession<Global>, Global>) -> Handle
        ensures { result.kept ≡ Some raw_box.value }
    {
        let RawBox { at, alloc } = raw_box;
        Handle {
            at: at as *mut u8,
            alloc,
        }
    }

    fn into_raw_box(self) -> Option<RawBox<OwnedSession<Global>, Global>>
        ensures { option_map (λ l. l.value) result ≡ self.kept }
    {
        let Handle { at, alloc } = self;
        if at.is_null() {
            None
        } else {
            Some(RawBox {
                at: at as *mut OwnedSession<Global>,
                alloc,
            })
        }
    }

    /// The same for the time of a call, to look at what it keeps.
    fn into_lent(self) -> LentHandle
        ensures { (result.at ≡ self.at) × (result.kept ≡ self.kept) }
    {
        let Handle { at, alloc } = self;
        LentHandle { at, alloc }
    }

    /// The handle again.
    fn from_lent(lent: LentHandle) -> Handle
        ensures { (result.at ≡ lent.at) × (result.kept ≡ lent.kept) }
    {
        let LentHandle { at, alloc } = lent;
        Handle { at, alloc }
    }

    /// Lends what is kept for the time of a call; until it is taken back, none is kept.
    pub fn lend(&mut self, alloc: Global) -> LentHandle
        ensures place { result.at ≡ self.old.at }
        ensures kept { result.kept ≡ self.old.kept }
    {
        mem::replace(self, Handle::empty(alloc)).into_lent()
    }

    /// Takes back what was lent.
    pub fn take_back(&mut self, lent: LentHandle)
        ensures place { self.new.at ≡ lent.at }
        ensures kept { self.new.kept ≡ lent.kept }
    {
        *self = Handle::from_lent(lent);
    }

    /// Takes the session that is kept, if there is one; none is kept from here on.
    pub fn take(&mut self, alloc: Global) -> Option<Box<OwnedSession<Global>, Global>>
        ensures session { option_map (λ boxed. boxed.value) result ≡ self.old.kept }
        ensures none { self.new.kept ≡ None }
    {
        match mem::replace(self, Handle::empty(alloc)).into_raw_box() {
            Some(raw_box) => Some(raw_box.into_box()),
            None => None,
        }
    }

    /// Keeps a session. One that was kept before is lost, and its memory with it: take it first.
    pub fn keep(&mut self, session: Box<OwnedSession<Global>, Global>)
        ensures { self.new.kept ≡ Some session.value }
    {
        *self = Handle::from_raw_box(RawBox::of(session));
    }
}
