//! A handle to a session for the time of a call. What can be read through a `&` may not cross to C.
ghost use Rattle.std.specs.Prelude.{◌≡◌, Option, option_map};
ghost use Rattle.bl_session.specs.session.Phases.{SessionFacts};
ghost use Rattle.c_handle.specs.Handles.{handle_owns, handle_shares};
ghost use Rattle.c_handle.specs.Handles.{coded_kept_session, session_type};

use bl_session::OwnedSession;
use std::alloc::Global;
use std::marker::Model;

/// A handle that keeps what another one kept, at the same place.
#[derive(Drop)]
pub struct LentHandle {
    pub(crate) at: *mut u8,
    pub(crate) alloc: Global,
    pub ghost kept: { Option SessionFacts } by { coded_kept_session },
}

impl Model for LentHandle {
    ghost also_owns = { λ h. handle_owns session_type h.alloc h.at h.kept };

    ghost also_shares = { λ h _ κ. handle_shares session_type h.at h.kept κ };
}

impl LentHandle {
    /// The session that is kept, if there is one.
    pub fn look(&self) -> Option<&OwnedSession<Global>>
        ensures { option_map (λ session. session.now) result ≡ self.now.kept }
    {
        let at = self.at;
        if at.is_null() {
            return None;
        }
        Some(unsafe { &*(at as *const OwnedSession<Global>) })
    }
}
