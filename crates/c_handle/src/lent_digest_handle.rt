//! A handle to a digest for the time of a call. What can be read through a `&` may not cross to C.
ghost use Rattle.std.specs.Prelude.{◌≡◌, Option, option_map};
ghost use Rattle.bl_digest.specs.PlanInSteps.{DigestingFacts};
ghost use Rattle.c_handle.specs.Handles.{handle_owns, handle_shares};
ghost use Rattle.c_handle.specs.Handles.{coded_kept_digest, digest_type};

use bl_digest::Digesting;
use std::alloc::Global;
use std::marker::Model;

/// A handle that keeps what another one kept, at the same place.
#[derive(Drop)]
pub struct LentDigestHandle {
    pub(crate) at: *mut u8,
    pub(crate) alloc: Global,
    pub ghost kept: { Option DigestingFacts } by { coded_kept_digest },
}

impl Model for LentDigestHandle {
    ghost also_owns = { λ h. handle_owns digest_type h.alloc h.at h.kept };

    ghost also_shares = { λ h _ κ. handle_shares digest_type h.at h.kept κ };
}

impl LentDigestHandle {
    /// The digest that is kept, if there is one.
    pub fn look(&self) -> Option<&Digesting<Global>>
        ensures { option_map (λ digest. digest.now) result ≡ self.now.kept }
    {
        let at = self.at;
        if at.is_null() {
            return None;
        }
        Some(unsafe { &*(at as *const Digesting<Global>) })
    }
}
