//! A handle to a digest.
ghost use Rattle.std.specs.Prelude.{◌≡◌, Option, None, Some, option_map};
ghost use Rattle.bl_digest.specs.PlanInSteps.{DigestingFacts};
ghost use Rattle.c_handle.specs.Handles.{handle_owns, coded_kept_digest, digest_type};

use crate::lent_digest_handle::LentDigestHandle;
use crate::raw_box::RawBox;
use bl_digest::Digesting;
use std::alloc::Global;
use std::marker::{Model, Send};
use std::mem;
use std::ptr::null_mut;

/// A handle as that of a session, but to a digest: null, or a pointer to one that it keeps.
///
/// It is not freed when it goes out of scope: take what it keeps.
#[repr(C)]
#[derive(Drop)]
pub struct DigestHandle {
    at: *mut u8,
    alloc: Global,
    pub ghost kept: { Option DigestingFacts } by { coded_kept_digest },
}

impl Model for DigestHandle {
    ghost also_owns = { λ h. handle_owns digest_type h.alloc h.at h.kept };
}

// What it keeps is plain data, and its block may be freed by any thread.
unsafe impl Send for DigestHandle {}

impl DigestHandle {
    /// A handle that keeps no digest.
    pub fn empty(alloc: Global) -> DigestHandle
        ensures { result.kept ≡ None }
    {
        DigestHandle {
            at: null_mut(),
            alloc,
        }
    }

    fn from_raw_box(raw_box: RawBox<Digesting<Global>, Global>) -> DigestHandle
        ensures { result.kept ≡ Some raw_box.value }
    {
        let RawBox { at, alloc } = raw_box;
        DigestHandle {
            at: at as *mut u8,
            alloc,
        }
    }

    fn into_raw_box(self) -> Option<RawBox<Digesting<Global>, Global>>
        ensures { option_map (λ l. l.value) result ≡ self.kept }
    {
        let DigestHandle { at, alloc } = self;
        if at.is_null() {
            None
        } else {
            Some(RawBox {
                at: at as *mut Digesting<Global>,
                alloc,
            })
        }
    }

    /// The same for the time of a call, to look at what it keeps.
    fn into_lent(self) -> LentDigestHandle
        ensures { (result.at ≡ self.at) × (result.kept ≡ self.kept) }
    {
        let DigestHandle { at, alloc } = self;
        LentDigestHandle { at, alloc }
    }

    /// The handle again.
    fn from_lent(lent: LentDigestHandle) -> DigestHandle
        ensures { (result.at ≡ lent.at) × (result.kept ≡ lent.kept) }
    {
        let LentDigestHandle { at, alloc } = lent;
        DigestHandle { at, alloc }
    }

    /// Lends what is kept for the time of a call; until it is taken back, none is kept.
    pub fn lend(&mut self, alloc: Global) -> LentDigestHandle
        ensures place { result.at ≡ self.old.at }
        ensures kept { result.kept ≡ self.old.kept }
    {
        mem::replace(self, DigestHandle::empty(alloc)).into_lent()
    }

    /// Takes back what was lent.
    pub fn take_back(&mut self, lent: LentDigestHandle)
        ensures place { self.new.at ≡ lent.at }
        ensures kept { self.new.kept ≡ lent.kept }
    {
        *self = DigestHandle::from_lent(lent);
    }

    /// Takes the digest that is kept, if there is one; none is kept from here on.
    pub fn take(&mut self, alloc: Global) -> Option<Box<Digesting<Global>, Global>>
        ensures digest { option_map (λ boxed. boxed.value) result ≡ self.old.kept }
        ensures none { self.new.kept ≡ None }
    {
        match mem::replace(self, DigestHandle::empty(alloc)).into_raw_box() {
            Some(raw_box) => Some(raw_box.into_box()),
            None => None,
        }
    }

    /// Keeps a digest. One that was kept before is lost, and its memory with it: take it first.
    pub fn keep(&mut self, digest: Box<Digesting<Global>, Global>)
        ensures { self.new.kept ≡ Some digest.value }
    {
        *self = DigestHandle::from_raw_box(RawBox::of(digest));
    }
}
