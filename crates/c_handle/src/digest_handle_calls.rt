//! A digest is kept and freed through its handle.
ghost use Rattle.std.specs.Prelude.{◌≡◌, None, Some, OnOk, OnErr};

use crate::digest_handle::DigestHandle;
use bl_digest::Digesting;
use std::alloc::{AllocError, Global};

impl DigestHandle {
    /// Keeps a digest, on the heap. One that was kept before is freed.
    pub fn make(&mut self, alloc: Global, digest: Digesting<Global>) -> Result<(), AllocError>
        ensures ok { OnOk result (self.new.kept ≡ Some digest) }
        ensures err { OnErr result (self.new.kept ≡ self.old.kept) }
    {
        let boxed = Box::new(alloc, digest)?;
        self.free(alloc);
        self.keep(boxed);
        Ok(())
    }

    /// Frees the digest that is kept, if there is one. None is kept from here on.
    pub fn free(&mut self, alloc: Global)
        ensures { self.new.kept ≡ None }
    {
        let digest = self.take(alloc);
        drop(digest);
    }
}
