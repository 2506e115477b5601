//! Bytes that contracts alone see.
ghost use Rattle.std.specs.Prelude.{◌≡◌, ℕ, List, [], ◌++◌};
ghost use Rattle.std.specs.Borrow.{ftrue};

use std::marker::{Model, Send};

/// A message, as contracts see it: nothing of it is there as the program runs. What it says is tied
/// to other fields by the struct that has it.
#[derive(Drop)]
pub(crate) struct Message {
    ghost bytes: { List ℕ },
}

impl Model for Message {
    ghost also_owns = { λ _. ftrue };
}

// It owns nothing.
unsafe impl Send for Message {}

impl Message {
    /// The empty message.
    pub(crate) fn empty() -> Message
        ensures { result.bytes ≡ [] }
    {
        Message {}
    }

    /// This message, and these bytes behind it.
    pub(crate) fn with_part(&self, _part: &[u8]) -> Message
        ensures { result.bytes ≡ self.now.bytes ++ _part.now }
    {
        Message {}
    }
}
