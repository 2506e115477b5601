//! What a writer was given, for contracts alone.
ghost use Rattle.std.specs.Prelude.{◌≡◌, ℕ, List, [], ◌++◌, unwrap_or};
ghost use Rattle.std.specs.Borrow.{ftrue};

use std::io::Write;
use std::marker::Model;

/// What a writer told that it held at the start, and after it the bytes that it said it took since
/// then. It has no bytes of its own: nothing of it is there as the program runs.
#[derive(Drop)]
pub(crate) struct History {
    ghost bytes: { List ℕ },
}

impl Model for History {
    ghost also_owns = { λ _. ftrue };
}

impl History {
    /// Nothing was taken yet. A writer that does not tell counts as empty.
    pub(crate) fn of<W: Write>(_writer: &W) -> History
        ensures { result.bytes ≡ unwrap_or (W.contents _writer.now) [] }
    {
        History {}
    }

    /// These bytes were taken too.
    pub(crate) fn with_part(&self, _part: &[u8]) -> History
        ensures { result.bytes ≡ self.now.bytes ++ _part.now }
    {
        History {}
    }
}
