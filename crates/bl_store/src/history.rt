//! What a store was asked and answered, for contracts alone.
ghost use Rattle.std.specs.Prelude.{◌≡◌, List, [], ◌∷◌, ◌++◌};
ghost use Rattle.std.specs.Borrow.{ftrue};
ghost use Rattle.bl_store.specs.History.{HistoryItem};

use crate::store::Completion;
use crate::stored_files::StoredFiles;
use crate::submission::Submission;
use std::alloc::Allocator;
use std::marker::Model;

/// What a store was asked and answered. It has no items of its own: nothing of it is there as the
/// program runs.
///
/// A store of one's own that answers each ticket once keeps a [`Ledger`](crate::Ledger), which
/// keeps a history, and needs no proof. A store that answers in some other way, such as a ticket
/// twice, keeps a history in a field and gives its `items` as `given` in its `impl Store`: those of
/// `and_submission` after a submission that was not refused memory, and of `and_answer` after each
/// answer.
/// `tells_taken` of `proofs/store_lemmas/ToldLemmas.antt` then proves the clauses of `next`.
#[derive(Drop)]
pub struct History {
    ghost items: { List HistoryItem },
}

impl Model for History {
    ghost also_owns = { λ _. ftrue };
}

impl History {
    ghost use Rattle.bl_store.specs.History.{submitted};
    ghost use Rattle.bl_store.specs.Stores.{item_of_completion};

    /// Nothing was asked or answered.
    pub fn new() -> History
        ensures { result.items ≡ [] }
    {
        History {}
    }

    /// This was asked for too.
    pub fn and_submission(&self, _submission: &Submission) -> History
        ensures { result.items
            ≡ self.now.items ++ submitted _submission.now.file _submission.now.ticket ∷ [] }
    {
        History {}
    }

    /// This was answered too, by a store of these files.
    pub fn and_answer<F: StoredFiles, A: Allocator>(
        &self,
        _files: &F,
        _answer: &Option<Completion<A>>,
    ) -> History
        ensures { result.items
            ≡ self.now.items
            ++ item_of_completion (F.files _files.now) self.now.items _answer.now ∷ [] }
    {
        History {}
    }
}
