//! The books of a store: what it is to answer, and what it was asked and answered.
use crate::history::History;
use crate::pending::Pending;
use crate::store::Completion;
use crate::stored_files::StoredFiles;
use crate::submission::{Submission, answer};
use crate::ticket::Ticket;
use std::alloc::{AllocError, Allocator};
use std::marker::Model;

/// The books of a store over files: the submissions that are to be answered, from the first to the
/// last, and its history. It answers each ticket once, with the piece that was asked for, in
/// whatever order the store chooses; so a store that keeps one is faithful, as `faithful` says.
/// Pieces of a file that are asked for one after the other take the room of one. Only an answer
/// between them takes memory beside its copy of the piece.
///
/// A store of one's own keeps one in a field, and passes each call of its `impl Store` on. It needs
/// no lemma and no proof file, since these calls promise what `Store` does:
///
/// ```text
/// impl<A: Allocator + Copy> Store for Disk<'_, A> {
///     type Alloc = A;
///
///     ghost files = { λ disk. disk.ledger.files };
///
///     ghost given = { λ disk. disk.ledger.given };
///
///     ghost left = { λ disk. length disk.ledger.pending };
///
///     fn size(&self, file: u32) -> Result<Option<u64>, AllocError> {
///         Ok(self.ledger.size(file))
///     }
///
///     fn left(&self) -> u64 {
///         self.ledger.len() as u64
///     }
///
///     fn submit(&mut self, file: u32, ticket: Ticket) -> Result<(), AllocError> {
///         self.ledger.submit(file, ticket)
///     }
///
///     fn next(&mut self) -> Result<Option<Completion<A>>, AllocError> {
///         self.ledger.answer(self.ledger.len() / 2)
///     }
/// }
/// ```
#[derive(Drop)]
pub struct Ledger<F: StoredFiles, A: Allocator + Copy> {
    alloc: A,
    files: F,
    pending: Pending<A>,
    history: History,
}

impl<F: StoredFiles, A: Allocator + Copy> Model for Ledger<F, A> {
    ghost use Rattle.bl_store.specs.Ledger.{LedgerFacts};
    ghost use Rattle.bl_store.specs.internal.LedgerCounts.{IsLedgerKept};

    ghost Value = { LedgerFacts };

    ghost view = { λ l. record {
      files = F.files l.files;
      pending = l.pending;
      given = l.history.items;
    } };

    ghost invariant = { λ l. IsLedgerKept (F.files l.files) l.pending l.history.items };
}

impl<F: StoredFiles, A: Allocator + Copy> Ledger<F, A> {
    ghost use Rattle.std.specs.Prelude.{◌≡◌, ◌↔◌, ◌+◌, ◌<◌, ◌≤◌, [], ◌∷◌, ◌++◌, length};
    ghost use Rattle.std.specs.Prelude.{slice_get, slice_index_or, option_map};
    ghost use Rattle.std.specs.Prelude.{IfOk, OnOk, OnErr, IfSome, IsNone};
    ghost use Rattle.bl_stage.specs.Files.{missing, size_of};
    ghost use Rattle.bl_store.specs.History.{HistoryItem, submitted, IsItemOfAnswer};
    ghost use Rattle.bl_store.specs.Faithful.{IsFaithful};
    ghost use Rattle.bl_store.specs.Stores.{event_of};
    ghost use Rattle.bl_store.specs.Ledger.{pending_answer, ledger_asked, ledger_answered};

    /// The books of a store of these files that was asked for nothing yet.
    pub fn new(alloc: A, files: F) -> Ledger<F, A>
        ensures { result ≡ record { files = F.files files; pending = []; given = [] } }
    {
        Ledger {
            alloc,
            files,
            pending: Pending::new(alloc),
            history: History::new(),
        }
    }

    /// The files.
    pub fn files(&self) -> &F
        ensures { F.files result.now ≡ self.now.files }
    {
        &self.files
    }

    /// A file's length in bytes; `None` is a missing file.
    pub fn size(&self, file: u32) -> Option<u64>
        ensures { result ≡ size_of (slice_index_or self.now.files file missing) }
    {
        self.files.size(file)
    }

    /// How many submissions are to be answered.
    pub fn len(&self) -> usize
        ensures { result ≡ length self.now.pending }
    {
        self.pending.len()
    }

    /// The submission that is to be answered at this place of them, from 0 on; none if there is no
    /// such place.
    pub fn pending(&self, at: usize) -> Option<Submission>
        ensures { result ≡ slice_get self.now.pending at }
    {
        self.pending.at(at)
    }

    /// For the proof: each ticket was answered at most once, with the piece that was asked for.
    pub fn faithful(&self)
        ensures { IsFaithful self.now.files self.now.given }
    {
        let _ = &self.files;
    }

    /// A file was asked for under a ticket. It is the last of those that are to be answered.
    ///
    /// Want of memory changes nothing.
    pub fn submit(&mut self, file: u32, ticket: Ticket) -> Result<(), AllocError>
        ensures ok { OnOk result (self.new ≡ ledger_asked self.old (record {
          file = file;
          ticket = ticket;
        })) }
        ensures unchanged { OnErr result (self.new ≡ self.old) }
        ensures files { self.new.files ≡ self.old.files }
        ensures given { OnOk result
            (self.new.given ≡ self.old.given ++ submitted file ticket ∷ []) }
        ensures left { length self.new.pending ≤ length self.old.pending + 2 }
        ensures err { OnErr result ((self.new.given ≡ self.old.given)
            × (length self.new.pending ≡ length self.old.pending)) }
    {
        let submission = Submission { file, ticket };
        self.pending.push(submission)?;
        self.history = self.history.and_submission(&submission);
        Ok(())
    }

    /// The answer to the submission at this place of those that are to be answered, and leaves it
    /// out: a copy of the piece, or a fault if there is no such file or piece. `None` if nothing is
    /// to be answered.
    ///
    /// Want of memory changes nothing.
    pub fn answer(&mut self, at: usize) -> Result<Option<Completion<A>>, AllocError>
        requires { 0 < length self.old.pending → at < length self.old.pending }
        ensures answer { IfOk result (λ answer.
            option_map event_of answer ≡ pending_answer self.old at) }
        ensures ok { OnOk result (self.new ≡ ledger_answered self.old at) }
        ensures unchanged { OnErr result (self.new ≡ self.old) }
        ensures files { self.new.files ≡ self.old.files }
        ensures given { IfOk result (λ answer. (item : HistoryItem)
            × IsItemOfAnswer self.old.files self.old.given answer item
            × (self.new.given ≡ self.old.given ++ item ∷ [])) }
        ensures none { IfOk result (λ answer. IsNone answer ↔ (length self.old.pending ≡ 0)) }
        ensures fewer { IfOk result (λ answer. IfSome answer (λ _.
            length self.new.pending + 1 ≡ length self.old.pending)) }
        ensures as_many { IfOk result (λ answer.
            IsNone answer → length self.new.pending ≡ length self.old.pending) }
        ensures err { OnErr result ((self.new.given ≡ self.old.given)
            × (length self.new.pending ≡ length self.old.pending)) }
    {
        self.take_answer(at)
    }

    /// The answer to the submission at this place, which it leaves out.
    fn take_answer(&mut self, at: usize) -> Result<Option<Completion<A>>, AllocError>
        requires { 0 < length self.old.pending → at < length self.old.pending }
        ensures answer { IfOk result (λ answer.
            option_map event_of answer ≡ pending_answer self.old at) }
        ensures ok { OnOk result (self.new ≡ ledger_answered self.old at) }
        ensures unchanged { OnErr result (self.new ≡ self.old) }
    {
        let answer = self.find_answer(at)?;
        self.pending.remove(at)?;
        self.history = self.history.and_answer(&self.files, &answer);
        Ok(answer)
    }

    /// The answer to the submission at this place.
    fn find_answer(&self, at: usize) -> Result<Option<Completion<A>>, AllocError>
        ensures { IfOk result (λ answer. option_map event_of answer ≡ pending_answer self.now at) }
    {
        match self.pending.at(at) {
            Some(submission) => Ok(Some(answer(self.alloc, &self.files, &submission)?)),
            None => Ok(None),
        }
    }
}
