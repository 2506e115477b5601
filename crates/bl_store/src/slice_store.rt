//! A store over slices, which the caller keeps.
use crate::ledger::Ledger;
use crate::order::{Order, place_in};
use crate::store::{Completion, Store};
use crate::stored_files::SliceFiles;
use crate::ticket::Ticket;
use std::alloc::{AllocError, Allocator};

/// A store over files that lie in slices: it copies a piece as it answers, and never a whole file.
/// It answers each ticket once: with a copy of the piece, or with a fault, if the file is missing
/// or has no such piece.
#[derive(Drop)]
pub struct SliceStore<'a, A: Allocator + Copy> {
    ledger: Ledger<SliceFiles<'a>, A>,
    order: Order,
}

impl<'a, A: Allocator + Copy> SliceStore<'a, A> {
    ghost use Rattle.std.specs.Prelude.{◌≡◌, [], map, option_copied};
    ghost use Rattle.bl_store.specs.Faithful.{IsFaithful};
    ghost use Rattle.bl_store.specs.Ledger.{sliced_file};

    /// A store of these files, by their index in the menu; `None` is a missing file. Nothing was
    /// asked for yet.
    pub fn new(alloc: A, files: &'a [Option<&'a [u8]>], order: Order) -> SliceStore<'a, A>
        ensures { result ≡ record {
          ledger = record {
            files = map (λ file. sliced_file (option_copied file)) files.now;
            pending = [];
            given = [];
          };
          order = order;
        } }
    {
        SliceStore {
            ledger: Ledger::new(alloc, SliceFiles { files }),
            order,
        }
    }

    /// For the proof: it answers each ticket once, with the piece that was asked for.
    pub fn faithful(&self)
        ensures { IsFaithful self.now.ledger.files self.now.ledger.given }
    {
        self.ledger.faithful()
    }
}

impl<'a, A: Allocator + Copy> Store for SliceStore<'a, A> {
    ghost use Rattle.std.specs.Prelude.{◌≡◌, ◌↔◌, ◌+◌, ◌≤◌, [], ◌∷◌, ◌++◌, length, option_map};
    ghost use Rattle.std.specs.Prelude.{IsOk, IfOk, OnOk, OnErr, IfSome, IsNone, slice_index_or};
    ghost use Rattle.bl_stage.specs.Files.{missing, size_of};
    ghost use Rattle.bl_store.specs.History.{HistoryItem, submitted, IsItemOfAnswer};
    ghost use Rattle.bl_store.specs.Stores.{event_of, next_place};
    ghost use Rattle.bl_store.specs.Ledger.{pending_answer, ledger_asked, ledger_answered};

    type Alloc = A;

    ghost files = { λ s. s.ledger.files };

    ghost given = { λ s. s.ledger.given };

    ghost left = { λ s. length s.ledger.pending };

    fn size(&self, file: u32) -> Result<Option<u64>, AllocError>
        ensures told { IfOk result (λ size.
            size ≡ size_of (slice_index_or self.now.ledger.files file missing)) }
        ensures ok { IsOk result }
    {
        Ok(self.ledger.size(file))
    }

    fn left(&self) -> u64 {
        self.ledger.len() as u64
    }

    fn submit(&mut self, file: u32, ticket: Ticket) -> Result<(), AllocError>
        ensures ok { OnOk result (self.new ≡ record {
          ledger = ledger_asked self.old.ledger (record { file = file; ticket = ticket });
          order = self.old.order;
        }) }
        ensures unchanged { OnErr result (self.new ≡ self.old) }
        ensures files { self.new.ledger.files ≡ self.old.ledger.files }
        ensures given { OnOk result
            (self.new.ledger.given ≡ self.old.ledger.given ++ submitted file ticket ∷ []) }
        ensures left { length self.new.ledger.pending ≤ length self.old.ledger.pending + 2 }
        ensures err { OnErr result ((self.new.ledger.given ≡ self.old.ledger.given)
            × (length self.new.ledger.pending ≡ length self.old.ledger.pending)) }
    {
        self.ledger.submit(file, ticket)
    }

    fn next(&mut self) -> Result<Option<Completion<A>>, AllocError>
        ensures answer { IfOk result (λ answer. option_map event_of answer
            ≡ pending_answer self.old.ledger (next_place self.old.order self.old.ledger.pending)) }
        ensures ok { OnOk result (self.new ≡ record {
          ledger = ledger_answered self.old.ledger
              (next_place self.old.order self.old.ledger.pending);
          order = self.old.order;
        }) }
        ensures unchanged { OnErr result (self.new ≡ self.old) }
        ensures err { OnErr result ((self.new.ledger.given ≡ self.old.ledger.given)
            × (length self.new.ledger.pending ≡ length self.old.ledger.pending)) }
        ensures files { self.new.ledger.files ≡ self.old.ledger.files }
        ensures given { IfOk result (λ answer. (item : HistoryItem)
            × IsItemOfAnswer self.old.ledger.files self.old.ledger.given answer item
            × (self.new.ledger.given ≡ self.old.ledger.given ++ item ∷ [])) }
        ensures none { IfOk result (λ answer.
            IsNone answer ↔ (length self.old.ledger.pending ≡ 0)) }
        ensures fewer { IfOk result (λ answer. IfSome answer (λ _.
            length self.new.ledger.pending + 1 ≡ length self.old.ledger.pending)) }
        ensures as_many { IfOk result (λ answer. IsNone answer
            → length self.new.ledger.pending ≡ length self.old.ledger.pending) }
    {
        let place = place_in(self.order, &self.ledger);
        self.ledger.answer(place)
    }
}
