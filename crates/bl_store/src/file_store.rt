//! A store over files that were fetched before the boot.
use crate::ledger::Ledger;
use crate::order::{Order, place_in};
use crate::store::{Completion, Store};
use crate::ticket::Ticket;
use bl_stage::Fetched;
use std::alloc::{AllocError, Allocator};
use std::marker::Model;

/// A store over files in memory. It answers each ticket once: with a copy of the piece, or with a
/// fault, if the file is missing, too long or has no such piece.
#[derive(Drop)]
pub struct FileStore<A: Allocator + Copy> {
    ledger: Ledger<Vec<Fetched<A>, A>, A>,
    order: Order,
}

impl<A: Allocator + Copy> Model for FileStore<A> {
    ghost use Rattle.bl_store.specs.Stores.{FileStoreFacts};

    ghost Value = { FileStoreFacts };

    ghost view = { λ s. record {
      files = s.ledger.files;
      order = s.order;
      pending = s.ledger.pending;
      given = s.ledger.given;
    } };
}

impl<A: Allocator + Copy> FileStore<A> {
    ghost use Rattle.std.specs.Prelude.{◌≡◌, []};
    ghost use Rattle.bl_stage.specs.Files.{stored_files};
    ghost use Rattle.bl_store.specs.Faithful.{IsFaithful};

    /// A store of these files, by their index in the menu. Nothing was asked for yet.
    pub fn new(alloc: A, files: Vec<Fetched<A>, A>, order: Order) -> FileStore<A>
        ensures { result ≡ record {
          files = stored_files files.items;
          order = order;
          pending = [];
          given = [];
        } }
    {
        FileStore {
            ledger: Ledger::new(alloc, files),
            order,
        }
    }

    /// For the proof: it answers each ticket once, with the piece that was asked for.
    pub fn faithful(&self)
        ensures { IsFaithful self.now.files self.now.given }
    {
        self.ledger.faithful()
    }

    /// The files, by their index in the menu.
    pub fn fetched(&self) -> &[Fetched<A>]
        ensures { stored_files result.now ≡ self.now.files }
    {
        self.ledger.files()
    }
}

impl<A: Allocator + Copy> Store for FileStore<A> {
    ghost use Rattle.std.specs.Prelude.{◌≡◌, length, Ok, IfOk, OnOk, OnErr, option_map};
    ghost use Rattle.std.specs.Prelude.{slice_index_or};
    ghost use Rattle.bl_stage.specs.Files.{missing, size_of};
    ghost use Rattle.bl_store.specs.Stores.{event_of, next_event, after_submission};
    ghost use Rattle.bl_store.specs.Stores.{after_answer};

    type Alloc = A;

    ghost files = { λ s. s.files };

    ghost given = { λ s. s.given };

    ghost left = { λ s. length s.pending };

    fn size(&self, file: u32) -> Result<Option<u64>, AllocError>
        ensures { result ≡ Ok (size_of (slice_index_or self.now.files file missing)) }
    {
        Ok(self.ledger.size(file))
    }

    fn left(&self) -> u64 {
        self.ledger.len() as u64
    }

    fn submit(&mut self, file: u32, ticket: Ticket) -> Result<(), AllocError>
        ensures ok { OnOk result (self.new ≡ after_submission self.old (record {
          file = file;
          ticket = ticket;
        })) }
        ensures err { OnErr result (self.new ≡ self.old) }
    {
        self.ledger.submit(file, ticket)
    }

    fn next(&mut self) -> Result<Option<Completion<A>>, AllocError>
        ensures answer { IfOk result (λ answer. option_map event_of answer ≡ next_event self.old) }
        ensures ok { IfOk result (λ answer.
            self.new ≡ after_answer self.old (option_map event_of answer)) }
        ensures err { OnErr result (self.new ≡ self.old) }
    {
        let place = place_in(self.order, &self.ledger);
        self.ledger.answer(place)
    }
}
