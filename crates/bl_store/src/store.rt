//! Where pieces come from, and what is answered.
ghost use Rattle.std.specs.Prelude.{◌≡◌, ◌↔◌, ℕ, ◌+◌, ◌≤◌, List, [], ◌∷◌, ◌++◌, IfOk, OnOk, OnErr};
ghost use Rattle.std.specs.Prelude.{IfSome, IsNone, slice_index_or};
ghost use Rattle.bl_stage.specs.Files.{File, missing, size_of};
ghost use Rattle.bl_store.specs.History.{HistoryItem, submitted, IsItemOfAnswer};

use crate::event::Event;
use crate::ticket::Ticket;
use std::alloc::{AllocError, Allocator};

/// An answer to a ticket: a piece, or a fault in its place.
#[derive(Drop)]
pub enum Completion<A: Allocator> {
    Piece(Ticket, Vec<u8, A>),
    Fault(Ticket),
}

impl<A: Allocator> Completion<A> {
    ghost use Rattle.bl_store.specs.Events.{event_facts};
    ghost use Rattle.bl_store.specs.Stores.{event_of};

    /// The event that it is.
    pub fn event(&self) -> Event
        ensures { event_facts result ≡ event_of self.now }
    {
        match self {
            Completion::Piece(ticket, bytes) => Event::Piece(*ticket, bytes.as_slice()),
            Completion::Fault(ticket) => Event::Fault(*ticket),
        }
    }
}

/// Where the pieces of a menu's files come from. Completions may come in any order, repeated, and
/// after their attempt was refused. A store keeps what it was asked and what it answered.
///
/// Want of memory changes nothing.
pub trait Store {
    type Alloc: Allocator;

    /// The files of the menu, by their index. No call changes them.
    ghost files: { Self → List File };

    /// What was asked and answered, in order.
    ghost given: { Self → List HistoryItem };

    /// How many completions are still to come.
    ghost left: { Self → ℕ };

    /// A file's length in bytes; `None` is a missing file.
    fn size(&self, file: u32) -> Result<Option<u64>, AllocError>
        ensures { IfOk result (λ size.
            size ≡ size_of (slice_index_or (files self.now) file missing)) };

    /// How many completions are still to come.
    fn left(&self) -> u64
        ensures { result ≡ left self.now };

    /// Asks for a piece of a file under a ticket. At most two completions more will come.
    fn submit(&mut self, file: u32, ticket: Ticket) -> Result<(), AllocError>
        ensures files { files self.new ≡ files self.old }
        ensures given { OnOk result
            (given self.new ≡ given self.old ++ submitted file ticket ∷ []) }
        ensures left { left self.new ≤ left self.old + 2 }
        ensures err { OnErr result
            ((given self.new ≡ given self.old) × (left self.new ≡ left self.old)) };

    /// The next completion; `None` exactly if none is to come.
    fn next(&mut self) -> Result<Option<Completion<Self::Alloc>>, AllocError>
        ensures files { files self.new ≡ files self.old }
        ensures given { IfOk result (λ answer. (item : HistoryItem)
            × IsItemOfAnswer (files self.old) (given self.old) answer item
            × (given self.new ≡ given self.old ++ item ∷ [])) }
        ensures none { IfOk result (λ answer. IsNone answer ↔ (left self.old ≡ 0)) }
        ensures fewer { IfOk result (λ answer.
            IfSome answer (λ _. left self.new + 1 ≡ left self.old)) }
        ensures as_many { IfOk result (λ answer. IsNone answer → left self.new ≡ left self.old) }
        ensures err { OnErr result
            ((given self.new ≡ given self.old) × (left self.new ≡ left self.old)) };
}
