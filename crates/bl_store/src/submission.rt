//! What a store was asked for, and the answer to it.
ghost use Rattle.std.specs.Prelude.{◌≡◌, IfOk};
ghost use Rattle.bl_store.specs.Stores.{answer_to, event_of};

use crate::store::Completion;
use crate::stored_files::StoredFiles;
use crate::ticket::Ticket;
use std::alloc::{AllocError, Allocator};

/// A file of the menu, by its index, was asked for under a ticket.
#[derive(Clone, Copy, Debug, PartialEq, Eq)]
pub struct Submission {
    pub file: u32,
    pub ticket: Ticket,
}

/// The answer to a submission: a copy of the piece, or a fault, if there is no such file or piece.
pub(crate) fn answer<F: StoredFiles, A: Allocator + Copy>(
    alloc: A,
    files: &F,
    submission: &Submission,
) -> Result<Completion<A>, AllocError>
    ensures { IfOk result (λ completion.
        event_of completion ≡ answer_to (F.files files.now) submission.now) }
{
    let Submission { file, ticket } = *submission;
    match files.piece(file, ticket.piece) {
        Some(piece) => Ok(Completion::Piece(ticket, Vec::from_slice(alloc, piece)?)),
        None => Ok(Completion::Fault(ticket)),
    }
}
