//! A cursor over the pieces of an attempt: nothing looks for a missing one from the first on.
ghost use Rattle.bl_session.specs.attempt.AwaitedTickets.{first_ticket};
ghost use Rattle.bl_session.specs.internal.attempt.Cursors.{NoneMissingBelow};
ghost use Rattle.bl_session.specs.internal.attempt.MissingPieces.{CanSearchFrom, FindsMissing};

use crate::attempt::missing_pieces::missing_from;
use bl_stage::Stage;
use bl_store::Ticket;
use std::alloc::Allocator;

/// A place among the pieces of an attempt, below which none is missing.
#[derive(Clone, Copy)]
pub struct Cursor {
    pub file: u32,
    pub piece: u32,
}

/// The ticket of the first piece that did not come.
pub fn first_missing<A: Allocator>(attempt: u32, stage: &Stage<A>, cursor: Cursor) -> Option<Ticket>
    requires { CanSearchFrom stage.now cursor.file cursor.piece }
    ensures { FindsMissing stage.now (first_ticket attempt 0) result }
{
    missing_from(attempt, stage, cursor.file, cursor.piece as usize)
}

/// The cursor once more pieces came: at the first one that did not, or where it was if each came.
pub fn advanced<A: Allocator>(stage: &Stage<A>, cursor: Cursor) -> Cursor
    requires { CanSearchFrom stage.now cursor.file cursor.piece }
    ensures { NoneMissingBelow stage.now result.file result.piece }
{
    match first_missing(0, stage, cursor) {
        Some(found) => Cursor {
            file: found.file,
            piece: found.piece,
        },
        None => cursor,
    }
}
