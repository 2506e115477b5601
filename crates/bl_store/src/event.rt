//! What is told: that a piece came, or a fault in its place.

use crate::ticket::Ticket;

/// What happens in one step: a piece came, or a fault in its place.
#[derive(Clone, Copy, Debug)]
pub enum Event<'a> {
    Piece(Ticket, &'a [u8]),
    Fault(Ticket),
}
