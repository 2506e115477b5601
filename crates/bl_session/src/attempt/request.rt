//! What is asked for: a piece, by its ticket.

use bl_store::Ticket;

/// A piece that an attempt awaits: the index of its file in the menu, its ticket, and how many
/// bytes it has.
#[derive(Clone, Copy, Debug, PartialEq, Eq)]
pub struct Request {
    pub file: u32,
    pub ticket: Ticket,
    pub len: u32,
}
