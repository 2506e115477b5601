//! Tickets: the names of pieces.

/// Names a piece: the attempt's number, the file's place in its entry (the kernel 0), the piece's
/// index in the file. All count from 0.
#[derive(Clone, Copy, Debug, PartialEq, Eq)]
pub struct Ticket {
    pub attempt: u32,
    pub file: u32,
    pub piece: u32,
}
