//! What C is told of a session, as plain records.

/// A piece that is awaited: the entry, by its index in the menu; the attempt, the file's place in
/// the entry and the piece, which name the piece in an event; and how many bytes it has.
#[repr(C)]
#[derive(Clone, Copy)]
pub struct RequestRecord {
    pub entry: u32,
    pub attempt: u32,
    pub place: u32,
    pub piece: u32,
    pub length: u32,
}
