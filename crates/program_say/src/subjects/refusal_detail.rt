//! The detail of a refusal: what is told of it in lines of their own.
use bl_load::{RefusedEntry, Row};

/// What is told of a refusal in lines of their own.
#[derive(Clone, Copy)]
pub enum RefusalDetail {
    Nothing,

    /// The first part that finds no place. If its address is fixed, the first of its bytes that is
    /// not usable, or is avoided.
    NoPlace { row: Row, unplaceable: Option<u64> },

    /// How many frames of the pool meet no part, if the parts have their places.
    Frames { beside: Option<u64> },
}

/// A refusal with its detail.
#[derive(Clone, Copy)]
pub struct ToldRefusal {
    pub refused: RefusedEntry,
    pub detail: RefusalDetail,
}
