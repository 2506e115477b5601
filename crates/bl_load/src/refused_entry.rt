//! An entry of a menu that was refused.
use crate::refusal::Refusal;
use std::fmt;

/// An entry of the menu, by its index, and why it was refused.
#[derive(Clone, Copy, Debug, PartialEq, Eq)]
pub struct RefusedEntry {
    pub entry: u32,
    pub refusal: Refusal,
}

/// As `entry 0: not an ELF file`.
impl fmt::Display for RefusedEntry {
    fn fmt<W: fmt::Write>(&self, f: &mut fmt::Formatter<W>) -> fmt::Result {
        let RefusedEntry { entry, refusal } = *self;
        write!(f, "entry {entry}: {refusal}")
    }
}
