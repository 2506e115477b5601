//! A range of a file.

/// The `length` bytes from `offset` on of the entry's file of this number, the kernel 0.
#[derive(Clone, Copy, Debug, PartialEq, Eq)]
pub struct FileRange {
    pub file: usize,
    pub offset: u64,
    pub length: u64,
}
