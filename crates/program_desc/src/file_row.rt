//! A file of the description.
use crate::owned_text::Text;
use bl_mem::Bytes;
use std::alloc::Allocator;

/// A file that stands in the description, with its bytes.
#[derive(Drop)]
pub struct FileRow<A: Allocator> {
    pub name: Text<A>,
    pub bytes: Bytes<A>,
}
