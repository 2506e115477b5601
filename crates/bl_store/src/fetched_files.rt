//! Files that were fetched, by their index.
ghost use Rattle.bl_stage.specs.Files.{stored_files};

use crate::stored_files::StoredFiles;
use bl_stage::Fetched;
use std::alloc::Allocator;

impl<A: Allocator> StoredFiles for Vec<Fetched<A>, A> {
    ghost files = { λ fetched. stored_files fetched.items };

    fn size(&self, file: u32) -> Option<u64> {
        match self.get(file as usize) {
            Some(file) => file.size(),
            None => None,
        }
    }

    fn piece(&self, file: u32, index: u32) -> Option<&[u8]> {
        match self.get(file as usize) {
            Some(file) => file.piece(index),
            None => None,
        }
    }
}
