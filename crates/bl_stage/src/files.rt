//! The files of a stage, for what is loaded into the memory that holds them.
ghost use Rattle.bl_stage.specs.Staged.{staged_texts, IsStagedOn};
ghost use Rattle.bl_stage.specs.internal.FileSetLaws.{same_texts};

use crate::stage::Stage;
use bl_mem::{ByteView, FileSet, PhysMem};
use std::alloc::Allocator;

impl<A: Allocator> FileSet for Stage<A> {
    ghost texts = { λ stage bytes. staged_texts bytes stage };

    ghost holds = { λ stage a. IsStagedOn stage a };

    fn len<M: PhysMem>(&self, _memory: &M, file: usize) -> u64 {
        self.size_of(file)
    }

    fn read<M: PhysMem>(&self, memory: &M, file: usize, at: u64, out: &mut [u8]) {
        // For the proof: the file has its frames, in the pool.
        self.are_staged();
        self.lies_in(memory, file).read(at, out);
    }

    fn address<M: PhysMem>(&self, memory: &M, file: usize, at: u64, count: usize) -> Option<u64> {
        // For the proof: the file has its frames, in the pool.
        self.are_staged();
        self.lies_in(memory, file).address(at, count)
    }

    ghost same = { λ stage old new agree. same_texts stage old new agree };
}
