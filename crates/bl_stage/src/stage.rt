//! An entry's files, staged in frames of the pool.
use crate::cells::Cells;
use crate::view::FrameView;
use bl_map::frames_of;
use bl_mem::PhysMem;
use std::alloc::Allocator;
use std::marker::Model;
use std::ops::Range;

mod beginning;
mod evacuating;
mod putting;

pub use putting::Put;

/// An entry's files, whose bytes lie in frames of the machine's pool, or will. Files go by their
/// place in the list of sizes, from 0 on, and a file's pieces of 4096 bytes likewise.
///
/// All tables are made when the stage is begun; no later call takes memory.
#[derive(Drop)]
pub struct Stage<A: Allocator> {
    base: u64,
    pool: Range<u64>,
    sizes: Vec<u64, A>,
    starts: Vec<u64, A>,
    frames: Vec<u64, A>,
    came: Vec<bool, A>,
    cells: Cells<A>,
    waiting: usize,
}

impl<A: Allocator> Model for Stage<A> {
    ghost use Rattle.bl_stage.specs.Staged.{Staging};
    ghost use Rattle.bl_stage.specs.internal.StageTables.{KeepsTables};

    ghost Value = { Staging };

    ghost view = { λ s. record {
      pool = s.pool;
      sizes = s.sizes.items;
      frames = s.frames.items;
      came = s.came.items;
    } };

    ghost invariant = { λ s. KeepsTables s.base s.pool s.sizes.items s.starts.items s.frames.items
        s.came.items s.cells s.waiting };
}

impl<A: Allocator> Stage<A> {
    ghost use Rattle.std.specs.Prelude.{◌≡◌, ◌<◌, ◌↔◌, IsTrue, length, slice_index};
    ghost use Rattle.bl_stage.specs.Staged.{staged, staged_file, frames_of_file, AreStaged};
    ghost use Rattle.bl_stage.specs.Staged.{AllCame, HasPool, AreInside};
    ghost use Rattle.bl_stage.specs.Pieces.{is_missing};

    /// Whether each piece of each file came.
    pub fn complete(&self) -> bool
        ensures exact { IsTrue result ↔ AllCame self.now }
    {
        self.waiting == 0
    }

    /// For the proof: each file has its frames, in the pool, each of them one file's alone. Nothing
    /// is done.
    pub fn are_staged(&self)
        ensures { AreStaged self.now }
    {
        let _ = &self.frames;
    }

    /// The addresses of the pool.
    pub fn pool(&self) -> Range<u64>
        ensures { result ≡ self.now.pool }
    {
        self.pool.start..self.pool.end
    }

    /// How many files there are.
    pub fn files(&self) -> usize
        ensures { result ≡ length self.now.sizes }
    {
        self.sizes.len()
    }

    /// The size in bytes of a file.
    pub fn size_of(&self, file: usize) -> u64
        requires { file < length self.now.sizes }
        ensures { result ≡ slice_index self.now.sizes file }
    {
        self.sizes[file]
    }

    /// Whether there is such a file and piece, and the piece did not come.
    pub fn is_missing(&self, file: u32, index: u32) -> bool
        ensures { result ≡ is_missing self.now file index }
    {
        if file as usize >= self.sizes.len() {
            return false;
        }
        if index as u64 >= frames_of(self.sizes[file as usize]) {
            return false;
        }
        !self.came[(self.starts[file as usize] + index as u64) as usize]
    }

    /// A file, to be read where it lies.
    pub fn view<'a, M: PhysMem>(&'a self, memory: &'a M, file: u32) -> FrameView<'a, M>
        requires file { file < length self.now.sizes }
        requires complete { AllCame self.now }
        requires inside { HasPool (M.bytes memory.now) self.now.pool }
        ensures { staged (M.bytes result.memory.now) result.frames.now result.size
            ≡ staged_file (M.bytes memory.now) self.now file }
    {
        // For the proof: the file has its frames, in the pool.
        self.are_staged();
        self.lies_in(memory, file as usize)
    }

    /// A file where it lies, whether it is complete or not.
    pub(crate) fn lies_in<'a, M: PhysMem>(&'a self, memory: &'a M, file: usize) -> FrameView<'a, M>
        requires file { file < length self.now.sizes }
        requires inside { AreInside (frames_of_file self.now file) (length (M.bytes memory.now)) }
        ensures bytes { staged (M.bytes result.memory.now) result.frames.now result.size
            ≡ staged_file (M.bytes memory.now) self.now file }
        ensures memory { M.bytes result.memory.now ≡ M.bytes memory.now }
    {
        let size = self.sizes[file];
        let first = self.starts[file];
        FrameView {
            memory,
            frames: &self.frames[first as usize..(first + frames_of(size)) as usize],
            size,
        }
    }
}
