//! A piece is put into its frame.
ghost use Rattle.std.specs.Prelude.{◌≡◌, ◌≢◌, ℕ, ◌+◌, ◌*◌, ◌<◌, ◌≤◌, IfSome, length, slice_index};
ghost use Rattle.bl_mem.specs.Memory.{overwrite, HasRoom, KeepsSizeAndRoom};
ghost use Rattle.bl_stage.specs.Staged.{staged_file, AreStaged, HasPool};
ghost use Rattle.bl_stage.specs.Pieces.{put_answer, stage_with};
ghost use Rattle.bl_stage.specs.internal.StageTables.{slot_of_piece};
ghost use Rattle.bl_stage.specs.PieceStates.{piece_states, piece_states_after_put};
ghost use Rattle.bl_stage.specs.Ranges.{IsSameOutside};

use crate::stage::Stage;
use bl_map::{FRAME_SIZE, frames_of};
use bl_mem::PhysMem;
use std::alloc::Allocator;

/// What became of a piece.
#[derive(Clone, Copy, Debug, PartialEq, Eq)]
pub enum Put {
    /// It was stored.
    Stored,
    /// That piece came already. Nothing changed, whatever its bytes are.
    Repeated,
    /// There is no such file or piece, or the piece has another length. Nothing changed.
    Strange,
}

impl<A: Allocator> Stage<A> {
    /// The place of a piece of this length in the list of all frames, if it is a piece of a file.
    fn slot_of(&self, file: u32, index: u32, len: usize) -> Option<usize>
        ensures value { result ≡ slot_of_piece self.now file index len }
        ensures within { IfSome result (λ slot. slot < length self.now.frames) }
        ensures short { IfSome result (λ _. len ≤ 4096) }
    {
        if file as usize >= self.sizes.len() {
            return None;
        }
        let size = self.sizes[file as usize];
        if index as u64 >= frames_of(size) {
            return None;
        }
        if len as u64 != (size - FRAME_SIZE * index as u64).min(FRAME_SIZE) {
            return None;
        }
        Some((self.starts[file as usize] + index as u64) as usize)
    }

    /// The address of a frame of the list of all.
    fn address_of(&self, slot: usize) -> u64
        requires { slot < length self.now.frames }
        ensures is { result ≡ 4096 * slice_index self.now.frames slot }
        ensures low { self.now.pool.start ≤ result }
        ensures high { result + 4096 ≤ self.now.pool.end }
    {
        FRAME_SIZE * self.frames[slot]
    }

    /// Takes piece `index` of a file, and stores the first of right length that comes. A piece
    /// has 4096 bytes, a file's last one what is left. It takes no memory.
    ///
    /// - `Stored`: the file has the piece's bytes at their place; nothing else of any file changed.
    /// - `Repeated`: that piece came already; nothing changed, whatever the bytes are.
    /// - `Strange`: there is no such file or piece, or its length is another; nothing changed.
    pub fn put<M: PhysMem>(&mut self, memory: &mut M, file: u32, index: u32, bytes: &[u8]) -> Put
        requires inside { HasPool (M.bytes memory.old) self.old.pool }
        requires room { HasRoom (M.room memory.old) self.old.pool.start self.old.pool.end }
        ensures answer { result ≡ put_answer self.old file index (length bytes.now) }
        ensures stored { result ≡ Put.Stored → self.new ≡ stage_with self.old file index }
        ensures in_file { result ≡ Put.Stored
            → staged_file (M.bytes memory.new) self.new file
            ≡ overwrite (staged_file (M.bytes memory.old) self.old file) (4096 * index) bytes.now }
        ensures in_others { result ≡ Put.Stored
            → (other : ℕ) → other < length self.old.sizes → other ≢ file
            → staged_file (M.bytes memory.new) self.new other
            ≡ staged_file (M.bytes memory.old) self.old other }
        ensures piece_states { result ≡ Put.Stored
            → piece_states (M.bytes memory.new) self.new
            ≡ piece_states_after_put (M.bytes memory.old) self.old file index bytes.now }
        ensures unchanged { result ≢ Put.Stored
            → (self.new ≡ self.old) × (M.bytes memory.new ≡ M.bytes memory.old) }
        ensures staged { AreStaged self.new }
        ensures outside { IsSameOutside self.old.pool (M.bytes memory.old) (M.bytes memory.new) }
        ensures kept { KeepsSizeAndRoom M.lender M.bytes M.room memory.old memory.new }
    {
        let Some(slot) = self.slot_of(file, index, bytes.len()) else {
            return Put::Strange;
        };
        if self.came[slot] {
            return Put::Repeated;
        }
        let at = self.address_of(slot);
        memory.write(at, bytes);
        self.came[slot] = true;
        self.waiting -= 1;
        Put::Stored
    }
}
