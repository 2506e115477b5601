//! The files' frames make way for ranges.
ghost use Rattle.std.specs.Prelude.{◌≡◌, ℕ, ◌<◌, ◌↔◌, length, slice_index, IsErr, IfErr, OnErr};
ghost use Rattle.std.specs.Prelude.{OnOk, false};
ghost use Rattle.bl_mem.specs.Memory.{HasRoom, KeepsSizeAndRoom};
ghost use Rattle.bl_map.specs.PoolFrames as room;
ghost use Rattle.bl_stage.specs.Staged.{staged_file, with_frames, AreStaged, HasPool};
ghost use Rattle.bl_map.specs.PoolFrames.{frames_for};
ghost use Rattle.bl_stage.specs.PieceStates.{piece_states};
ghost use Rattle.bl_stage.specs.Ranges.{meets, IsSameOutside};

use crate::fault::StageFault;
use crate::moves::make_way;
use crate::stage::Stage;
use bl_mem::PhysMem;
use std::alloc::Allocator;
use std::ops::Range;

impl<A: Allocator> Stage<A> {
    /// Makes way for ranges: moves the files' frames that they meet into free ones that they do
    /// not. It takes no memory.
    ///
    /// `NoPool`, exactly if the pool's frames that meet no range are too few for the files; then
    /// nothing changed. Else no file's frame meets a range, one that met none stays where it was,
    /// each file reads as before, and no byte outside the pool changed.
    pub fn evacuate<M: PhysMem>(
        &mut self,
        memory: &mut M,
        ranges: &[Range<u64>],
    ) -> Result<(), StageFault>
        requires inside { HasPool (M.bytes memory.old) self.old.pool }
        requires room { HasRoom (M.room memory.old) self.old.pool.start self.old.pool.end }
        ensures exact { IsErr result
            ↔ (room.open_frames self.old.pool ranges.now < frames_for self.old.sizes) }
        ensures fault { IfErr result (λ fault. fault ≡ StageFault.NoPool) }
        ensures unchanged { OnErr result
            ((self.new ≡ self.old) × (M.bytes memory.new ≡ M.bytes memory.old)) }
        ensures same { self.new ≡ with_frames self.old self.new.frames }
        ensures clear { OnOk result ((k : ℕ) → k < length self.new.frames
            → meets ranges.now (slice_index self.new.frames k) ≡ false) }
        ensures stays { OnOk result ((k : ℕ) → k < length self.old.frames
            → meets ranges.now (slice_index self.old.frames k) ≡ false
            → slice_index self.new.frames k ≡ slice_index self.old.frames k) }
        ensures files { OnOk result ((file : ℕ) → file < length self.old.sizes
            → staged_file (M.bytes memory.new) self.new file
            ≡ staged_file (M.bytes memory.old) self.old file) }
        ensures piece_states { OnOk result (piece_states (M.bytes memory.new) self.new
            ≡ piece_states (M.bytes memory.old) self.old) }
        ensures staged { AreStaged self.new }
        ensures outside { IsSameOutside self.old.pool (M.bytes memory.old) (M.bytes memory.new) }
        ensures kept { KeepsSizeAndRoom M.lender M.bytes M.room memory.old memory.new }
    {
        let made = make_way(
            memory,
            self.base,
            self.frames.as_mut_slice(),
            &mut self.cells,
            ranges,
        );
        if made {
            Ok(())
        } else {
            Err(StageFault::NoPool)
        }
    }
}
