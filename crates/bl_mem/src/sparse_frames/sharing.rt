//! Frames that share a slot.
ghost use Rattle.std.specs.Prelude.{◌≡◌, true, false};
ghost use Rattle.bl_mem.specs.SparseFrames.{IsShared};
ghost use Rattle.bl_mem.specs.internal.FrameSlots.{ArePair, IsUnshared};

use super::SparseFrames;
use crate::frame_state::FrameState;
use std::alloc::Allocator;

impl<A: Allocator + Copy> SparseFrames<A> {
    /// Has a frame share no slot, so that it can be written: the other one keeps the slot. What the
    /// frame reads as is not said then, if it shared one; it has room as before.
    pub(super) fn unshare(&mut self, number: u64)
        ensures { IsUnshared self.old self.new number }
    {
        // For the proof: who shares a slot with whom.
        let _owed = self.owed;
        match self.frame(number) {
            FrameState::Bare | FrameState::Plain(_) | FrameState::Kept(_) | FrameState::Wiped(_) =>
                {}
            FrameState::Lent { slot, to } => self.leave(number, to, slot),
            FrameState::Borrowed { slot, from } => self.leave(number, from, slot),
        }
    }

    /// Has a frame leave its slot to the one with which it shares it.
    fn leave(&mut self, number: u64, other: u32, slot: u32)
        requires { ArePair self.old number other slot }
        ensures { IsUnshared self.old self.new number }
    {
        self.table[other as usize] = FrameState::Kept(slot);
        self.table[number as usize] = FrameState::Plain(0);
    }

    /// Has a frame read as another one does, without a copy, if it has room and no slot, so that
    /// its bytes are all one value, and the other is kept in a slot that it shares with none. The
    /// copy owns the slot then, and lends it. One that was cleared has its slot alone too, but is
    /// not kept in it. The answer is whether it does; if not, nothing changed.
    pub fn share(&mut self, from: u64, to: u64) -> bool
        ensures shared { result ≡ true → IsShared self.old self.new from to }
        ensures same { result ≡ false → self.new ≡ self.old }
    {
        if from > u32::MAX as u64 || to > u32::MAX as u64 {
            return false;
        }
        let FrameState::Kept(slot) = self.frame(from) else {
            return false;
        };
        let FrameState::Plain(_) = self.frame(to) else {
            return false;
        };
        self.table[to as usize] = FrameState::Lent {
            slot,
            to: from as u32,
        };
        self.table[from as usize] = FrameState::Borrowed {
            slot,
            from: to as u32,
        };
        true
    }
}
