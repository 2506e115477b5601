//! Frames are written and cleared.
ghost use Rattle.std.specs.Prelude.{◌≡◌, ◌+◌, ◌*◌, ◌/◌, ◌≤◌, length, true};
ghost use Rattle.std.specs.Prelude.{replicate};
ghost use Rattle.bl_mem.specs.Memory.{overwrite};
ghost use Rattle.bl_mem.specs.FrameState.{has_room};
ghost use Rattle.bl_mem.specs.SparseFrames.{frame_numbered, IsWritten, IsStored};
ghost use Rattle.bl_mem.specs.internal.FrameSlots.{IsKeptIn, IsPutAt, HasRoomAlone, HasSlotAlone};
ghost use Rattle.bl_mem.specs.internal.FrameSlots.{CanAppend, CanWriteAt};

use super::{SparseFrames, WIDTH};
use crate::byte_writer::{put_at, put_bytes};
use crate::frame_room::put_over;
use crate::frame_state::{FRAME_SIZE, FrameState};
use std::alloc::Allocator;

impl<A: Allocator + Copy> SparseFrames<A> {
    /// Puts bytes into the slot that a frame has, which is kept from then on.
    fn rewrite(&mut self, number: u64, slot: u32, place: usize, part: &[u8])
        requires slot { HasSlotAlone (frame_numbered self.old number) slot }
        requires inside { place + length part.now ≤ 4096 }
        ensures after { IsKeptIn self.old self.new number slot }
        ensures bytes { self.new.kept ≡ overwrite self.old.kept (4096 * slot + place) part.now }
        ensures within { 4096 * slot + 4096 ≤ length self.old.kept }
    {
        put_at(&mut self.kept, WIDTH * slot as usize + place, part);
        self.table[number as usize] = FrameState::Kept(slot);
    }

    /// Gives a frame its slot.
    fn append(&mut self, number: u64, part: &[u8])
        requires { CanAppend (frame_numbered self.old number) part.now }
        ensures after { IsKeptIn self.old self.new number (length self.old.kept / 4096) }
        ensures bytes { IsPutAt self.new.kept (length self.old.kept / 4096) part.now }
    {
        let slot = (self.kept.len() / WIDTH) as u32;
        put_bytes(&mut self.kept, part);
        self.owed -= 1;
        self.table[number as usize] = FrameState::Kept(slot);
    }

    /// Keeps a whole frame that shares no slot.
    fn store_alone(&mut self, number: u64, part: &[u8])
        requires frame { HasRoomAlone (frame_numbered self.old number) }
        requires whole { length part.now ≡ 4096 }
        ensures { IsStored self.old self.new number part.now }
    {
        match self.frame(number) {
            FrameState::Bare | FrameState::Lent { .. } | FrameState::Borrowed { .. } => {}
            FrameState::Plain(_) => self.append(number, part),
            FrameState::Kept(slot) => self.rewrite(number, slot, 0, part),
            FrameState::Wiped(slot) => self.rewrite(number, slot, 0, part),
        }
    }

    /// Keeps a whole frame.
    fn store(&mut self, number: u64, part: &[u8])
        requires held { has_room (frame_numbered self.old number) ≡ true }
        requires whole { length part.now ≡ 4096 }
        ensures { IsStored self.old self.new number part.now }
    {
        self.unshare(number);
        self.store_alone(number, part);
    }

    /// Keeps a frame whose bytes stay but for those of a part.
    fn store_over(&mut self, at: u64, part: &[u8])
        requires { CanWriteAt self.old at (length part.now) }
        ensures { IsWritten self.old self.new at part.now }
    {
        let place = at % FRAME_SIZE;
        let mut frame = [0; WIDTH];
        self.read(at - place, &mut frame);
        put_over(&mut frame, place as usize, part);
        self.store(at / FRAME_SIZE, &frame);
    }

    /// Writes bytes of one frame.
    pub fn write(&mut self, at: u64, part: &[u8])
        requires { CanWriteAt self.old at (length part.now) }
        ensures { IsWritten self.old self.new at part.now }
    {
        if part.len() == WIDTH {
            self.store(at / FRAME_SIZE, part);
            return;
        }
        match self.frame(at / FRAME_SIZE) {
            FrameState::Bare => {}
            FrameState::Kept(slot) => self.rewrite(
                at / FRAME_SIZE,
                slot,
                (at % FRAME_SIZE) as usize,
                part,
            ),
            FrameState::Plain(_)
            | FrameState::Wiped(_)
            | FrameState::Lent { .. }
            | FrameState::Borrowed { .. } => self.store_over(at, part),
        }
    }

    /// Clears a whole frame that shares no slot to 0.
    fn clear_alone(&mut self, number: u64)
        requires { HasRoomAlone (frame_numbered self.old number) }
        ensures { IsStored self.old self.new number (replicate 4096 0) }
    {
        let cleared = self.frame(number).cleared();
        self.table[number as usize] = cleared;
    }

    /// Clears a whole frame to 0.
    fn clear(&mut self, number: u64)
        requires held { has_room (frame_numbered self.old number) ≡ true }
        ensures { IsStored self.old self.new number (replicate 4096 0) }
    {
        self.unshare(number);
        self.clear_alone(number);
    }

    /// Clears `count` bytes of one frame to 0.
    pub fn zero(&mut self, at: u64, count: usize)
        requires { CanWriteAt self.old at count }
        ensures { IsWritten self.old self.new at (replicate count 0) }
    {
        if count == WIDTH {
            self.clear(at / FRAME_SIZE);
        } else {
            self.write(at, &[0; WIDTH][..count]);
        }
    }
}
