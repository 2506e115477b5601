//! Frames of memory, of which those are kept that were written to.
ghost use Rattle.std.specs.Prelude.{◌≡◌, ◌+◌, ◌*◌, ◌%◌, ◌/◌, ◌<◌, ◌≤◌, ◌^◌, [], length, true};
ghost use Rattle.std.specs.Prelude.{IfSome};
ghost use Rattle.std.specs.Prelude.{Some};
ghost use Rattle.bl_mem.specs.FrameState.{slot_read};
ghost use Rattle.bl_mem.specs.SparseFrames.{frame_numbered, frame_byte, AreBytesAt, AreLentBytes};
ghost use Rattle.bl_mem.specs.internal.FrameSlots.{AreTogether};

use crate::frame_state::{FRAME_SIZE, FrameState};
use std::alloc::Allocator;
use std::marker::Model;

mod room;
mod sharing;
mod writing;

/// The bytes of a frame.
const WIDTH: usize = 4096;

/// The frames of a memory.
///
/// A frame gets its slot by the first write to it, so that the slots lie in the order of these
/// writes, and no byte is put down before it is written. Room is asked for as one request for all
/// frames of a gap, and nothing is written into it then. Two frames, of which one is a copy of the
/// other, may share a slot until one of them is written or cleared.
#[derive(Drop)]
pub struct SparseFrames<A: Allocator> {
    fill: u8,
    table: Vec<FrameState, A>,
    kept: Vec<u8, A>,
    /// How many frames have room and no slot of their own.
    owed: usize,
}

impl<A: Allocator> Model for SparseFrames<A> {
    ghost use Rattle.std.specs.Prelude.{vec_len, vec_capacity};
    ghost use Rattle.bl_mem.specs.SparseFrames.{SparseFramesFacts};
    ghost use Rattle.bl_mem.specs.internal.FrameSlots.{AreSoundSlots};

    ghost Value = { SparseFramesFacts };

    ghost view = { λ frames. record {
      fill = frames.fill;
      table = frames.table.items;
      kept = frames.kept.items;
    } };

    ghost invariant = { λ frames. AreSoundSlots frames.table.items (vec_len frames.kept) frames.owed
        (vec_capacity frames.kept) };
}

impl<A: Allocator + Copy> SparseFrames<A> {
    /// No frame has room, and all bytes are `fill`.
    pub fn new(alloc: A, fill: u8) -> SparseFrames<A>
        ensures { result ≡ record { fill = fill; table = []; kept = [] } }
    {
        SparseFrames {
            fill,
            table: Vec::new(alloc),
            kept: Vec::new(alloc),
            owed: 0,
        }
    }

    /// The frame of a number.
    fn frame(&self, number: u64) -> FrameState
        ensures { result ≡ frame_numbered self.now number }
    {
        if number < self.table.len() as u64 {
            self.table[number as usize]
        } else {
            FrameState::Bare
        }
    }

    /// Where the byte of an address stands whose frame is kept.
    fn start(&self, at: u64, slot: u32) -> usize
        requires { slot_read (frame_numbered self.now (at / 4096)) ≡ Some slot }
        ensures exact { result ≡ 4096 * slot + at % 4096 }
        ensures inside { 4096 * slot + 4096 ≤ length self.now.kept }
        ensures few { length self.now.kept ≤ 2 ^ 44 }
    {
        // For the proof: a slot's bytes are kept, and there are few slots.
        let _owed = self.owed;
        WIDTH * slot as usize + (at % FRAME_SIZE) as usize
    }

    /// Reads bytes of one frame.
    pub fn read(&self, at: u64, out: &mut [u8])
        requires one { at % 4096 + length out.old ≤ 4096 }
        ensures { AreBytesAt (frame_byte self.now) at out.new }
    {
        match self.frame(at / FRAME_SIZE) {
            FrameState::Bare => out.fill(self.fill),
            FrameState::Plain(value) => out.fill(value),
            FrameState::Wiped(_) => out.fill(0),
            FrameState::Kept(slot)
            | FrameState::Lent { slot, .. }
            | FrameState::Borrowed { slot, .. } => {
                let start = self.start(at, slot);
                out.copy_from_slice(&self.kept[start..start + out.len()]);
            }
        }
    }

    /// Whether the slots of the frames from `number` on follow one another from `slot` on, for
    /// `count` bytes.
    fn are_together(&self, number: u64, slot: u32, count: usize) -> bool
        requires small { number ≤ 2 ^ 60 }
        requires few { count ≤ 2 ^ 60 }
        ensures { result ≡ true → AreTogether self.now number slot count }
    {
        let mut index = 0;
        while FRAME_SIZE * index < count as u64 {
            match self.frame(number + index).slot_read() {
                Some(next) => {
                    if next as u64 != slot as u64 + index {
                        return false;
                    }
                }
                None => return false,
            }
            index += 1;
        }
        true
    }

    /// Lends bytes if they are kept and lie together.
    pub fn lend(&self, at: u64, count: usize) -> Option<&[u8]>
        requires { at + count < 2 ^ 64 }
        ensures { IfSome result (λ part. AreLentBytes self.now at count part.now) }
    {
        let place = (at % FRAME_SIZE) as usize;
        if let Some(slot) = self.frame(at / FRAME_SIZE).slot_read() {
            let start = self.start(at, slot);
            if count <= self.kept.len() - start
                && self.are_together(at / FRAME_SIZE, slot, place + count)
            {
                return Some(&self.kept[start..start + count]);
            }
        }
        None
    }
}
