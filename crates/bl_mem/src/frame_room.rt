//! Room for frames.
ghost use Rattle.std.specs.Prelude.{◌≡◌, ◌≤◌, ◌<◌, ◌+◌, length, vec_len};
ghost use Rattle.bl_mem.specs.Memory.{overwrite};
ghost use Rattle.bl_mem.specs.internal.FrameSlots.{AreGivenRoom};

use crate::frame_state::FrameState;
use std::alloc::Allocator;

/// Notes that a frame has room, and answers 1 if it had none, and else 0.
fn open_frame<A: Allocator>(table: &mut Vec<FrameState, A>, at: usize, fill: u8) -> usize
    requires { at < vec_len table.old }
    ensures { AreGivenRoom table.old.items table.new.items at (at + 1) fill result }
{
    if table[at].has_room() {
        return 0;
    }
    table[at] = FrameState::Plain(fill);
    1
}

/// Notes that the frames from `first` on and below `end` have room, and answers how many had none.
pub fn give_room<A: Allocator>(
    table: &mut Vec<FrameState, A>,
    first: usize,
    end: usize,
    fill: u8,
) -> usize
    requires forward { first ≤ end }
    requires inside { end ≤ vec_len table.old }
    ensures { AreGivenRoom table.old.items table.new.items first end fill result }
{
    let mut opened = 0;
    let mut at = first;
    while at < end {
        opened += open_frame(table, at, fill);
        at += 1;
    }
    opened
}

/// Puts a part over the bytes of a frame, from a place on.
pub fn put_over(frame: &mut [u8; 4096], place: usize, part: &[u8])
    requires { place + length part.now ≤ 4096 }
    ensures { frame.new ≡ overwrite frame.old place part.now }
{
    frame[place..place + part.len()].copy_from_slice(part);
}
