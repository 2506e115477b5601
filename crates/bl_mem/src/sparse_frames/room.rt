//! Frames get room.
ghost use Rattle.std.specs.Prelude.{◌≡◌, ◌<◌, ◌≤◌, length, OnOk, IfOk};
ghost use Rattle.bl_mem.specs.SparseFrames.{FramesHaveRoom};
ghost use Rattle.bl_mem.specs.internal.FrameRoom.{OnlyGainsRoom, HasRoomUpTo};

use super::{SparseFrames, WIDTH};
use crate::frame_room::give_room;
use crate::frame_state::FrameState;
use std::alloc::{AllocError, Allocator};

/// The bytes of as many frames as a slot's number can tell apart, which are 2^32.
const MAX_KEPT: usize = 17592186044416;

impl<A: Allocator + Copy> SparseFrames<A> {
    /// Has an entry for each frame below `end`.
    fn reach(&mut self, end: u64) -> Result<(), AllocError>
        ensures kept { OnlyGainsRoom self.old self.new }
        ensures made { OnOk result (end ≤ length self.new.table) }
    {
        if (self.table.len() as u64) < end {
            self.table.resize(end as usize, FrameState::Bare)?;
        }
        Ok(())
    }

    /// Gives room to the frames from `first` on and below `end`, by one request.
    fn open(&mut self, first: u64, end: u64) -> Result<(), AllocError>
        requires forward { first ≤ end }
        requires inside { end ≤ length self.old.table }
        ensures kept { OnlyGainsRoom self.old self.new }
        ensures made { OnOk result (FramesHaveRoom self.new first end) }
        ensures size { length self.new.table ≡ length self.old.table }
    {
        let more = (end - first) as usize;
        if more > (MAX_KEPT - self.kept.len()) / WIDTH - self.owed {
            return Err(AllocError);
        }
        self.kept.reserve_exact((self.owed + more) * WIDTH)?;
        self.owed += give_room(&mut self.table, first as usize, end as usize, self.fill);
        Ok(())
    }

    /// The end of the frames without room from `first` on, up to `end`.
    fn gap_end(&self, first: u64, end: u64) -> u64
        requires { first ≤ end }
        ensures from { first ≤ result }
        ensures within { result ≤ end }
    {
        let mut at = first;
        while at < end && !self.frame(at).has_room() {
            at += 1;
        }
        at
    }

    /// Gives room to a frame, or to all of a gap that begins at it, and answers where to go on.
    fn hold_next(&mut self, at: u64, end: u64) -> Result<u64, AllocError>
        requires before { at < end }
        requires inside { end ≤ length self.old.table }
        ensures kept { OnlyGainsRoom self.old self.new }
        ensures size { length self.new.table ≡ length self.old.table }
        ensures made { IfOk result (HasRoomUpTo self.new at end) }
    {
        if self.frame(at).has_room() {
            return Ok(at + 1);
        }
        let gap_end = self.gap_end(at + 1, end);
        self.open(at, gap_end)?;
        Ok(gap_end)
    }

    /// Gives room to the frames from `first` on and below `end`. A frame that has it keeps it, and
    /// nothing is asked for where all have it.
    pub fn hold(&mut self, first: u64, end: u64) -> Result<(), AllocError>
        requires { first ≤ end }
        ensures kept { OnlyGainsRoom self.old self.new }
        ensures made { OnOk result (FramesHaveRoom self.new first end) }
    {
        self.reach(end)?;
        let mut at = first;
        while at < end {
            at = self.hold_next(at, end)?;
        }
        Ok(())
    }
}
