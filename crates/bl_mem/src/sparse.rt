//! Memory of which only those frames are kept that were written to.
ghost use Rattle.std.specs.Prelude.{◌≡◌, ◌+◌, ◌%◌, ◌≤◌, length, replicate, slice_range};
ghost use Rattle.std.specs.Prelude.{true, false};
ghost use Rattle.std.specs.Prelude.{IfOk, OnOk, IsOk};
ghost use Rattle.bl_mem.specs.Memory.{overwrite, HasRoom, KeepsRoom};
ghost use Rattle.bl_mem.specs.SparseFrames.{HasRoomAt};
ghost use Rattle.bl_mem.specs.Sparse.{bytes_of};
ghost use Rattle.bl_mem.specs.internal.SparseWrites.{CanWriteFrame, IsWrittenOver};
ghost use Rattle.bl_mem.specs.internal.SparseWrites.{KeepsBytesAndRoom, AreWholeFrames};

use crate::frame_state::FRAME_SIZE;
use crate::memory::PhysMem;
use crate::sparse_frames::SparseFrames;
use std::alloc::{AllocError, Allocator};
use std::marker::Model;
use std::ops::Range;

/// A machine's memory that keeps only those frames of 4096 bytes which were written to. An address
/// of a frame without room reads as `fill`, so that a machine of 4 GiB costs what is written of it
/// and, once a frame has room, twelve bytes for each frame up to the highest one that has it. A
/// whole frame that is kept and copied may share its bytes with the copy, until one is written or
/// cleared.
///
/// `reserve` gives room to each frame that a range meets, and its bytes read as before. After a
/// refused growth the frames that got room until then keep it. No more than 2^32 frames have room:
/// any more, which is 16 TiB, always is out of memory.
#[derive(Drop)]
pub struct Sparse<A: Allocator> {
    size: u64,
    frames: SparseFrames<A>,
}

impl<A: Allocator> Model for Sparse<A> {
    ghost use Rattle.bl_mem.specs.Sparse.{SparseFacts};

    ghost Value = { SparseFacts };

    ghost view = { λ memory. record {
      size = memory.size;
      frames = memory.frames;
    } };
}

impl<A: Allocator + Copy> Sparse<A> {
    /// `size` bytes of memory, which all read as `fill`. No address has room, and no memory is
    /// taken.
    pub fn new(alloc: A, size: u64, fill: u8) -> Result<Sparse<A>, AllocError>
        ensures ok { IsOk result }
        ensures exact { IfOk result
            (λ memory. bytes_of memory.frames memory.size ≡ replicate size fill) }
    {
        Ok(Sparse {
            size,
            frames: SparseFrames::new(alloc, fill),
        })
    }

    /// Gives room to each frame that has an address from `start` on and below `end`.
    fn hold(&mut self, start: u64, end: u64) -> Result<(), AllocError>
        ensures kept { KeepsBytesAndRoom self.old self.new }
        ensures made { OnOk result (HasRoom (HasRoomAt self.new.frames) start end) }
    {
        if end <= start {
            return Ok(());
        }
        self.frames
            .hold(start / FRAME_SIZE, (end - 1) / FRAME_SIZE + 1)
    }

    /// Reads bytes of one frame.
    fn read_frame(&self, at: u64, out: &mut [u8])
        requires inside { at + length out.old ≤ self.now.size }
        requires one { at % 4096 + length out.old ≤ 4096 }
        ensures { out.new ≡ slice_range (bytes_of self.now.frames self.now.size)
            at (at + length out.old) }
    {
        self.frames.read(at, out);
    }

    /// Writes bytes of one frame.
    fn write_frame(&mut self, at: u64, part: &[u8])
        requires { CanWriteFrame self.old at (length part.now) }
        ensures { IsWrittenOver self.old self.new at part.now }
    {
        self.frames.write(at, part);
    }

    /// Has a frame read as another one does, if no copy is needed for it. The answer is whether it
    /// does; if not, nothing changed.
    fn share_frame(&mut self, from: u64, to: u64) -> bool
        requires { AreWholeFrames self.old from to }
        ensures shared { result ≡ true → IsWrittenOver self.old self.new to
            (slice_range (bytes_of self.old.frames self.old.size) from (from + 4096)) }
        ensures same { result ≡ false → self.new ≡ self.old }
    {
        self.frames.share(from / FRAME_SIZE, to / FRAME_SIZE)
    }

    /// Copies bytes by a buffer on the stack, for which it is never inlined.
    #[inline(never)]
    fn copy_by_buffer(&mut self, from: u64, to: u64, count: usize)
        requires few { count ≤ 4096 }
        requires source { from + count ≤ length (bytes_of self.old.frames self.old.size) }
        requires inside { to + count ≤ length (bytes_of self.old.frames self.old.size) }
        requires room { HasRoom (HasRoomAt self.old.frames) to (to + count) }
        ensures after { bytes_of self.new.frames self.new.size
            ≡ overwrite (bytes_of self.old.frames self.old.size) to
            (slice_range (bytes_of self.old.frames self.old.size) from (from + count)) }
        ensures size { length (bytes_of self.new.frames self.new.size)
            ≡ length (bytes_of self.old.frames self.old.size) }
        ensures room { KeepsRoom (HasRoomAt self.old.frames) (HasRoomAt self.new.frames) }
    {
        let mut buffer = [0; 4096];
        let part = &mut buffer[..count];
        self.read(from, part);
        self.write(to, part);
    }

    /// Clears `count` bytes of one frame.
    fn zero_frame(&mut self, at: u64, count: usize)
        requires { CanWriteFrame self.old at count }
        ensures { IsWrittenOver self.old self.new at (replicate count 0) }
    {
        self.frames.zero(at, count);
    }
}

#[tactic(auto, using(crate::proofs::ValueLemmas::bytes_of_length))]
impl<A: Allocator + Copy> PhysMem for Sparse<A> {
    ghost bytes = { λ memory. bytes_of memory.frames memory.size };

    ghost room = { λ memory. HasRoomAt memory.frames };

    ghost lender = { λ _. 0 };

    fn size(&self) -> u64 {
        self.size
    }

    fn read(&self, at: u64, out: &mut [u8]) {
        // For the proof: the size is below 2^64.
        let _size = self.size;
        let mut done = 0;
        while done < out.len() {
            let here = at + done as u64;
            let next = (out.len() - done).min((FRAME_SIZE - here % FRAME_SIZE) as usize);
            self.read_frame(here, &mut out[done..done + next]);
            done += next;
        }
    }

    fn lend(&self, at: u64, count: usize) -> Option<&[u8]> {
        // For the proof: the size is below 2^64.
        let _size = self.size;
        self.frames.lend(at, count)
    }

    fn reserve(&mut self, ranges: &[Range<u64>]) -> Result<(), AllocError> {
        for range in ranges {
            self.hold(range.start, range.end)?;
        }
        Ok(())
    }

    fn write(&mut self, at: u64, part: &[u8]) {
        // For the proof: the size is below 2^64.
        let _size = self.size;
        let mut done = 0;
        while done < part.len() {
            let here = at + done as u64;
            let next = (part.len() - done).min((FRAME_SIZE - here % FRAME_SIZE) as usize);
            self.write_frame(here, &part[done..done + next]);
            done += next;
        }
    }

    fn copy(&mut self, from: u64, to: u64, count: usize) {
        let are_frames = from % FRAME_SIZE == 0 && to % FRAME_SIZE == 0 && count == 4096;
        if are_frames && self.share_frame(from, to) {
            return;
        }
        self.copy_by_buffer(from, to, count);
    }

    fn zero(&mut self, range: Range<u64>) {
        let mut at = range.start;
        while at < range.end {
            let next = (range.end - at).min(FRAME_SIZE - at % FRAME_SIZE);
            self.zero_frame(at, next as usize);
            at += next;
        }
    }
}
