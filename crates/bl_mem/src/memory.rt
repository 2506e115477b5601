//! What a loader asks of a machine's memory.
ghost use Rattle.std.specs.Prelude.{◌≡◌, ℕ, ◌+◌, ◌-◌, ◌≤◌, List, length, replicate, slice_range};
ghost use Rattle.std.specs.Prelude.{All, OnOk, IfSome};
ghost use Rattle.bl_mem.specs.Memory.{overwrite, HasRoom, AllHaveRoom, KeepsSizeAndRoom};

use std::alloc::AllocError;
use std::ops::Range;

/// A machine's memory, one byte at each physical address from 0 up to its size.
///
/// Each address can be read, but only one with room can be written. Room comes by `reserve`, the
/// one call that may run out of memory. What an address without room reads as is for the type to
/// say. No call changes whose memory it is or its size, or takes room away (`KeepsSizeAndRoom`).
pub trait PhysMem {
    /// The byte that is read at each address.
    ghost bytes: { Self → List ℕ };

    /// The addresses that have room.
    ghost room: { Self → ℕ → Type 0 };

    /// Whose memory it is: for one that borrows its bytes, the borrow's ghost name, so that what
    /// the lender holds at the end is known; a constant for one that owns them.
    ghost lender: { Self → ℕ };

    /// The size in bytes.
    fn size(&self) -> u64
        ensures { result ≡ length (bytes self.now) };

    /// Reads from address `at` on, as many bytes as `out` holds.
    fn read(&self, at: u64, out: &mut [u8])
        requires { at + length out.old ≤ length (bytes self.now) }
        ensures { out.new ≡ slice_range (bytes self.now) at (at + length out.old) };

    /// Lends the `count` bytes from address `at` on, so that whoever only hands them on copies
    /// none. A memory in which they don't lie together lends nothing; `read` gives them always.
    fn lend(&self, at: u64, count: usize) -> Option<&[u8]>
        requires { at + count ≤ length (bytes self.now) }
        ensures { IfSome result (λ part. part.now ≡ slice_range (bytes self.now) at (at + count)) }
    {
        None
    }

    /// Gives room to all addresses of the ranges, or answers that memory ran out, perhaps with room
    /// for some of them. No byte changes by it.
    fn reserve(&mut self, ranges: &[Range<u64>]) -> Result<(), AllocError>
        requires forward { All (λ range. range.start ≤ range.end) ranges.now }
        requires inside { All (λ range. range.end ≤ length (bytes self.old)) ranges.now }
        ensures same { bytes self.new ≡ bytes self.old }
        ensures kept { KeepsSizeAndRoom lender bytes room self.old self.new }
        ensures made { OnOk result (AllHaveRoom (room self.new) ranges.now) };

    /// Puts the bytes of `part` at the addresses from `at` on. All other bytes stay.
    fn write(&mut self, at: u64, part: &[u8])
        requires inside { at + length part.now ≤ length (bytes self.old) }
        requires room { HasRoom (room self.old) at (at + length part.now) }
        ensures after { bytes self.new ≡ overwrite (bytes self.old) at part.now }
        ensures kept { KeepsSizeAndRoom lender bytes room self.old self.new };

    /// Copies the `count` bytes from address `from` on, at most 4096, to the addresses from `to`
    /// on. All other bytes stay. A memory that can move bytes by itself writes its own body; this
    /// one has a buffer on the stack, and so is never inlined.
    #[inline(never)]
    fn copy(&mut self, from: u64, to: u64, count: usize)
        requires few { count ≤ 4096 }
        requires source { from + count ≤ length (bytes self.old) }
        requires inside { to + count ≤ length (bytes self.old) }
        requires room { HasRoom (room self.old) to (to + count) }
        ensures after { bytes self.new
            ≡ overwrite (bytes self.old) to (slice_range (bytes self.old) from (from + count)) }
        ensures kept { KeepsSizeAndRoom lender bytes room self.old self.new }
    {
        let mut buffer = [0; 4096];
        let part = &mut buffer[..count];
        self.read(from, part);
        self.write(to, part);
    }

    /// Clears the addresses of the range to 0. All other bytes stay.
    fn zero(&mut self, range: Range<u64>)
        requires forward { range.start ≤ range.end }
        requires inside { range.end ≤ length (bytes self.old) }
        requires room { HasRoom (room self.old) range.start range.end }
        ensures after { bytes self.new
            ≡ overwrite (bytes self.old) range.start (replicate (range.end - range.start) 0) }
        ensures kept { KeepsSizeAndRoom lender bytes room self.old self.new };
}
