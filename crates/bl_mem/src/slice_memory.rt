//! Memory in a slice that the caller keeps.
ghost use Rattle.std.specs.Prelude.{◌≡◌, ◌+◌, ◌-◌, ◌≤◌, ◌++◌, length, replicate, slice_range};
ghost use Rattle.bl_mem.specs.Memory.{memory_from};
ghost use Rattle.bl_mem.specs.internal.SliceMemoryWrites.{IsPutInSlice};

use crate::memory::PhysMem;
use std::alloc::{AllocError, Allocator};
use std::ops::Range;

/// A machine's memory from a base address on, in a slice of the caller's: a guest's memory that a
/// hypervisor has mapped, with base 0, or what a boot manager has of the machine that it runs on.
///
/// The slice's first byte is the one at the base. From there on each address has room, and no call
/// takes memory. Nothing below the base is touched: it has no room, and reads as 0. So a base above
/// 0 is to be a multiple of 4096 that no usable region of the machine and no pool lies below, or an
/// entry whose part should lie there is answered with want of memory by `reserve`.
#[derive(Drop)]
pub struct SliceMemory<'a> {
    base: u32,
    held: &'a mut [u8],
}

impl<'a> SliceMemory<'a> {
    /// The slice as the memory from address 0 on.
    pub fn new(held: &'a mut [u8]) -> SliceMemory<'a>
        ensures base { result.base ≡ 0 }
        ensures lender { result.held.ghost_name ≡ held.entry.ghost_name }
        ensures bytes { result.held.now ≡ held.old }
    {
        SliceMemory::from_base(0, held)
    }

    /// The slice as the memory from address `base` on, below 4 GiB.
    pub fn from_base(base: u32, held: &'a mut [u8]) -> SliceMemory<'a>
        ensures base { result.base ≡ base }
        ensures lender { result.held.ghost_name ≡ held.entry.ghost_name }
        ensures bytes { result.held.now ≡ held.old }
    {
        SliceMemory { base, held }
    }

    /// Where the byte of an address stands in the slice.
    fn offset(&self, at: u64) -> usize
        requires { self.now.base ≤ at }
        ensures { result ≡ at - self.now.base }
    {
        (at - self.base as u64) as usize
    }

    /// Reads as many zeros as are told, and the slice's first bytes.
    fn read_from_below(&self, zeros: usize, out: &mut [u8])
        requires short { zeros ≤ length out.old }
        requires inside { length out.old - zeros ≤ length self.now.held.now }
        ensures { out.new ≡ replicate zeros 0
            ++ slice_range self.now.held.now 0 (length out.old - zeros) }
    {
        let (low, high) = out.split_at_mut(zeros);
        low.fill(0);
        high.copy_from_slice(&self.held[..high.len()]);
    }

    /// Puts the part into the slice.
    fn write_slice(&mut self, offset: usize, part: &[u8])
        requires { offset + length part.now ≤ length self.old.held.now }
        ensures { IsPutInSlice self.old self.new offset part.now }
    {
        let end = offset + part.len();
        self.held[offset..end].copy_from_slice(part);
    }

    /// Copies `count` bytes within the slice.
    #[tactic(auto, using(crate::proofs::Overwrites::copied_within))]
    fn copy_slice(&mut self, from: usize, to: usize, count: usize)
        requires source { from + count ≤ length self.old.held.now }
        requires inside { to + count ≤ length self.old.held.now }
        ensures { IsPutInSlice self.old self.new to
            (slice_range self.old.held.now from (from + count)) }
    {
        self.held.copy_within(from..from + count, to);
    }

    /// Clears `count` bytes of the slice.
    fn clear(&mut self, offset: usize, count: usize)
        requires { offset + count ≤ length self.old.held.now }
        ensures { IsPutInSlice self.old self.new offset (replicate count 0) }
    {
        let end = offset + count;
        self.held[offset..end].fill(0);
    }

    /// Puts as many zeros as are told, and the slice's first bytes, `count` bytes in all.
    fn copy_from_below(&mut self, zeros: usize, to: usize, count: usize)
        requires short { zeros ≤ count }
        requires inside { to + count ≤ length self.old.held.now }
        ensures { IsPutInSlice self.old self.new to
            (replicate zeros 0 ++ slice_range self.old.held.now 0 (count - zeros)) }
    {
        // first what is read, which the zeros may lie on
        self.copy_slice(0, to + zeros, count - zeros);
        self.clear(to, zeros);
    }
}

impl PhysMem for SliceMemory<'_> {
    ghost bytes = { λ memory. memory_from memory.base memory.held.now };

    ghost room = { λ memory a. memory.base ≤ a };

    ghost lender = { λ memory. memory.held.ghost_name };

    fn size(&self) -> u64 {
        self.base as u64 + self.held.len() as u64
    }

    fn read(&self, at: u64, out: &mut [u8]) {
        let base = self.base as u64;
        if at >= base {
            let held = &self.held[self.offset(at)..];
            out.copy_from_slice(&held[..out.len()]);
        } else {
            let zeros = (base - at).min(out.len() as u64);
            self.read_from_below(zeros as usize, out);
        }
    }

    fn lend(&self, at: u64, count: usize) -> Option<&[u8]> {
        if at < self.base as u64 {
            return None;
        }
        let from = self.offset(at);
        Some(&self.held[from..from + count])
    }

    fn reserve(&mut self, ranges: &[Range<u64>]) -> Result<(), AllocError> {
        for range in ranges {
            // an empty range needs no room, wherever it lies
            if range.start < range.end && range.start < self.base as u64 {
                return Err(AllocError);
            }
        }
        Ok(())
    }

    fn write(&mut self, at: u64, part: &[u8]) {
        if part.is_empty() {
            return;
        }
        self.write_slice(self.offset(at), part);
    }

    fn copy(&mut self, from: u64, to: u64, count: usize) {
        if count == 0 {
            return;
        }
        let target = self.offset(to);
        let base = self.base as u64;
        if from >= base {
            self.copy_slice(self.offset(from), target, count);
        } else {
            let zeros = (base - from).min(count as u64);
            self.copy_from_below(zeros as usize, target, count);
        }
    }

    fn zero(&mut self, range: Range<u64>) {
        if range.start == range.end {
            return;
        }
        self.clear(self.offset(range.start), (range.end - range.start) as usize);
    }
}
