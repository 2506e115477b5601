//! Memory in one block.
ghost use Rattle.std.specs.Prelude.{◌≡◌, ℕ, List, replicate, IfOk};

use crate::memory::PhysMem;
use std::alloc::{AllocError, Allocator};
use std::marker::Model;
use std::ops::Range;

/// A machine's memory in one block. Each address has room from the start, so that no call but `new`
/// takes memory. Contracts see the list of its bytes.
#[derive(Drop)]
pub struct Flat<A: Allocator> {
    held: Vec<u8, A>,
}

impl<A: Allocator> Model for Flat<A> {
    ghost Value = { List ℕ };

    ghost view = { λ flat. flat.held.items };
}

impl<A: Allocator> Flat<A> {
    /// `size` bytes of memory, which all are `fill`. They are asked for in one request. From 2^63
    /// bytes on no block can be so large, and the answer is always that memory ran out.
    pub fn new(alloc: A, size: u64, fill: u8) -> Result<Flat<A>, AllocError>
        ensures ok { IfOk result (λ flat. flat ≡ replicate size fill) }
    {
        Ok(Flat {
            held: Vec::from_elem(alloc, fill, size as usize)?,
        })
    }
}

impl<A: Allocator> PhysMem for Flat<A> {
    ghost use Rattle.std.specs.Prelude.{◌≡◌, ◌+◌, ◌≤◌, length, slice_range, IfSome, IsOk, IsSome};

    ghost bytes = { λ flat. flat };

    ghost room = { λ _ _. Unit {0} };

    ghost lender = { λ _. 0 };

    fn size(&self) -> u64 {
        self.held.len() as u64
    }

    fn read(&self, at: u64, out: &mut [u8]) {
        let held = &self.held[at as usize..];
        out.copy_from_slice(&held[..out.len()]);
    }

    fn lend(&self, at: u64, count: usize) -> Option<&[u8]>
        requires { at + count ≤ length self.now }
        ensures exact { IfSome result (λ part. part.now ≡ slice_range self.now at (at + count)) }
        ensures some { IsSome result }
    {
        let held = self.held.as_slice();
        let from = at as usize;
        Some(&held[from..from + count])
    }

    fn reserve(&mut self, _ranges: &[Range<u64>]) -> Result<(), AllocError>
        ensures same { self.new ≡ self.old }
        ensures ok { IsOk result }
    {
        Ok(())
    }

    fn write(&mut self, at: u64, part: &[u8]) {
        let start = at as usize;
        let held = self.held.as_mut_slice();
        let end = start + part.len();
        held[start..end].copy_from_slice(part);
    }

    #[tactic(auto, using(crate::proofs::Overwrites::copied_within))]
    fn copy(&mut self, from: u64, to: u64, count: usize) {
        let start = from as usize;
        self.held.copy_within(start..start + count, to as usize);
    }

    fn zero(&mut self, range: Range<u64>) {
        self.held[range.start as usize..range.end as usize].fill(0);
    }
}
