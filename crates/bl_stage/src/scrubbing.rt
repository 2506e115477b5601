//! Zeros in the pool.
ghost use Rattle.std.specs.Prelude.{◌≡◌, ℕ, ◌<◌, ◌≤◌, slice_index};
ghost use Rattle.bl_mem.specs.Memory.{HasRoom, KeepsSizeAndRoom};
ghost use Rattle.bl_stage.specs.Ranges.{is_in_ranges, scrubbed_byte};
ghost use Rattle.bl_stage.specs.Staged.{HasPool};

use bl_map::Machine;
use bl_mem::PhysMem;
use std::alloc::Allocator;
use std::ops::Range;

/// Whether one of the ranges has the address.
fn is_kept(keep: &[Range<u64>], at: u64) -> bool
    ensures { result ≡ is_in_ranges keep.now at }
{
    for range in keep {
        if range.start <= at && at < range.end {
            return true;
        }
    }
    false
}

/// The first address above `at` where a range starts or ends, but at most `end`.
fn next_edge(keep: &[Range<u64>], at: u64, end: u64) -> u64
    requires { at < end }
    ensures above { at < result }
    ensures within { result ≤ end }
    ensures same { (a : ℕ) → at ≤ a → a < result
        → is_in_ranges keep.now a ≡ is_in_ranges keep.now at }
{
    let mut edge = end;
    for range in keep {
        if at < range.start {
            edge = edge.min(range.start);
        } else if at < range.end {
            edge = edge.min(range.end);
        }
    }
    edge
}

/// Clears to 0 each byte of the machine's pool that lies in none of the ranges to keep, and
/// changes no other byte. The ranges may lie anywhere, overlap or have no byte. It takes no
/// memory and needs no stage.
pub fn scrub<A: Allocator, M: PhysMem>(machine: &Machine<A>, memory: &mut M, keep: &[Range<u64>])
    requires inside { HasPool (M.bytes memory.old) machine.now.pool }
    requires room { HasRoom (M.room memory.old) machine.now.pool.start machine.now.pool.end }
    ensures after { (a : ℕ) → slice_index (M.bytes memory.new) a
        ≡ scrubbed_byte machine.now.pool keep.now (M.bytes memory.old) a }
    ensures kept { KeepsSizeAndRoom M.lender M.bytes M.room memory.old memory.new }
{
    let pool = machine.pool();
    let mut at = pool.start;
    while at < pool.end {
        let edge = next_edge(keep, at, pool.end);
        if !is_kept(keep, at) {
            memory.zero(at..edge);
        }
        at = edge;
    }
}
