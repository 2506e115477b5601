//! Whether the pool has frames enough beside the parts.
ghost use Rattle.std.specs.Prelude.{◌≡◌, ◌≤◌, ◌<◌, ◌+◌, ◌*◌, ◌^◌, ◌↔◌, IfSome, IsNone, length};
ghost use Rattle.bl_map.specs.internal.MetFrames.{AreFramesMet};
ghost use Rattle.bl_map.specs.PoolFrames as spec;

use crate::limits::FRAME_SIZE;
use std::ops::Range;

/// How many frames a length of bytes needs.
pub fn frames_of(length: u64) -> u64
    ensures { result ≡ spec.frames_of length }
{
    length / FRAME_SIZE + if length % FRAME_SIZE == 0 { 0 } else { 1 }
}

/// A length of bytes, at most 2^64 - 4096, rounded up to whole frames, in bytes.
pub fn round_up_to_frames(length: u64) -> u64
    requires small { length + 4095 < 2 ^ 64 }
    ensures { result ≡ spec.round_up_to_frames length }
{
    frames_of(length) * FRAME_SIZE
}

/// How many frames of a pool files of these lengths in bytes take, each in frames of its own, an
/// empty one none; `None` if they are 2^64 or more.
pub fn frames_for(sizes: &[u64]) -> Option<u64>
    ensures none { IsNone result ↔ (2 ^ 64 ≤ spec.frames_for sizes.now) }
    ensures some { IfSome result (λ all. all ≡ spec.frames_for sizes.now) }
{
    let mut all: u64 = 0;
    for size in sizes {
        all = all.checked_add(frames_of(*size))?;
    }
    Some(all)
}

/// How many whole frames a pool has.
pub fn frames_in(pool: &Range<u64>) -> u64
    requires { pool.now.start ≤ pool.now.end }
    ensures { result ≡ spec.frames_in pool.now }
{
    (pool.end - pool.start) / FRAME_SIZE
}

/// The frames of a pool that a range meets, by their numbers from 0 on. A range of no byte meets
/// none.
fn frames_met(pool: &Range<u64>, range: &Range<u64>) -> Range<u64>
    requires pool { pool.now.start ≤ pool.now.end }
    requires range { range.now.start ≤ range.now.end }
    ensures { AreFramesMet pool.now range.now result }
{
    let frames = frames_in(pool);
    let first = (range.start.saturating_sub(pool.start) / FRAME_SIZE).min(frames);
    if range.start == range.end {
        return first..first;
    }
    let behind = frames_of(range.end.saturating_sub(pool.start)).min(frames);
    first..behind
}

/// How many frames of a pool meet none of these ranges. One byte of a range meets a frame; a range
/// of no byte meets none. The ranges ascend, so that one pass over them is enough, however many
/// frames there are.
pub fn open_frames(pool: &Range<u64>, ranges: &[Range<u64>]) -> u64
    requires forward { pool.now.start ≤ pool.now.end }
    requires ascending { spec.AreAscending ranges.now }
    ensures { result ≡ spec.open_frames pool.now ranges.now }
{
    let mut open = 0;
    let mut next = 0;
    for range in ranges {
        let met = frames_met(pool, range);
        open += met.start.saturating_sub(next);
        next = next.max(met.end);
    }
    open + (frames_in(pool) - next)
}
