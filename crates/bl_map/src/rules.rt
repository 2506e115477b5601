//! The rules that a machine is accepted by.
ghost use Rattle.std.specs.Prelude.{◌≡◌, ℕ, ◌+◌, ◌<◌, ◌≤◌, All, IfSome, MatchBool, MatchOption};
ghost use Rattle.std.specs.Prelude.{length, slice_get, take};
ghost use Rattle.bl_map.specs.MachineFacts.{AreUnusable, IsPool, IsSize, IsUsableAmong};
ghost use Rattle.bl_map.specs.Faults.{HasAllowedEnd};
ghost use Rattle.bl_map.specs.NormalMap as normal_map;

use crate::kind::Kind;
use crate::limits::{FIRST_USABLE, FRAME_SIZE, MAX_REGION_END, MAX_SIZE, MIN_SIZE, USABLE_LIMIT};
use crate::normalization::{greatest_kind, kind_number_at, run_end};
use crate::region::Region;
use std::ops::Range;

/// Whether this is 1 MiB to 4 GiB in whole frames.
pub fn is_size(size: u64) -> bool
    ensures { MatchBool result (IsSize size) (¬ IsSize size) }
{
    MIN_SIZE <= size && size <= MAX_SIZE && size % FRAME_SIZE == 0
}

/// The first region that ends above 2^52.
pub fn first_high(regions: &[Region]) -> Option<usize>
    ensures { MatchOption result
        (All HasAllowedEnd regions.now)
        (λ i. (i < length regions.now)
        × All HasAllowedEnd (take i regions.now)
        × IfSome (slice_get regions.now i) (λ region. ¬ HasAllowedEnd region)) }
{
    for (i, region) in regions.iter().enumerate() {
        if !region.has_allowed_end() {
            return Some(i);
        }
    }
    None
}

/// Whether each byte from `start` up to `end` is usable in a machine of this size and these
/// regions.
pub fn is_usable_among(regions: &[Region], size: u64, start: u64, end: u64) -> bool
    requires low { All HasAllowedEnd regions.now }
    requires size { size ≤ MAX_SIZE }
    requires forward { start ≤ end }
    ensures { MatchBool result
        ((a : ℕ) → start ≤ a → a < end → IsUsableAmong regions.now size a)
        (¬ ((a : ℕ) → start ≤ a → a < end → IsUsableAmong regions.now size a)) }
{
    if start == end {
        return true;
    }
    if start < FIRST_USABLE || size < end || USABLE_LIMIT < end {
        return false;
    }
    match greatest_kind(regions, start) {
        Some(Kind::Usable) => end <= run_end(regions, start),
        Some(Kind::Reserved | Kind::Acpi | Kind::Nvs | Kind::Bad) | None => false,
    }
}

/// Whether none of the `bytes` bytes from `start` on is usable memory by these regions.
pub fn are_unusable(regions: &[Region], start: u64, bytes: u64) -> bool
    requires low { All HasAllowedEnd regions.now }
    ensures { MatchBool result
        (AreUnusable regions.now start (start + bytes))
        (¬ AreUnusable regions.now start (start + bytes)) }
{
    let end = start.saturating_add(bytes).min(MAX_REGION_END);
    let mut at = start;
    while at < end {
        if kind_number_at(regions, at) == 1 {
            return false;
        }
        at = run_end(regions, at);
    }
    true
}

/// Whether the pool is whole usable frames, perhaps none.
pub fn is_pool(regions: &[Region], size: u64, pool: &Range<u64>) -> bool
    requires low { All HasAllowedEnd regions.now }
    requires size { size ≤ MAX_SIZE }
    ensures { MatchBool result
        (IsPool regions.now size pool.now)
        (¬ IsPool regions.now size pool.now) }
{
    if pool.end < pool.start || pool.start % FRAME_SIZE != 0 || pool.end % FRAME_SIZE != 0 {
        return false;
    }
    is_usable_among(regions, size, pool.start, pool.end)
}

/// Where the run of usable memory ends that holds an address, 0 where there is none.
pub fn usable_end(runs: &[Region], a: u64) -> u64
    requires low { All HasAllowedEnd runs.now }
    ensures { result ≡ normal_map.usable_end runs.now a }
{
    for run in runs {
        if run.kind.number() == 1 && run.holds(a) {
            return run.base + run.length;
        }
    }
    0
}
