//! Stretches of bytes that can't be part of a place.
ghost use Rattle.std.specs.Prelude.{◌≡◌, ℕ, ◌<◌, ◌≤◌, length, MatchOption};
ghost use Rattle.std.specs.List.{AllWithin};
ghost use Rattle.bl_map.specs.NormalMap.{kind_at, AreRuns};
ghost use Rattle.bl_map.specs.MachineFacts.{AllUsable};
ghost use Rattle.bl_plan.specs.internal.FreeBytes.{IsBlockedBy, IsFree, IsInNone};
ghost use Rattle.bl_plan.specs.Permitted.{AreUntaken, AreUnavoided};
ghost use Rattle.bl_plan.specs.PlannerFacts.{AreApartRanges};

use bl_map::{FIRST_USABLE, Kind, Machine, Region, USABLE_LIMIT};
use std::alloc::Allocator;
use std::ops::Range;

/// A stretch without memory of kind usable that meets these bytes.
fn unusable_stretch(runs: &[Region], start: u64, end: u64) -> Option<Range<u64>>
    requires runs { AreRuns runs.now }
    requires forward { start < end }
    ensures { MatchOption result ((a : ℕ) → start ≤ a → a < end → kind_at runs.now a ≡ 1)
        (IsBlockedBy (λ a. kind_at runs.now a ≡ 1) start end) }
{
    let mut from = 0;
    for run in runs {
        let Kind::Usable = run.kind else {
            continue;
        };
        if from < run.base && start < run.base && from < end {
            return Some(from..run.base);
        }
        from = run.base + run.length;
    }
    if from < end {
        return Some(from..u64::MAX);
    }
    None
}

/// How many of these ascending ranges end at `start` or below.
fn ended_by(ranges: &[Range<u64>], start: u64) -> usize
    requires { AreApartRanges ranges.now }
    ensures bound { result ≤ length ranges.now }
    ensures before { AllWithin (λ range. range.end ≤ start) ranges.now 0 result }
    ensures behind { AllWithin (λ range. start < range.end) ranges.now result (length ranges.now) }
{
    ranges.partition_point(|range| range.end <= start)
}

/// A taken range that meets these bytes.
pub fn taken_stretch(taken: &[Range<u64>], start: u64, end: u64) -> Option<Range<u64>>
    requires apart { AreApartRanges taken.now }
    ensures { MatchOption result (AreUntaken taken.now start end)
        (IsBlockedBy (IsInNone taken.now) start end) }
{
    let next = ended_by(taken, start);
    if next < taken.len() {
        let range = &taken[next];
        if range.start < end {
            return Some(range.start..range.end);
        }
    }
    None
}

/// One of these ranges, which are in any order and may be empty, that meets these bytes.
fn meeting_range(ranges: &[Range<u64>], start: u64, end: u64) -> Option<Range<u64>>
    ensures { MatchOption result (AreUntaken ranges.now start end)
        (IsBlockedBy (IsInNone ranges.now) start end) }
{
    for range in ranges {
        if range.start < range.end && range.start < end && start < range.end {
            return Some(range.start..range.end);
        }
    }
    None
}

/// An avoided range that meets these bytes.
pub fn avoided_stretch<A: Allocator>(
    machine: &Machine<A>,
    start: u64,
    end: u64,
) -> Option<Range<u64>>
    ensures { MatchOption result (AreUnavoided machine.now start end)
        (IsBlockedBy (IsInNone machine.now.firmware.avoided) start end) }
{
    meeting_range(machine.avoided(), start, end)
}

/// A stretch without free bytes that meets these bytes.
pub fn blocked_stretch<A: Allocator>(
    machine: &Machine<A>,
    taken: &[Range<u64>],
    start: u64,
    end: u64,
) -> Option<Range<u64>>
    requires apart { AreApartRanges taken.now }
    requires forward { start < end }
    requires above { FIRST_USABLE ≤ start }
    requires in_size { end ≤ machine.now.size }
    requires below { end ≤ USABLE_LIMIT }
    ensures { MatchOption result
        (AllUsable machine.now start end × AreUnavoided machine.now start end
        × AreUntaken taken.now start end)
        (IsBlockedBy (IsFree machine.now taken.now) start end) }
{
    if let Some(stretch) = unusable_stretch(machine.normal(), start, end) {
        return Some(stretch);
    }
    if let Some(stretch) = avoided_stretch(machine, start, end) {
        return Some(stretch);
    }
    if let Some(stretch) = taken_stretch(taken, start, end) {
        return Some(stretch);
    }
    None
}
