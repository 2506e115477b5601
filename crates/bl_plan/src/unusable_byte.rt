//! Which byte of a range is the first on which no part may lie.
ghost use Rattle.std.specs.Prelude.{◌<◌, ◌≤◌, All, MatchOption};
ghost use Rattle.bl_mem.specs.Least.{IsLeast};
ghost use Rattle.bl_mem.specs.Memory.{IsIn};
ghost use Rattle.bl_map.specs.MachineFacts.{AllUsable, IsUsable};
ghost use Rattle.bl_plan.specs.Permitted.{AreUntaken, AreUnavoided};
ghost use Rattle.bl_plan.specs.Unusable.{IsUnusableFrom, IsUnplaceableFrom};

use bl_map::Machine;
use std::alloc::Allocator;
use std::ops::Range;

/// The first from `start` on, which is at `low` or after it, and before `high`: by halves, so that
/// the number of bytes does not count.
#[tactic(auto, using(crate::proofs::UnusableLemmas::low_is_first))]
fn first_between<A: Allocator>(machine: &Machine<A>, start: u64, low: u64, high: u64) -> u64
    requires from { start ≤ low }
    requires between { low < high }
    requires before { AllUsable machine.now start low }
    requires within { ¬ AllUsable machine.now start high }
    ensures first { IsLeast (IsUnusableFrom machine.now start) result }
    ensures below { result < high }
{
    if high - low == 1 {
        return low;
    }
    let middle = low + (high - low) / 2;
    if machine.is_usable(start..middle) {
        first_between(machine, start, middle, high)
    } else {
        first_between(machine, start, low, middle)
    }
}

/// The first address of the range that is not usable, or none if each is, as `Machine::is_usable`
/// says it. `Machine::kind_at` tells what it is for; one of kind `Usable` lies below 4096, or at or
/// above the machine's size or 0xFFFFF000. So it tells why a machine is refused for this pool, by
/// the machine of the same regions with an empty pool.
#[tactic(auto, using(crate::proofs::UnusableLemmas::has_a_byte))]
pub fn first_unusable<A: Allocator>(machine: &Machine<A>, range: Range<u64>) -> Option<u64>
    requires forward { range.start ≤ range.end }
    ensures { MatchOption result
        (AllUsable machine.now range.start range.end)
        (λ a. (a < range.end) × IsLeast (IsUnusableFrom machine.now range.start) a) }
{
    if machine.is_usable(range.start..range.end) {
        return None;
    }
    Some(first_between(machine, range.start, range.start, range.end))
}

/// Where the usable bytes from `start` on end, at `end` at the latest.
fn usable_before<A: Allocator>(machine: &Machine<A>, start: u64, end: u64) -> u64
    requires forward { start ≤ end }
    ensures from { start ≤ result }
    ensures within { result ≤ end }
    ensures before { AllUsable machine.now start result }
    ensures behind { result < end → ¬ IsUsable machine.now result }
{
    match first_unusable(machine, start..end) {
        Some(a) => a,
        None => end,
    }
}

/// The first address from `start` on that lies in one of the ranges, `end` if there is none before
/// it.
fn first_in(ranges: &[Range<u64>], start: u64, end: u64) -> u64
    requires forward { start ≤ end }
    ensures from { start ≤ result }
    ensures within { result ≤ end }
    ensures before { AreUntaken ranges.now start result }
    ensures behind { result < end → ¬ All (λ range. ¬ IsIn range result) ranges.now }
{
    let mut first = end;
    for range in ranges {
        let at = range.start.max(start);
        if at < range.end && at < first {
            first = at;
        }
    }
    first
}

/// The first address from `start` on that is avoided, `end` if there is none before it.
fn first_avoided<A: Allocator>(machine: &Machine<A>, start: u64, end: u64) -> u64
    requires forward { start ≤ end }
    ensures from { start ≤ result }
    ensures within { result ≤ end }
    ensures before { AreUnavoided machine.now start result }
    ensures behind { result < end
        → ¬ All (λ range. ¬ IsIn range result) machine.now.firmware.avoided }
{
    first_in(machine.avoided(), start, end)
}

/// The first address of the range that is not usable, as `first_unusable` tells it, or is avoided;
/// none if no byte of the range is either.
pub fn first_unplaceable<A: Allocator>(machine: &Machine<A>, range: Range<u64>) -> Option<u64>
    requires forward { range.start ≤ range.end }
    ensures { MatchOption result
        (AllUsable machine.now range.start range.end
        × AreUnavoided machine.now range.start range.end)
        (λ a. (a < range.end) × IsLeast (IsUnplaceableFrom machine.now range.start) a) }
{
    let usable = usable_before(machine, range.start, range.end);
    let first = first_avoided(machine, range.start, usable);
    if first < range.end { Some(first) } else { None }
}
