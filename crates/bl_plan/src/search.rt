//! The search for a permitted address. It goes from one blocked stretch to the next, never from
//! byte to byte.
ghost use Rattle.std.specs.Prelude.{ℕ, ◌≤◌, MatchBool};
ghost use Rattle.bl_mem.specs.Least.{IsLeast, IsGreatest};
ghost use Rattle.bl_plan.specs.Permitted.{IsAtSide};
ghost use Rattle.bl_plan.specs.internal.FreeBytes.{IsPermittedIn, CanSearch, Finds};

use crate::blocked_stretch::{avoided_stretch, blocked_stretch, taken_stretch};
use crate::part::{Side, Window};
use crate::rounding::{round_down, round_up};
use bl_map::{FIRST_USABLE, Machine, USABLE_LIMIT};
use std::alloc::Allocator;
use std::ops::Range;

/// Where a usable range that is not above `high` ends at the latest.
fn end_of_room<A: Allocator>(machine: &Machine<A>, high: u64) -> u64
    ensures high { result ≤ high }
    ensures size { result ≤ machine.now.size }
    ensures below { result ≤ USABLE_LIMIT }
    ensures greatest { (n : ℕ) → n ≤ high → n ≤ machine.now.size → n ≤ USABLE_LIMIT → n ≤ result }
{
    high.min(machine.size()).min(USABLE_LIMIT)
}

/// The least permitted address.
fn least_place<A: Allocator>(
    machine: &Machine<A>,
    taken: &[Range<u64>],
    length: u64,
    window: Window,
) -> Option<u64>
    requires { CanSearch taken.now length window }
    ensures { Finds (IsPermittedIn machine.now taken.now length window) IsLeast result }
{
    let end = end_of_room(machine, window.high);
    if end < length {
        return None;
    }
    let last = end - length;
    let mut at = round_up(window.low.max(FIRST_USABLE), window.align)?;
    while at <= last {
        let Some(stretch) = blocked_stretch(machine, taken, at, at + length) else {
            return Some(at);
        };
        at = round_up(stretch.end, window.align)?;
    }
    None
}

/// The greatest permitted address.
fn greatest_place<A: Allocator>(
    machine: &Machine<A>,
    taken: &[Range<u64>],
    length: u64,
    window: Window,
) -> Option<u64>
    requires { CanSearch taken.now length window }
    ensures { Finds (IsPermittedIn machine.now taken.now length window) IsGreatest result }
{
    let first = window.low.max(FIRST_USABLE);
    let end = end_of_room(machine, window.high);
    if end < length {
        return None;
    }
    let mut at = round_down(end - length, window.align);
    while first <= at {
        let Some(stretch) = blocked_stretch(machine, taken, at, at + length) else {
            return Some(at);
        };
        if stretch.start < length {
            return None;
        }
        at = round_down(stretch.start - length, window.align);
    }
    None
}

/// The permitted address at this side.
pub fn place_at_side<A: Allocator>(
    machine: &Machine<A>,
    taken: &[Range<u64>],
    length: u64,
    window: Window,
    side: Side,
) -> Option<u64>
    requires { CanSearch taken.now length window }
    ensures { Finds (IsPermittedIn machine.now taken.now length window) (IsAtSide side) result }
{
    match side {
        Side::Lowest => least_place(machine, taken, length, window),
        Side::Highest => greatest_place(machine, taken, length, window),
    }
}

/// Whether `at` is a permitted address.
pub fn is_permitted<A: Allocator>(
    machine: &Machine<A>,
    taken: &[Range<u64>],
    at: u64,
    length: u64,
    window: Window,
) -> bool
    requires { CanSearch taken.now length window }
    ensures { MatchBool result (IsPermittedIn machine.now taken.now length window at)
        (¬ IsPermittedIn machine.now taken.now length window at) }
{
    if at % window.align != 0 {
        return false;
    }
    if at < window.low {
        return false;
    }
    if window.high < length {
        return false;
    }
    if window.high - length < at {
        return false;
    }
    if !machine.is_usable(at..at + length) {
        return false;
    }
    if let Some(_) = avoided_stretch(machine, at, at + length) {
        return false;
    }
    match taken_stretch(taken, at, at + length) {
        None => true,
        Some(_) => false,
    }
}
