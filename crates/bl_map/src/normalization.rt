//! The normal map of regions, by a sweep over the addresses where kinds change.
ghost use Rattle.std.specs.Prelude.{◌≡◌, ◌≢◌, ℕ, ◌*◌, ◌<◌, ◌≤◌, All, length, max, IfOk};
ghost use Rattle.bl_map.specs.Kinds.{kind_number};
ghost use Rattle.bl_map.specs.NormalMap.{IsNormalMap, region_holds, kind_at};
ghost use Rattle.bl_map.specs.Kinds.{number_or_zero};
ghost use Rattle.bl_map.specs.Faults.{HasAllowedEnd};

use crate::kind::Kind;
use crate::limits::MAX_REGION_END;
use crate::region::Region;
use std::alloc::{AllocError, Allocator};

/// A kind's number, 0 for none.
fn known_number(kind: Option<Kind>) -> u32
    ensures { result ≡ number_or_zero kind }
{
    match kind {
        None => 0,
        Some(kind) => kind.number(),
    }
}

/// The one of greater number.
fn greater(known: Option<Kind>, kind: Kind) -> Option<Kind>
    ensures { number_or_zero result ≡ max (kind_number kind) (number_or_zero known) }
{
    if kind.number() <= known_number(known) {
        return known;
    }
    Some(kind)
}

/// The greatest kind of the regions that hold an address.
pub fn greatest_kind(regions: &[Region], a: u64) -> Option<Kind>
    ensures { number_or_zero result ≡ kind_at regions.now a }
{
    let mut greatest = None;
    for region in regions {
        if region.holds(a) {
            greatest = greater(greatest, region.kind);
        }
    }
    greatest
}

/// The number of that kind, 0 where no region holds the address.
pub fn kind_number_at(regions: &[Region], a: u64) -> u32
    ensures { result ≡ kind_at regions.now a }
{
    known_number(greatest_kind(regions, a))
}

/// An address up to `limit` before which the region holds all addresses from `at` on, or none.
fn change_in(region: &Region, at: u64, limit: u64) -> u64
    requires low { HasAllowedEnd region.now }
    requires ahead { at < limit }
    ensures ahead { at < result }
    ensures within { result ≤ limit }
    ensures same { (a : ℕ) → at ≤ a → a < result → region_holds region.now a
        ≡ region_holds region.now at }
{
    if at < region.base {
        return limit.min(region.base);
    }
    if at < region.base + region.length {
        return limit.min(region.base + region.length);
    }
    limit
}

/// An address before which all addresses from `at` on have one kind.
fn change_after(regions: &[Region], at: u64) -> u64
    requires low { All HasAllowedEnd regions.now }
    requires ahead { at < MAX_REGION_END }
    ensures ahead { at < result }
    ensures within { result ≤ MAX_REGION_END }
    ensures same { (a : ℕ) → at ≤ a → a < result → kind_at regions.now a ≡ kind_at regions.now at }
{
    let mut next = MAX_REGION_END;
    for region in regions {
        next = change_in(region, at, next);
    }
    next
}

/// Where the addresses from `at` on that have one kind end.
pub fn run_end(regions: &[Region], at: u64) -> u64
    requires low { All HasAllowedEnd regions.now }
    requires ahead { at < MAX_REGION_END }
    ensures ahead { at < result }
    ensures within { result ≤ MAX_REGION_END }
    ensures same { (a : ℕ) → at ≤ a → a < result → kind_at regions.now a ≡ kind_at regions.now at }
    ensures other { result < MAX_REGION_END → kind_at regions.now result ≢ kind_at regions.now at }
{
    let number = known_number(greatest_kind(regions, at));
    let mut end = change_after(regions, at);
    while end < MAX_REGION_END {
        if known_number(greatest_kind(regions, end)) != number {
            return end;
        }
        end = change_after(regions, end);
    }
    end
}

/// The normal map of regions.
pub fn normal_map<A: Allocator>(alloc: A, regions: &[Region]) -> Result<Vec<Region, A>, AllocError>
    requires low { All HasAllowedEnd regions.now }
    ensures normal { IfOk result (λ runs. IsNormalMap regions.now runs.items) }
    ensures few { IfOk result (λ runs. length runs.items ≤ 2 * length regions.now) }
{
    let mut runs = Vec::new(alloc);
    let mut at = 0;
    while at < MAX_REGION_END {
        let end = run_end(regions, at);
        if let Some(kind) = greatest_kind(regions, at) {
            runs.push(Region {
                base: at,
                length: end - at,
                kind,
            })?;
        }
        at = end;
    }
    Ok(runs)
}
