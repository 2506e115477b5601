//! A digest of an entry is fed by C.
ghost use Rattle.std.specs.Prelude.{MatchBool};
ghost use Rattle.bl_digest.specs.Ranges.{IsWithinWanted};
ghost use Rattle.c_abi.specs.DigestTold.{FeedsDigest, TellsWanted, wanted_of};

use bl_digest::Digesting;
use c_records::FileRangeRecord;
use std::alloc::Allocator;

/// The status of a digest that was fed more than it wants.
const UNWANTED: u32 = 118;

/// Tells what a digest wants next, and whether it wants something.
pub fn wanted_told<A: Allocator>(digest: &Digesting<A>, told: &mut FileRangeRecord) -> bool
    ensures { TellsWanted (wanted_of digest.now) result told.old told.new }
{
    match digest.wanted() {
        Some(range) => {
            *told = FileRangeRecord {
                file: range.file as u64,
                offset: range.offset,
                length: range.length,
                reserved: 0,
            };
            true
        }
        None => false,
    }
}

/// Whether so many bytes are no more than a digest wants.
fn is_wanted<A: Allocator>(digest: &Digesting<A>, count: usize) -> bool
    ensures { MatchBool result (IsWithinWanted (wanted_of digest.now) count)
        (¬ IsWithinWanted (wanted_of digest.now) count) }
{
    match digest.wanted() {
        Some(range) => count as u64 <= range.length,
        None => count == 0,
    }
}

/// Feeds a digest the next bytes of what it wants, and answers the status.
pub fn feed_told<A: Allocator>(digest: &mut Digesting<A>, bytes: &[u8]) -> u32
    ensures { FeedsDigest digest.old digest.new bytes.now result }
{
    if !is_wanted(digest, bytes.len()) {
        return UNWANTED;
    }
    digest.feed(bytes);
    0
}
