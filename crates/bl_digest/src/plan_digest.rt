//! The digests of a plan's image, with its files at hand.
ghost use Rattle.std.specs.Prelude.{◌≡◌, ◌<◌, ◌≤◌, length, map, All, Some, IfOk};
ghost use Rattle.bl_load.specs.Loadable.{lengths_of};
ghost use Rattle.bl_load.specs.PlanContents.{handover_by};
ghost use Rattle.bl_digest.specs.Digests.{digests_of};
ghost use Rattle.bl_digest.specs.PlanInSteps.{CanBeLoadedFrom};
ghost use Rattle.bl_digest.specs.Ranges.{ranges_of, wanted_after};
ghost use Rattle.bl_digest.specs.internal.Coming.{length_of_ranges, LiesInFiles, AreFirstOf};

use crate::digesting::Digesting;
use crate::digests::Digests;
use crate::file_range::FileRange;
use bl_load::Plan;
use bl_mem::ByteView;
use std::alloc::{AllocError, Allocator};

/// How many bytes a view is asked to lend at once at most: what is lent is hashed twice, and is
/// still at hand the second time.
const MAX_LENT: u64 = 65536;

/// How many bytes are copied at once at most where a view lends none.
const MAX_COPIED: usize = 16384;

/// Feeds the first bytes of the range that is wanted of these files, one at least.
fn feed_some<A: Allocator, V: ByteView>(
    digesting: &mut Digesting<A>,
    files: &[V],
    range: FileRange,
    buffer: &mut [u8],
)
    requires room { 1 ≤ length buffer.old }
    requires wanted { wanted_after (ranges_of digesting.old.plan.steps)
        (length digesting.old.fed) ≡ Some range }
    requires lie { All (LiesInFiles (map V.bytes files.now)) (ranges_of digesting.old.plan.steps) }
    requires first { AreFirstOf (map V.bytes files.now) (ranges_of digesting.old.plan.steps)
        digesting.old.fed }
    ensures plan { digesting.new.plan ≡ digesting.old.plan }
    ensures more { length digesting.old.fed < length digesting.new.fed }
    ensures within { length digesting.new.fed
        ≤ length_of_ranges (ranges_of digesting.old.plan.steps) }
    ensures first { AreFirstOf (map V.bytes files.now) (ranges_of digesting.old.plan.steps)
        digesting.new.fed }
{
    let view = &files[range.file];
    // For the proof: a file has fewer than 2^64 bytes, so no offset wraps.
    let _length = view.len();
    let count = range.length.min(MAX_LENT) as usize;
    match view.lend(range.offset, count) {
        Some(bytes) => digesting.feed(bytes),
        None => {
            let count = count.min(buffer.len());
            let part = &mut buffer[..count];
            view.read(range.offset, part);
            digesting.feed(part);
        }
    }
}

/// The digests of the image that is written for a plan, and of its parts, out of these files: it
/// loads nothing. What the plan reads of a file is lent by the file's view, or else copied through
/// a buffer of 16384 bytes. Memory is taken for that, for the steps and for a row for each part. It
/// fails only where that is refused.
pub fn digest_plan<A: Allocator + Copy, B: Allocator, V: ByteView>(
    alloc: A,
    plan: &Plan<B>,
    files: &[V],
) -> Result<Digests<A>, AllocError>
    requires { CanBeLoadedFrom (lengths_of (map V.bytes files.now)) plan.now }
    ensures { IfOk result (λ d. d ≡ digests_of (handover_by (map V.bytes files.now) plan.now)) }
{
    let mut digesting = Digesting::begin(alloc, plan)?;
    let mut buffer = Vec::from_elem(alloc, 0u8, MAX_COPIED)?;
    while let Some(range) = digesting.wanted() {
        feed_some(&mut digesting, files, range, &mut buffer);
    }
    Ok(digesting.end())
}
