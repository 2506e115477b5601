//! Takes the steps of a plan that read no file.
ghost use Rattle.std.specs.Prelude.{◌≡◌, ◌+◌, ◌<◌, ◌≤◌, ◌^◌, ◌++◌, length, drop, replicate, All};
ghost use Rattle.bl_digest.specs.internal.Filling.{TakesUpTo, TakesWhatIsThere, length_of_steps};
ghost use Rattle.bl_digest.specs.internal.Hashing.{total_of};

use crate::file_range::FileRange;
use crate::image_hasher::ImageHasher;
use bl_load::{StepSource, Steps};
use std::alloc::Allocator;

/// How many zeros are taken at once at most.
const MAX_ZEROS: usize = 4096;

/// Where the taking of steps stopped: at this range of a file, which the step before `next` reads;
/// or behind the last step, and then the range is empty.
#[derive(Clone, Copy)]
pub(crate) struct Stop {
    pub(crate) range: FileRange,
    pub(crate) next: usize,
}

/// This range.
fn range_at(file: usize, offset: u64, length: u64) -> FileRange
    ensures range { result ≡ record { file = file; offset = offset; length = length } }

    // For the proof: an offset is a number of 64 bits.
    ensures small { offset < 2 ^ 64 }
{
    FileRange {
        file,
        offset,
        length,
    }
}

/// Takes so many zeros.
fn take_zeros<A: Allocator>(hasher: &mut ImageHasher<A>, count: u64)
    requires { length hasher.old.taken + count ≤ total_of hasher.old.places }
    ensures { hasher.new ≡ record {
      front = hasher.old.front;
      places = hasher.old.places;
      taken = hasher.old.taken ++ replicate count 0;
    } }
{
    let zeros = [0u8; MAX_ZEROS];
    let mut left = count;
    while left > 0 {
        let next = left.min(MAX_ZEROS as u64);
        hasher.take(&zeros[..next as usize]);
        left -= next;
    }
}

/// Takes the bytes of the steps from the one with this number on, up to the first that reads a
/// file.
pub(crate) fn take_steps<A: Allocator>(
    hasher: &mut ImageHasher<A>,
    told: &Steps<A>,
    from: usize,
) -> Stop
    requires room { length hasher.old.taken + length_of_steps (drop from told.now.steps.items)
        ≤ total_of hasher.old.places }
    requires held { All (TakesWhatIsThere (length told.now.own)) told.now.steps.items }
    ensures goes_on { TakesUpTo told.now.own (drop from told.now.steps.items) hasher.old.taken
        hasher.new.taken result.range (drop result.next told.now.steps.items) }
    ensures small { result.range.offset < 2 ^ 64 }
    ensures last { result.range.length ≡ 0 → length told.now.steps.items ≤ result.next }
    ensures same { (hasher.new.front ≡ hasher.old.front) × (hasher.new.places ≡ hasher.old.places) }
{
    let mut at = from;
    while at < told.steps.len() {
        let step = told.steps[at];
        at += 1;
        match step.source {
            StepSource::File { file, offset } => {
                let range = range_at(file, offset, step.length);
                return Stop { range, next: at };
            }
            StepSource::Own { offset } => {
                let own = told.own.as_slice();
                let end = offset + step.length as usize;
                hasher.take(&own[offset..end]);
            }
            StepSource::Zeros => take_zeros(hasher, step.length),
        }
    }
    Stop {
        range: range_at(0, 0, 0),
        next: at,
    }
}
