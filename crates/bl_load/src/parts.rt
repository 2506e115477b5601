//! The parts of an entry, at their places.
ghost use Rattle.std.specs.Prelude.{All, IfOk};
ghost use Rattle.bl_load.specs.internal.Contents.{IsPlacedAmong, ArePartsAt};

use crate::checked_entry::CheckedEntry;
use crate::loadable_kernel::LoadableKernel;
use crate::plan::PlannedPart;
use bl_mem::ByteView;
use bl_plan::Place;
use std::alloc::{AllocError, Allocator};

/// The parts at these places, in this order.
pub fn parts_at<A: Allocator + Copy, V: ByteView, K: LoadableKernel>(
    alloc: A,
    entry: &CheckedEntry<'_, A, V>,
    kernel: &K,
    places: &[Place],
    sorted: &[Place],
) -> Result<Vec<PlannedPart<A>, A>, AllocError>
    requires { All (IsPlacedAmong entry.now (K.reading kernel.now) places.now) sorted.now }
    ensures { IfOk result (λ parts. ArePartsAt entry.now (K.reading kernel.now) places.now
        sorted.now parts.items) }
{
    let mut parts = Vec::with_capacity(alloc, sorted.len())?;
    for place in sorted {
        let content = kernel.content(alloc, entry, places, place)?;
        parts.push(PlannedPart {
            place: *place,
            content,
        })?;
    }
    Ok(parts)
}
