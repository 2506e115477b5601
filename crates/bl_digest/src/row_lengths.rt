//! The lengths of parts.
ghost use Rattle.std.specs.Prelude.{◌≡◌, drop, map};
ghost use Rattle.bl_digest.specs.internal.Hashing.{told_place, first_length};

use crate::part_digest::PartDigest;

/// How many bytes the part of this row has; none if there is no such row.
pub(crate) fn length_at(rows: &[PartDigest], index: usize) -> u64
    ensures { result ≡ first_length (drop index (map told_place rows.now)) }
{
    match rows.get(index) {
        Some(row) => row.place.length,
        None => 0,
    }
}
