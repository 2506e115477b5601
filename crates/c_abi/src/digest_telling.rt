//! What C is told of digests.
ghost use Rattle.std.specs.Prelude.{◌≡◌};
ghost use Rattle.c_abi.specs.DigestTold as spec;
ghost use Rattle.c_abi.specs.internal.Tellings.{digests_facts, digests_telling};

use bl_digest::{Digesting, ImageDigest, PartDigest};
use c_records::{DigestsRecord, NO_WORDS, PartDigestRecord, place_told};
use std::alloc::Allocator;

fn part_digest_told(part: PartDigest) -> PartDigestRecord
    ensures { result ≡ spec.part_digest_told part }
{
    let sha256 = part.sha256;
    PartDigestRecord {
        place: place_told(part.place),
        sha256,
        reserved: 0,
    }
}

/// Tells the digests of parts in the first records, as many as there is room for.
fn tell_part_digests(digests: &[PartDigest], parts: &mut [PartDigestRecord])
    ensures { parts.new ≡ spec.part_digests_told digests.now parts.old }
{
    for index in 0..digests.len().min(parts.len()) {
        parts[index] = part_digest_told(digests[index]);
    }
}

/// Tells the digests of an image and of its parts.
pub(crate) fn tell_digests(
    image: ImageDigest,
    digests: &[PartDigest],
    told: &mut DigestsRecord,
    parts: &mut [PartDigestRecord],
)
    ensures { digests_telling told.new parts.new
        ≡ spec.digests_told (digests_facts image digests.now)
        (digests_telling told.old parts.old) }
{
    tell_part_digests(digests, parts);
    let image_sha256 = image.sha256;
    let head_sha256 = image.front_sha256;
    *told = DigestsRecord {
        image_length: image.length,
        head_length: image.front_length,
        image_sha256,
        head_sha256,
        parts: digests.len() as u64,
        reserved: NO_WORDS,
    };
}

/// Tells the digests that a digest was fed for, unless it wants bytes, and the status.
pub fn fed_digests_told<A: Allocator>(
    digest: &Digesting<A>,
    told: &mut DigestsRecord,
    parts: &mut [PartDigestRecord],
) -> u32
    ensures { spec.TellsFed digest.now result
        (record { digests = told.old; parts = parts.old })
        (record { digests = told.new; parts = parts.new }) }
{
    match digest.wanted() {
        Some(_) => 2,
        None => {
            tell_digests(digest.image(), digest.parts(), told, parts);
            0
        }
    }
}
