//! Digests for C: of an entry whose files come later, or are all at hand.
ghost use Rattle.std.specs.Prelude.{◌≡◌, Err, Result, None};
ghost use Rattle.std.specs.Option.{MatchOption};
ghost use Rattle.bl_digest.specs.DigestsFacts.{DigestsFacts};
ghost use Rattle.bl_digest.specs.PlanInSteps.{DigestingFacts};
ghost use Rattle.c_abi.specs.Digest.{IsGivenDigestEnd, IsGivenDigestsEnd};
ghost use Rattle.c_abi.specs.DigestTold.{DigestsTelling, FeedsDigest, TellsFed};
ghost use Rattle.c_abi.specs.DigestTold.{TellsDigestMade, TellsDigests, TellsWanted, wanted_of};
ghost use Rattle.c_records.specs.declared.load_fault.LoadFault.{LoadFault};
ghost use Rattle.c_handle.specs.Handles.{RelatesKept};
ghost use Rattle.c_handle.specs.HandleTold.{progress_status};
ghost use Rattle.c_handle.specs.declared.handle_fault.HandleFault.TheVariants.{NoSession};

use c_abi::{digest_given, digests_told, fed_digests_told, feed_told, wanted_told};
use c_handle::{DigestHandle, HandleFault, status_of};
use c_records::{
    DigestsRecord, EntryRecord, FileRangeRecord, LoadFault, MachineRecord, PartDigestRecord,
    RefusalRecord, tell_load_fault,
};
use std::alloc::Global;

/// A digest is made, and kept; one that was kept before is freed then.
#[unsafe(no_mangle)]
pub extern "C" fn bootcore_digest_make_arrays(
    alloc: Global,
    digest: &mut DigestHandle,
    machine: &MachineRecord<'_>,
    entry: &EntryRecord<'_>,
    refusal: &mut RefusalRecord,
) -> u32
    ensures { (made : Result DigestingFacts LoadFault)
        × IsGivenDigestEnd machine.now entry.now made
        × TellsDigestMade made result digest.old.kept digest.new.kept refusal.old refusal.new }
{
    match digest_given(alloc, machine, entry) {
        Ok(made) => match digest.make(alloc, made) {
            Ok(()) => 0,
            Err(_) => tell_load_fault(LoadFault::NoMemory, refusal),
        },
        Err(fault) => tell_load_fault(fault, refusal),
    }
}

/// What the digest that is kept wants next, and whether it wants something.
#[unsafe(no_mangle)]
pub extern "C" fn bootcore_digest_wanted_record(
    alloc: Global,
    digest: &mut DigestHandle,
    range: &mut FileRangeRecord,
) -> bool
    ensures kept { digest.new.kept ≡ digest.old.kept }
    ensures place { digest.new.at ≡ digest.old.at }
    ensures told { MatchOption digest.old.kept
        (TellsWanted None result range.old range.new)
        (λ kept. TellsWanted (wanted_of kept) result range.old range.new) }
{
    let lent = digest.lend(alloc);
    let is_told = match lent.look() {
        Some(kept) => wanted_told(kept, range),
        None => false,
    };
    digest.take_back(lent);
    is_told
}

/// The digest that is kept is fed.
#[unsafe(no_mangle)]
pub extern "C" fn bootcore_digest_feed_array(
    alloc: Global,
    digest: &mut DigestHandle,
    bytes: &[u8],
) -> u32
    ensures { RelatesKept digest.old.kept digest.new.kept
        (result ≡ progress_status (Err NoSession))
        (λ old new. FeedsDigest old new bytes.now result) }
{
    match digest.take(alloc) {
        Some(mut kept) => {
            let status = feed_told(&mut *kept, bytes);
            digest.keep(kept);
            status
        }
        None => status_of(Err(HandleFault::NoSession)),
    }
}

/// The digests that the digest that is kept was fed for, unless it wants bytes.
#[unsafe(no_mangle)]
pub extern "C" fn bootcore_digest_told_arrays(
    alloc: Global,
    digest: &mut DigestHandle,
    told: &mut DigestsRecord,
    parts: &mut [PartDigestRecord],
) -> u32
    ensures kept { digest.new.kept ≡ digest.old.kept }
    ensures place { digest.new.at ≡ digest.old.at }
    ensures told { let before : DigestsTelling = record { digests = told.old; parts = parts.old } in
        let after : DigestsTelling = record { digests = told.new; parts = parts.new } in
        MatchOption digest.old.kept
        ((result ≡ progress_status (Err NoSession)) × (after ≡ before))
        (λ kept. TellsFed kept result before after) }
{
    let lent = digest.lend(alloc);
    let status = match lent.look() {
        Some(kept) => fed_digests_told(kept, told, parts),
        None => status_of(Err(HandleFault::NoSession)),
    };
    digest.take_back(lent);
    status
}

/// The digest that is kept is freed.
#[unsafe(no_mangle)]
pub extern "C" fn bootcore_digest_free_kept(alloc: Global, digest: &mut DigestHandle)
    ensures { digest.new.kept ≡ None }
{
    digest.free(alloc)
}

/// The digests of an entry whose files are all at hand.
#[unsafe(no_mangle)]
pub extern "C" fn bootcore_digest_entry_arrays(
    alloc: Global,
    machine: &MachineRecord<'_>,
    entry: &EntryRecord<'_>,
    told: &mut DigestsRecord,
    parts: &mut [PartDigestRecord],
    refusal: &mut RefusalRecord,
) -> u32
    ensures { (end : Result DigestsFacts LoadFault)
        × IsGivenDigestsEnd machine.now entry.now end
        × TellsDigests end result
        (record { digests = told.old; parts = parts.old })
        (record { digests = told.new; parts = parts.new }) refusal.old refusal.new }
{
    digests_told(alloc, machine, entry, told, parts, refusal)
}
