//! Laws of the definitions: the digests of an entry are those of what a load of it hands over.
ghost use Rattle.std.specs.Prelude.{◌≡◌, ℕ, List, Ok};
ghost use Rattle.bl_digest.specs.Digests.{digests_of};
ghost use Rattle.bl_digest.specs.DigestsFacts.{DigestsFacts};
ghost use Rattle.bl_digest.specs.PlanInSteps.{DigestingFacts};
ghost use Rattle.bl_digest.specs.Ranges.{bytes_of_ranges};
ghost use Rattle.bl_load.specs.HandoffFacts.{HandoffFacts};
ghost use Rattle.bl_load.specs.PlanContents.{handover_in};
ghost use Rattle.c_records.specs.declared.given_records.EntryRecord.{EntryRecord};
ghost use Rattle.c_records.specs.declared.given_records.MachineRecord.{MachineRecord};
ghost use Rattle.c_abi.specs.Digest.{AreDigestsFed, AreDigestsGiven, IsDigestMade, ranges_wanted};
ghost use Rattle.c_records.specs.Given.{texts_given};
ghost use Rattle.c_abi.specs.Load.{IsGivenLoadEnd};
ghost use Rattle.c_abi.specs.Prepare.{AreFilesOf};

/// A digest that was made of an entry, and then fed what it wanted of the entry's files, tells the
/// entry's digests, the same as at once. And whoever loads the entry has these digests of what lies
/// in memory then.
pub fn digests_are_those_of_loads()
    ensures fed { (machine : MachineRecord) (entry : EntryRecord) (made fed : DigestingFacts)
        (digests : DigestsFacts)
        → IsDigestMade machine entry made → AreFilesOf entry (texts_given entry)
        → fed ≡ record made { fed = bytes_of_ranges (texts_given entry) (ranges_wanted made) }
        → AreDigestsFed fed digests → AreDigestsGiven machine entry digests }
    ensures loaded { (machine : MachineRecord) (entry : EntryRecord) (room base : ℕ)
        (old new : List ℕ) (handoff : HandoffFacts) (digests : DigestsFacts)
        → AreDigestsGiven machine entry digests
        → IsGivenLoadEnd machine entry room base old new (Ok handoff)
        → digests
        ≡ digests_of (handover_in new handoff.protocol handoff.registers handoff.places) }
{}
