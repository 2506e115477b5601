//! Laws of the definitions: an entry has one handover or one first refusal; a handover is legal.
ghost use Rattle.std.specs.Prelude.{◌≡◌, ◌≤◌, ◌⊎◌, ℕ, Bool, length, All, AllPairs, Some, None};
ghost use Rattle.std.specs.List.{count_by};
ghost use Rattle.bl_map.specs.MachineFacts.{MachineFacts, AllUsable};
ghost use Rattle.bl_plan.specs.Permitted.{AreUnavoided};
ghost use Rattle.bl_plan.specs.declared.part.Role.{Role};
ghost use Rattle.bl_plan.specs.declared.part.Row.{Row};
ghost use Rattle.bl_load.specs.declared.refusal.Refusal.{Refusal};
ghost use Rattle.bl_load.specs.declared.refusal.Refusal.TheVariants.{NotUsable, NoRoom};
ghost use Rattle.bl_load.specs.EntryValue.{EntryValue, lines_fault, lines_of};
ghost use Rattle.bl_load.specs.Handover.{Handover, end_of};
ghost use Rattle.bl_load.specs.Parts.{IsHandover, IsRefusal, HasPlaceFault};
ghost use Rattle.bl_load.specs.Legal.{IsLegal};
ghost use Rattle.bl_load.specs.KernelReading.{KernelReading, IsKernelReading};
ghost use Rattle.bl_load.specs.Rows.{rows_of};
ghost use Rattle.bl_load.specs.Unplaced.{IsUnplaced};

/// Equal facts and equal values give one handover, or one first refusal, and never both: nothing
/// else decides, such as what memory held or where the files lay.
pub fn handovers_are_determined()
    ensures one_handover { (facts : MachineFacts) (value : EntryValue) (h k : Handover)
        → IsHandover facts value h → IsHandover facts value k → h ≡ k }
    ensures one_refusal { (facts : MachineFacts) (value : EntryValue) (r s : Refusal)
        → IsRefusal facts value r → IsRefusal facts value s → r ≡ s }
    ensures not_both { (facts : MachineFacts) (value : EntryValue) (h : Handover) (r : Refusal)
        → IsHandover facts value h → IsRefusal facts value r → ⊥ }
{}

/// Each entry has a handover or a first refusal, so by the law above it has exactly one of them.
/// Want of memory is all that the contract of `prepare` leaves open.
pub fn each_entry_has_an_answer()
    ensures { (facts : MachineFacts) (value : EntryValue)
        → ((handover : Handover) × IsHandover facts value handover)
        ⊎ ((r : Refusal) × IsRefusal facts value r) }
{}

/// What is handed over is legal.
pub fn handovers_are_legal()
    ensures { (facts : MachineFacts) (value : EntryValue) (handover : Handover)
        → IsHandover facts value handover → IsLegal facts value handover }
{}

/// The parts of what is handed over are those of the entry's rows, and no other: as many of each
/// role, index and length, so that each row's part stands once among them.
pub fn parts_are_of_the_rows()
    ensures { (facts : MachineFacts) (value : EntryValue) (h : Handover)
        → IsHandover facts value h → (reading : KernelReading) × IsKernelReading facts value reading
        × ((p : Role → ℕ → ℕ → Bool)
        → count_by (λ part. p part.role part.index (length part.bytes)) h.parts
        ≡ count_by (λ row. p row.role row.index row.length) (rows_of facts value reading)) }
{}

/// The parts of what is handed over lie in memory that may be used, beside one another: none is
/// empty, each of its bytes is usable, none is avoided, and each part begins at or after the end of
/// those before it in the list.
pub fn parts_are_apart_and_usable()
    ensures filled { (facts : MachineFacts) (value : EntryValue) (h : Handover)
        → IsHandover facts value h
        → All (λ part. 1 ≤ length part.bytes) h.parts }
    ensures usable { (facts : MachineFacts) (value : EntryValue) (h : Handover)
        → IsHandover facts value h
        → All (λ part. AllUsable facts part.address (end_of part)) h.parts }
    ensures unavoided { (facts : MachineFacts) (value : EntryValue) (h : Handover)
        → IsHandover facts value h
        → All (λ part. AreUnavoided facts part.address (end_of part)) h.parts }
    ensures apart { (facts : MachineFacts) (value : EntryValue) (h : Handover)
        → IsHandover facts value h
        → AllPairs (λ p q. end_of p ≤ q.address) h.parts }
{}

/// What `unplaced` tells goes with what `prepare` refuses: a part that finds no place is refused by
/// `NotUsable` or `NoRoom`; where placing is refused, a part is told; where none is, the entry is
/// handed over.
pub fn unplaced_parts_are_refused()
    ensures refused { (facts : MachineFacts) (value : EntryValue) (which : Row)
        → IsUnplaced facts value (Some which)
        → IsRefusal facts value NotUsable ⊎ IsRefusal facts value NoRoom }
    ensures told { (facts : MachineFacts) (value : EntryValue) (r : Refusal)
        → lines_fault (lines_of value) ≡ None → HasPlaceFault facts value r
        → (which : Row) × IsUnplaced facts value (Some which) }
    ensures placed { (facts : MachineFacts) (value : EntryValue)
        → IsUnplaced facts value None → (h : Handover) × IsHandover facts value h }
{}
