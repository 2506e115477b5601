//! Laws of the definitions: a load of an entry and a preparation of it agree.
ghost use Rattle.std.specs.Prelude.{◌≡◌, ◌≢◌, ◌≤◌, ◌⊎◌, ℕ, List, All, length, Ok, Err};
ghost use Rattle.bl_load.specs.HandoffFacts.{HandoffFacts, max_parts};
ghost use Rattle.bl_load.specs.declared.refusal.Refusal.{Refusal};
ghost use Rattle.c_records.specs.declared.load_fault.LoadFault.{LoadFault};
ghost use Rattle.c_records.specs.declared.load_fault.LoadFault.TheVariants.{Refused, NoMemory};
ghost use Rattle.c_records.specs.declared.load_fault.LoadFault.TheVariants.{Outside};
ghost use Rattle.c_records.specs.declared.given_records.EntryRecord.{EntryRecord};
ghost use Rattle.c_records.specs.declared.given_records.MachineRecord.{MachineRecord};
ghost use Rattle.c_records.specs.Given.{texts_given};
ghost use Rattle.c_abi.specs.Load.{IsGivenLoadEnd};
ghost use Rattle.c_abi.specs.Prepare.{IsGivenPrepareEnd};

/// A load of what was prepared, into memory that reaches to the machine's end and with room for the
/// places, says the same handoff, or memory runs out, or a place lies below the base: none does if
/// the base is 0. A preparation of what was loaded succeeds too, or memory runs out. What was
/// refused is never loaded, and where a load refuses it too, then for the same reason. A
/// preparation and a load into memory that reaches to the machine's end, with as much room, tell
/// one fault, if both tell one and neither that memory ran out.
pub fn loads_end_as_prepared()
    ensures one_handoff { (machine : MachineRecord) (entry : EntryRecord)
        (room space base : ℕ) (old new : List ℕ) (prepared loaded : HandoffFacts)
        → IsGivenPrepareEnd machine entry (texts_given entry) room (Ok prepared)
        → IsGivenLoadEnd machine entry space base old new (Ok loaded) → loaded ≡ prepared }
    ensures else_no_memory { (machine : MachineRecord) (entry : EntryRecord)
        (room space base : ℕ) (old new : List ℕ) (prepared : HandoffFacts) (fault : LoadFault)
        → machine.size ≤ length old → max_parts ≤ space
        → All (λ place. base ≤ place.address) prepared.places
        → IsGivenPrepareEnd machine entry (texts_given entry) room (Ok prepared)
        → IsGivenLoadEnd machine entry space base old new (Err fault) → fault ≡ NoMemory }
    ensures else_outside { (machine : MachineRecord) (entry : EntryRecord)
        (room space base : ℕ) (old new : List ℕ) (prepared : HandoffFacts) (fault : LoadFault)
        → machine.size ≤ length old → max_parts ≤ space
        → IsGivenPrepareEnd machine entry (texts_given entry) room (Ok prepared)
        → IsGivenLoadEnd machine entry space base old new (Err fault)
        → (fault ≡ NoMemory) ⊎ (fault ≡ Outside) }
    ensures prepared_too { (machine : MachineRecord) (entry : EntryRecord)
        (room space base : ℕ) (old new : List ℕ) (fault : LoadFault) (loaded : HandoffFacts)
        → max_parts ≤ room
        → IsGivenPrepareEnd machine entry (texts_given entry) room (Err fault)
        → IsGivenLoadEnd machine entry space base old new (Ok loaded) → fault ≡ NoMemory }
    ensures one_refusal { (machine : MachineRecord) (entry : EntryRecord)
        (room space base : ℕ) (old new : List ℕ) (r s : Refusal)
        → IsGivenPrepareEnd machine entry (texts_given entry) room (Err (Refused r))
        → IsGivenLoadEnd machine entry space base old new (Err (Refused s)) → s ≡ r }
    ensures never_loaded { (machine : MachineRecord) (entry : EntryRecord)
        (room space base : ℕ) (old new : List ℕ) (r : Refusal) (loaded : HandoffFacts)
        → IsGivenPrepareEnd machine entry (texts_given entry) room (Err (Refused r))
        → IsGivenLoadEnd machine entry space base old new (Ok loaded) → ⊥ }
    ensures one_fault { (machine : MachineRecord) (entry : EntryRecord)
        (room base : ℕ) (old new : List ℕ) (f g : LoadFault)
        → machine.size ≤ length old → f ≢ NoMemory → g ≢ NoMemory
        → IsGivenPrepareEnd machine entry (texts_given entry) room (Err f)
        → IsGivenLoadEnd machine entry room base old new (Err g) → g ≡ f }
{}
