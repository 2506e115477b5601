//! Laws of the definitions: a plan is determined, and so is the part that finds no place.
ghost use Rattle.std.specs.Prelude.{◌≡◌, Option};
ghost use Rattle.bl_map.specs.MachineFacts.{MachineFacts};
ghost use Rattle.bl_plan.specs.declared.part.Row.{Row};
ghost use Rattle.c_records.specs.Machines.{IsMachineGiven};
ghost use Rattle.c_records.specs.declared.given_records.EntryRecord.{EntryRecord};
ghost use Rattle.c_records.specs.declared.given_records.MachineRecord.{MachineRecord};
ghost use Rattle.c_abi.specs.Plan.{PlanFacts, IsPlanned, AreKnownAlike};
ghost use Rattle.c_abi.specs.UnplacedPart.{IsSought};
ghost use Rattle.c_abi.specs.UnplacedTold.{unplaced_told};

/// Entries that are one but for the bytes of the files beside the kernel have one plan on machines
/// of the same facts: its steps, its own bytes and its handoff are equal, and so is what each
/// wants of room.
pub fn plans_are_determined()
    ensures { (machine another : MachineRecord) (entry other : EntryRecord)
        (facts : MachineFacts) (plan again : PlanFacts) → IsMachineGiven machine facts
        → IsMachineGiven another facts → AreKnownAlike entry other
        → IsPlanned machine entry plan → IsPlanned another other again → plan ≡ again }
{}

/// Entries that are one but for the bytes of the files beside the kernel, on machines of the same
/// facts, are told one part, or both that each has its place.
pub fn unplaced_parts_are_determined()
    ensures { (machine another : MachineRecord) (entry other : EntryRecord)
        (facts : MachineFacts) (which again : Option Row) → IsMachineGiven machine facts
        → IsMachineGiven another facts → AreKnownAlike entry other
        → IsSought machine entry which → IsSought another other again
        → unplaced_told which ≡ unplaced_told again }
{}
