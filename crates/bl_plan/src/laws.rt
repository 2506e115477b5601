//! Laws of the definitions: rows have one list of places or one first fault.
ghost use Rattle.std.specs.Prelude.{◌≡◌, ◌≢◌, ◌⊎◌, ℕ, List, length, All, AllPairs};
ghost use Rattle.std.specs.List.{AllZip};
ghost use Rattle.std.specs.declared.ops.Range.{Range};
ghost use Rattle.bl_map.specs.MachineFacts.{MachineFacts};
ghost use Rattle.bl_plan.specs.declared.fault.PlanFault.{PlanFault};
ghost use Rattle.bl_plan.specs.declared.fault.PlanFault.TheVariants.{NoMemory};
ghost use Rattle.bl_plan.specs.declared.part.Row.{Row};
ghost use Rattle.bl_plan.specs.declared.part.Place.{Place};
ghost use Rattle.bl_plan.specs.Placed.{ArePlaced, IsFirstPlaceFault, IsApart, IsPlaceable};
ghost use Rattle.bl_plan.specs.Placed.{IsUntaken, IsUnavoided};
ghost use Rattle.bl_plan.specs.Placed.{IsPlaceOf};

/// Rows have one list of places, or one first fault, and never both.
pub fn places_are_determined()
    ensures one_list { (facts : MachineFacts) (taken : List (Range ℕ)) (rows : List Row)
        (ps qs : List Place)
        → ArePlaced facts taken rows ps → ArePlaced facts taken rows qs → ps ≡ qs }
    ensures one_fault { (facts : MachineFacts) (taken : List (Range ℕ)) (rows : List Row)
        (f g : PlanFault)
        → IsFirstPlaceFault facts taken rows f → IsFirstPlaceFault facts taken rows g → f ≡ g }
    ensures not_both { (facts : MachineFacts) (taken : List (Range ℕ)) (rows : List Row)
        (ps : List Place) (f : PlanFault)
        → ArePlaced facts taken rows ps → IsFirstPlaceFault facts taken rows f → ⊥ }
{}

/// Rows have places or a first fault, so by the law above exactly one of both. Want of memory is
/// all that the contract of `place_rows` leaves open.
pub fn rows_have_places_or_a_fault()
    ensures { (facts : MachineFacts) (taken : List (Range ℕ)) (rows : List Row)
        → ((places : List Place) × ArePlaced facts taken rows places)
        ⊎ ((f : PlanFault) × (f ≢ NoMemory) × IsFirstPlaceFault facts taken rows f) }
{}

/// The places of rows are usable and not avoided, and meet neither one another nor what was taken
/// before.
pub fn places_are_legal()
    ensures usable { (facts : MachineFacts) (taken : List (Range ℕ)) (rows : List Row)
        (ps : List Place) → ArePlaced facts taken rows ps → All (IsPlaceable facts) ps }
    ensures unavoided { (facts : MachineFacts) (taken : List (Range ℕ)) (rows : List Row)
        (ps : List Place) → ArePlaced facts taken rows ps → All (IsUnavoided facts) ps }
    ensures beside { (facts : MachineFacts) (taken : List (Range ℕ)) (rows : List Row)
        (ps : List Place) → ArePlaced facts taken rows ps → All (IsUntaken taken) ps }
    ensures apart { (facts : MachineFacts) (taken : List (Range ℕ)) (rows : List Row)
        (ps : List Place) → ArePlaced facts taken rows ps → AllPairs IsApart ps }
{}

/// There is one place for each row, in the rows' order, with the row's role, index and length.
pub fn places_are_of_rows()
    ensures as_many { (facts : MachineFacts) (taken : List (Range ℕ)) (rows : List Row)
        (ps : List Place) → ArePlaced facts taken rows ps → length ps ≡ length rows }
    ensures of_rows { (facts : MachineFacts) (taken : List (Range ℕ)) (rows : List Row)
        (ps : List Place) → ArePlaced facts taken rows ps → AllZip IsPlaceOf rows ps }
{}
