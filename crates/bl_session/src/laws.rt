//! Laws of the definitions: a boot has one end, and each step leads on to it.
ghost use Rattle.std.specs.Prelude.{◌≡◌, ℕ, List, [], Option, map, All};
ghost use Rattle.bl_map.specs.MachineFacts.{MachineFacts};
ghost use Rattle.bl_load.specs.WellFormedEntry.{IsWellFormedValue};
ghost use Rattle.bl_load.specs.EntryValue.{EntryValue};
ghost use Rattle.bl_stage.specs.Files.{File, size_of};
ghost use Rattle.bl_session.specs.attempt.AttemptResult.{AttemptResult, AttemptHasResult};
ghost use Rattle.bl_session.specs.attempt.AttemptResult.{HasWholeFilesResult};
ghost use Rattle.bl_session.specs.session.BootSteps.{BootFacts, State, Starts, StepsTo};
ghost use Rattle.bl_store.specs.Events.{EventFacts};
ghost use Rattle.bl_session.specs.session.BootSteps.{Begins, LeadsTo, handed_over};
ghost use Rattle.bl_session.specs.menu.EntryContents.{entry_value_in};
ghost use Rattle.bl_session.specs.session.Schedules.{IsGenuine};
ghost use Rattle.bl_session.specs.session.Outcome.{IsOutcome};
ghost use Rattle.bl_session.specs.session.Outcome.{HasEnded};
ghost use Rattle.bl_load.specs.Handover.{Handover};
ghost use Rattle.bl_load.specs.Parts.{IsHandover};
ghost use Rattle.bl_load.specs.declared.refused_entry.RefusedEntry.{RefusedEntry};

/// An attempt has at most one result: it is handed over, or refused, by the machine's facts, the
/// files' sizes, a fault that came or none, and the entry's value. Nothing else decides.
pub fn ends_are_determined()
    ensures whole { (facts : MachineFacts) (value : EntryValue) (e f : AttemptResult)
        → HasWholeFilesResult facts value e → HasWholeFilesResult facts value f → e ≡ f }
    ensures attempt { (facts : MachineFacts) (sizes : List (Option ℕ)) (faulty : Option ℕ)
        (value : EntryValue) (e f : AttemptResult)
        → AttemptHasResult facts sizes faulty value e
        → AttemptHasResult facts sizes faulty value f → e ≡ f }
{}

/// An attempt has a result, so by the law above exactly one.
pub fn each_attempt_ends()
    ensures whole { (facts : MachineFacts) (value : EntryValue)
        → (result : AttemptResult) × HasWholeFilesResult facts value result }
    ensures attempt { (facts : MachineFacts) (sizes : List (Option ℕ)) (faulty : Option ℕ)
        (value : EntryValue)
        → (result : AttemptResult) × AttemptHasResult facts sizes faulty value result }
{}

/// From each state the start and each event lead to at most one state, apart from want of memory.
pub fn steps_are_determined()
    ensures start { (facts : BootFacts) (old a b : State)
        → Starts facts old a → Starts facts old b → a ≡ b }
    ensures event { (facts : BootFacts) (old : State) (event : EventFacts) (a b : State)
        → StepsTo facts old event a → StepsTo facts old event b → a ≡ b }
{}

/// From each state the start and each event lead on, so by the law above to exactly one state.
pub fn each_step_leads_on()
    ensures start { (facts : BootFacts) (old : State) → (new : State) × Starts facts old new }
    ensures event { (facts : BootFacts) (old : State) (event : EventFacts)
        → (new : State) × StepsTo facts old event new }
{}

/// Each schedule that is genuine for these files and faults (of each attempt its first wanted
/// fault, or none) and ends a boot ends it with the first entry that is not refused, and with the
/// refusals before it, in whatever order its pieces come, with whatever events beside them that are
/// not wanted: repeated pieces, strange ones, and late ones of refused attempts. Where each entry
/// is refused, it ends with all refusals.
pub fn first_entry_not_refused()
    ensures exact { (facts : BootFacts) (files : List File) (faults : ℕ → Option ℕ)
        (events : List EventFacts) (begun end : State) → facts.sizes ≡ map size_of files
        → Begins facts facts.menu.attempts [] begun → IsGenuine facts files faults begun events
        → LeadsTo facts begun events end → HasEnded end → IsOutcome facts files faults end }
    ensures one { (facts : BootFacts) (files : List File) (faults : ℕ → Option ℕ) (a b : State)
        → IsOutcome facts files faults a → IsOutcome facts files faults b → a ≡ b }
{}

/// Two boots on machines of equal facts that hand over entries of equal values hand over the same.
/// Everything else may differ: memory, the order of pieces, the menus with their other entries, the
/// files' indices, and what was refused before.
pub fn two_outcomes()
    ensures handover { (facts : BootFacts) (files : List File) (faults : ℕ → Option ℕ)
        (entry : ℕ) (earlier : List RefusedEntry) (h : Handover)
        → IsOutcome facts files faults (handed_over entry earlier h)
        → IsHandover facts.machine (entry_value_in facts files entry) h }
    ensures same { (facts other : BootFacts) (files those : List File) (faults fails : ℕ → Option ℕ)
        (entry index : ℕ) (earlier before : List RefusedEntry) (h k : Handover)
        → facts.machine ≡ other.machine
        → entry_value_in facts files entry ≡ entry_value_in other those index
        → IsOutcome facts files faults (handed_over entry earlier h)
        → IsOutcome other those fails (handed_over index before k) → h ≡ k }
{}

/// The value of each entry of a menu, whatever its files hold, is within the limits of an entry and
/// has lines and copies of bytes, where the menu's entries are and have, as `Menu::new` says. So
/// what is handed over shows its kernel the entry.
pub fn values_are_well_formed()
    ensures { (facts : BootFacts) (files : List File) (entry : ℕ)
        → All (λ e. IsWellFormedValue e.blank) facts.menu.entries
        → IsWellFormedValue (entry_value_in facts files entry) }
{}
