//! Laws of a boot over a store.
ghost use Rattle.std.specs.Prelude.{◌≡◌, List, [], map, None};
ghost use Rattle.bl_stage.specs.Files.{File, size_of};
ghost use Rattle.bl_session.specs.session.BootSteps.{BootFacts, State, Begins, LeadsTo};
ghost use Rattle.bl_store.specs.Events.{EventFacts};
ghost use Rattle.bl_session.specs.session.Schedules.{Faults, IsGenuine};
ghost use Rattle.bl_session.specs.session.Outcome.{IsOutcome, HasEnded};
ghost use Rattle.bl_store.specs.History.{HistoryItem};
ghost use Rattle.bl_session.specs.runs.Run.{IsRun, IsMarkedRun, IsGenuineRun};
ghost use Rattle.bl_store.specs.Faithful.{IsFaithful};

/// A boot over a store that answers genuinely and comes to an end ends with the first entry that
/// is not refused, and with the refusals before it; if each entry is refused, with all
/// refusals. For what it asked and heard is a schedule: each answer is an event, and a piece that
/// is marked as its file's holds the bytes of the entry's own file, since under each ticket of the
/// attempt that runs its own file was asked for last. So for the same faults, of each attempt its
/// first wanted fault or none, neither the order of the answers counts, nor what comes beside them,
/// nor what the store was asked before. Of several wanted faults of an attempt the first decides.
pub fn runs_end_with_the_first_entry_not_refused()
    ensures schedule { (facts : BootFacts) (files : List File) (faults : Faults)
        (old new : List HistoryItem) (end : State)
        → IsRun facts files old new end → IsGenuineRun facts files faults old new → HasEnded end
        → (begun : State) × Begins facts facts.menu.attempts [] begun
        × ((events : List EventFacts) × IsGenuine facts files faults begun events
        × LeadsTo facts begun events end) }
    ensures exact { (facts : BootFacts) (files : List File) (faults : Faults)
        (old new : List HistoryItem) (end : State) → facts.sizes ≡ map size_of files
        → IsRun facts files old new end → IsGenuineRun facts files faults old new → HasEnded end
        → IsOutcome facts files faults end }
    ensures same { (facts : BootFacts) (files : List File) (faults : Faults)
        (old new before after : List HistoryItem) (a b : State) → facts.sizes ≡ map size_of files
        → IsRun facts files old new a → IsGenuineRun facts files faults old new → HasEnded a
        → IsRun facts files before after b → IsGenuineRun facts files faults before after
        → HasEnded b → a ≡ b }
{}

/// What a boot over a store hears is genuine, for the faults that came, as soon as each piece that
/// it waits for is marked as its file's. So the law above speaks of each such history.
pub fn marked_histories_are_genuine()
    ensures { (facts : BootFacts) (files : List File) (old new : List HistoryItem) (end : State)
        → IsRun facts files old new end → IsMarkedRun facts files old new
        → (faults : Faults) × IsGenuineRun facts files faults old new }
{}

/// A boot over a faithful store that was asked for nothing before hears only what the files hold,
/// and no fault, of the pieces that it waits for: it asks once for each piece of an attempt, and
/// for none under a ticket of another attempt. So if it comes to an end, the files alone decide
/// it.
pub fn faithful_stores_boot_by_their_files()
    ensures genuine { (facts : BootFacts) (files : List File) (new : List HistoryItem)
        → facts.sizes ≡ map size_of files → IsFaithful files new
        → IsGenuineRun facts files (λ _. None) [] new }
    ensures exact { (facts : BootFacts) (files : List File) (new : List HistoryItem) (end : State)
        → facts.sizes ≡ map size_of files → IsFaithful files new
        → IsRun facts files [] new end → HasEnded end → IsOutcome facts files (λ _. None) end }
{}
