//! The boot of a menu's first entry that is not refused.
#![tactic(auto)]

mod attempt;
mod laws;
mod menu;
mod runs;
mod session;

pub use attempt::{Request, finish_attempt};
pub use bl_load::RefusedEntry;
pub use bl_map::frames_for;
pub use bl_plan::{MAX_ENTRIES, MAX_MODULES};
pub use bl_stage::{FILE_LIMIT, Fetched};
pub use bl_store::{
    Completion, Event, FileStore, History, Ledger, Order, SliceFiles, SliceStore, Store,
    StoredFiles, Submission, Ticket,
};
pub use laws::{
    each_attempt_ends, each_step_leads_on, ends_are_determined, first_entry_not_refused,
    steps_are_determined, two_outcomes, values_are_well_formed,
};
pub use menu::{Menu, MenuFault, order_attempts};
pub use runs::{
    faithful_stores_boot_by_their_files, marked_histories_are_genuine, run,
    runs_end_with_the_first_entry_not_refused,
};
pub use session::{
    BootFault, BootHolder, LentBoot, Outcome, OwnedBoot, OwnedSession, Progress, Session,
    SessionOver,
};
