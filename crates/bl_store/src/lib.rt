//! Where the pieces of a menu's files come from: the trait that a boot asks, and stores over files
//! and slices.
#![tactic(auto)]

mod event;
mod fetched_files;
mod file_store;
mod history;
mod ledger;
mod order;
mod pending;
mod slice_store;
mod store;
mod stored_files;
mod submission;
mod submission_range;
mod ticket;

pub use event::Event;
pub use file_store::FileStore;
pub use history::History;
pub use ledger::Ledger;
pub use order::Order;
pub use slice_store::SliceStore;
pub use store::{Completion, Store};
pub use stored_files::{SliceFiles, StoredFiles};
pub use submission::Submission;
pub use ticket::Ticket;
