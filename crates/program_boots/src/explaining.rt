//! The parts of an explanation: what is told of each refusal, and of the entry that is handed over;
//! places in a text.

mod entry_steps;
mod found_entry;
mod placing_details;
mod refusal_details;
mod text_places;
mod told_boot;

pub use entry_steps::find_steps;
pub use refusal_details::find_details;
pub use text_places::text_place;
pub use told_boot::{tell_booted, tell_none_left};
