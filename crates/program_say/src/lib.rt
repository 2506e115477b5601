//! The lines that the program says: of a boot, a map, a walk, digests, an explanation, and why an
//! image or a description is refused.
#![tactic(auto)]

mod blame;
mod formatted;
mod lines;
mod subjects;

pub use blame::say_blame;
pub use lines::{
    say_attempt, say_bad_image, say_booted, say_digests, say_handoff, say_handoff_frames,
    say_hints, say_machine_firmware, say_map, say_no_entry_left, say_refusals,
    say_refused_attempts, say_walk,
};
pub use subjects::{Blame, RefusalDetail, Sought, TextPlace, ToldRefusal, entry_at};
