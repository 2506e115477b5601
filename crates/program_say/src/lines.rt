//! The lines of boots, maps, walks, digests and explanations, and that of a bad image.

mod addresses;
mod attempts;
mod cut_kernels;
mod digests;
mod fields;
mod firmware;
mod frames;
mod hex16;
mod hints;
mod kernel_handoff;
mod machine_firmware;
mod map;
mod outcome;
mod part_names;
mod part_sources;
mod refusal;
mod refusal_detail;
mod refusal_words;
mod sought;
mod walk;

pub use addresses::say_address;
pub use attempts::{say_attempt, say_refused_attempts};
pub use digests::say_digests;
pub use frames::say_handoff_frames;
pub use hints::say_hints;
pub use kernel_handoff::say_handoff;
pub use machine_firmware::say_machine_firmware;
pub use map::say_map;
pub use outcome::{say_bad_image, say_booted, say_no_entry_left, say_refusals};
pub use walk::say_walk;
