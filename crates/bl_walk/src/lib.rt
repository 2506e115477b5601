//! What a kernel sees in an image, when it follows the addresses in its registers.
#![tactic(auto)]

mod fault;
mod followed_bytes;
mod information;
mod kernel_parts;
mod laws;
mod parameters;
mod part_bytes;
mod seen;
mod seen_firmware;
mod seen_modules;
mod state;
mod walking;

pub use fault::WalkFault;
pub use laws::{
    handovers_are_seen, images_show_their_entries, ranges_lie_in_one_part, seen_is_determined,
    seen_is_sound, seen_runs_end_low,
};
pub use seen::{Seen, SeenFile, SeenModule, SeenPart};
pub use seen_firmware::SeenFirmware;
pub use walking::walk;
