//! What a boot of a description runs on: its machine, its menu, and the files of the entries that
//! are attempted, as they are found.

mod boot_inputs;
mod found_files;
mod machine;
mod names;
mod piece_order;

pub use boot_inputs::{ReadyBoot, ready_boot};
pub use found_files::find_files;
pub use machine::{make_machine, read_machine};
pub use names::attempted_file_names;
pub use piece_order::order_of;
