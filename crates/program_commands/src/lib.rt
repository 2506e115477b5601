//! The program's commands: each takes a description or an image, and answers a status. Boots,
//! maps, walks, conversions, digests, and a boot told for a person.
#![tactic(auto)]

mod boot_end;
mod booting;
mod described;
mod digesting;
mod document;
mod explaining;
mod image_conversion;
mod image_walk;
mod laws;
mod machine_map;

pub use bl_session::{FILE_LIMIT, Fetched};
pub use booting::boot;
pub use described::{ReadyBoot, attempted_file_names, find_files, ready_boot};
pub use digesting::{MenuPlan, PlannedEntry, digest_image_to, digest_to, plan_menu};
pub use document::read_description;
pub use explaining::explain_to;
pub use image_conversion::convert;
pub use image_walk::walk_to;
pub use laws::{
    booted_images_show_their_entries, converted_images_are_walked_alike,
    digests_are_of_booted_images, images_have_one_table, two_boots,
};
pub use machine_map::map_to;
pub use program_boots::{AskedNames, Files, MemFiles};
