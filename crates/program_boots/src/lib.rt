//! What the boots of a description are made of: its menu and where its files come from, and the
//! parts of their explanations and of their digests.
#![tactic(auto)]

mod described;
mod digesting;
mod explaining;

pub use described::{
    AskedNames, DescribedBoot, Files, MemFiles, copy_of, entry_of, menu_of, title_of,
};
pub use digesting::{
    check_frames, checked_lengths, digest_entry, file_texts, indices_of, say_digested, say_image,
};
pub use explaining::{find_details, find_steps, tell_booted, tell_none_left, text_place};
