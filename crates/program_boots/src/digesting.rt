//! The parts of a digest: an entry's files and their sizes, its digests, and what is said of them.

mod entry_digests;
mod entry_files;
mod said_digests;
mod size_checks;

pub use entry_digests::digest_entry;
pub use entry_files::{file_texts, indices_of};
pub use said_digests::{say_digested, say_image};
pub use size_checks::{check_frames, checked_lengths};
