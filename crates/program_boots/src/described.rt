//! What is booted of a description: its menu, and where its files come from.

mod described_boot;
mod files;
mod menu;

pub use described_boot::DescribedBoot;
pub use files::{AskedNames, Files, MemFiles, copy_of};
pub use menu::{entry_of, menu_of, title_of};
