//! The Multiboot2 header of a kernel file.
#![tactic(auto)]

mod address;
mod console;
mod fault;
mod fields;
mod header;
mod header_place;
mod last_tags;
mod laws;
mod relocation;
mod tag;

pub use fault::HeadFault;
pub use header::{Header, find_header, find_header_for};
pub use laws::{headers_are_determined, headers_fit, tags_are_determined};
pub use relocation::Relocation;
