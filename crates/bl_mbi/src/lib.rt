//! The boot information that a Multiboot2 kernel is handed: its facts, written as bytes and read
//! from them.
//!
//! `InfoToWrite` is what is written, always with the loader's name `bootcore`: contracts see it as
//! the record `InfoToWriteFacts`. `Info` is what was read, with the name of whatever loader wrote
//! it: contracts see it as the record `InfoFacts`, which is a name and the facts.
#![tactic(auto)]

mod body_reader;
mod efi_copy;
mod fault;
mod firmware_body_reader;
mod info;
mod info_to_write;
mod laws;
mod module;
mod module_to_write;
mod optional_tag_reader;
mod optional_tag_writer;
mod reader;
mod rest;
mod size;
mod smbios_copy;
mod tag_groups;
mod tag_reader;
mod tag_types;
mod tag_writer;
mod write;

pub use efi_copy::EfiCopy;
pub use fault::InfoFault;
pub use info::Info;
pub use info_to_write::InfoToWrite;
pub use laws::{read_is_spelled, spelled_is_read};
pub use module::Module;
pub use module_to_write::ModuleToWrite;
pub use reader::read_info;
pub use size::{module_size, size_by_lengths};
pub use smbios_copy::SmbiosCopy;
pub use tag_types::MIN_INFO_SIZE;
pub use write::{info_size, write_info};
