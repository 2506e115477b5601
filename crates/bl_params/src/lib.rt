//! What a Linux kernel is handed: its boot parameters, and the descriptors of its segments.
#![tactic(auto)]

mod descriptors;
mod efi_fields;
mod efi_reader;
mod efi_writer;
mod fault;
mod field_writer;
mod fields;
mod form_checks;
mod front_reader;
mod laws;
mod little_endian_slice;
mod map_reader;
mod number_bytes;
mod paging;
mod params;
mod params_to_write;
mod reader;
mod screen_fields;
mod screen_reader;
mod screen_writer;
mod translation;
mod write;

pub use descriptors::{gdt, gdt64};
pub use fault::ParamFault;
pub use fields::{MAX_E820_ENTRIES, PARAMS_SIZE};
pub use laws::{
    gdt_part_begins_with_gdt, paging_keeps_addresses, params_are_determined, runs_end_low,
    told_firmware_is_sound, written_is_read,
};
pub use paging::{LOW_PAGES, PAGE_SIZE, TABLES_SIZE, page_tables};
pub use params::Params;
pub use params_to_write::ParamsToWrite;
pub use reader::read_params;
pub use translation::translate;
pub use write::write_params;
