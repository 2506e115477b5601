//! The description of a boot: TOML to records.
#![tactic(auto)]

mod allowed;
mod arrays;
mod bad_key;
mod default_and_fallbacks;
mod desc;
mod entries;
mod entry_form;
mod entry_row;
mod fault;
mod file_row;
mod files;
mod firmware;
mod firmware_keys;
mod index_of_name;
mod key_set;
mod key_table;
mod keys;
mod modules;
mod owned_text;
mod pool;
mod protocol_keys;
mod regions;
mod rsdp_copies;
mod table_fault;
mod texts;
mod values;

pub use allowed::Allowed;
pub use bad_key::{BadKey, KeyFault, TablePlace};
pub use bl_plan::{MAX_ENTRIES, MAX_MODULES};
pub use desc::{Description, described_in, file_named};
pub use entry_form::{EntryForm, ModuleRow, Modules};
pub use entry_row::EntryRow;
pub use fault::DescFault;
pub use file_row::FileRow;
pub use index_of_name::file_index;
pub use key_set::KeySet;
pub use key_table::{Key, keys_of};
pub use owned_text::Text;
pub use table_fault::TableFault;
