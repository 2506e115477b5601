//! Executables of ELF, 32-bit and 64-bit: their loadable segments, and where they are entered.
#![tactic(auto)]

mod class;
mod elf;
mod entry;
mod fault;
mod fields;
mod header;
mod laws;
mod overlap;
mod program_headers;
mod segments;
mod sums;

pub use elf::{Elf, read_elf};
pub use fault::ElfFault;
pub use laws::{elf_is_determined, overlap_is_shared};
