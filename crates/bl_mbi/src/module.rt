//! A module, as it was read.
use bl_mem::Bytes;
use std::alloc::Allocator;
use std::marker::Model;

/// A module that was loaded (Multiboot2 3.6.6 "Modules"): the physical addresses of its first byte
/// and after its last one, both in bytes, and its line without a zero at its end. An empty module
/// has `mod_end` equal to `mod_start`.
#[derive(Drop)]
pub struct Module<A: Allocator> {
    pub mod_start: u32,
    pub mod_end: u32,
    pub line: Bytes<A>,
}

impl<A: Allocator> Model for Module<A> {
    ghost use Rattle.bl_mbi.specs.InfoToWriteFacts.{ModuleInfo};

    ghost Value = { ModuleInfo };

    ghost view = { λ m. record { mod_start = m.mod_start; mod_end = m.mod_end; line = m.line } };
}
