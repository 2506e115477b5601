//! A module, as it is to be told of.
use std::marker::Model;

/// What the information tells of a module (Multiboot2 3.6.6 "Modules"): the physical addresses of
/// its first byte and after its last one, both in bytes, and its line, which is not copied, without
/// a zero at its end. An empty module has `mod_end` equal to `mod_start`.
#[derive(Drop)]
pub struct ModuleToWrite<'a> {
    pub mod_start: u32,
    pub mod_end: u32,
    pub line: &'a [u8],
}

impl<'a> Model for ModuleToWrite<'a> {
    ghost use Rattle.bl_mbi.specs.InfoToWriteFacts.{ModuleInfo};

    ghost Value = { ModuleInfo };

    ghost view = { λ m. record {
      mod_start = m.mod_start;
      mod_end = m.mod_end;
      line = m.line.now;
    } };
}
