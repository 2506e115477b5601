//! What an entry has beside its kernel.
ghost use Rattle.std.specs.Prelude.{◌≤◌, length};

use crate::owned_text::Text;
use bl_mem::Bytes;
use bl_plan::Protocol;
use std::alloc::Allocator;

/// A module of an entry: `file` names a file, and `line` is the module's line, perhaps empty.
#[derive(Drop)]
pub struct ModuleRow<A: Allocator> {
    pub file: Text<A>,
    pub line: Text<A>,
}

/// The modules of an entry, in order: at most 64.
#[derive(Drop)]
pub struct Modules<A: Allocator> {
    pub rows: Vec<ModuleRow<A>, A>,
    ghost few: { length rows.items ≤ 64 },
}

/// What an entry has beside its kernel, by its protocol: modules and perhaps copies of the Root
/// System Description Pointer of ACPI 1.0 and of ACPI 2.0 or later (Multiboot2 3.6.16, 3.6.17), or
/// perhaps an initial ramdisk, which is the name of a file. A `wide` form is that of the 64-bit
/// entry.
#[derive(Drop)]
pub enum EntryForm<A: Allocator> {
    Multiboot2 {
        modules: Modules<A>,
        rsdp_old: Option<Bytes<A>>,
        rsdp_new: Option<Bytes<A>>,
    },
    Linux {
        initrd: Option<Text<A>>,
        wide: bool,
    },
}

impl<A: Allocator> EntryForm<A> {
    ghost use Rattle.std.specs.Prelude.{◌≡◌};
    ghost use Rattle.program_desc.specs.Views.{form_view};

    /// The protocol.
    pub fn protocol(&self) -> Protocol
        ensures { result ≡ (form_view self.now).protocol }
    {
        match self {
            EntryForm::Multiboot2 { .. } => Protocol::Multiboot2,
            EntryForm::Linux { wide, .. } => Protocol::of_linux(*wide),
        }
    }
}
