//! The class of a file.
ghost use Rattle.std.specs.Prelude.{◌≡◌};
ghost use Rattle.bl_elf.specs.Header as spec;

use crate::fields::{EHDR_SIZE_32, EHDR_SIZE_64, EM_386, EM_X86_64, PHDR_SIZE_32, PHDR_SIZE_64};

/// How wide a file's addresses and offsets are (System V gABI, "ELF Header": `e_ident[EI_CLASS]`).
#[derive(Clone, Copy)]
pub enum Class {
    Elf32,
    Elf64,
}

impl Class {
    /// The bytes of the ELF header.
    pub fn header_size(self) -> u64
        ensures { result ≡ spec.header_size self }
    {
        match self {
            Class::Elf32 => EHDR_SIZE_32,
            Class::Elf64 => EHDR_SIZE_64,
        }
    }

    /// The bytes of a program header.
    pub fn program_header_size(self) -> u16
        ensures { result ≡ spec.program_header_size self }
    {
        match self {
            Class::Elf32 => PHDR_SIZE_32,
            Class::Elf64 => PHDR_SIZE_64,
        }
    }

    /// The number of the machine that a file of this class has to name: an i386 or an x86-64.
    pub fn required_machine(self) -> u16
        ensures { result ≡ spec.required_machine self }
    {
        match self {
            Class::Elf32 => EM_386,
            Class::Elf64 => EM_X86_64,
        }
    }
}
