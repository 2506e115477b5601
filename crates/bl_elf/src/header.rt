//! The ELF header.
ghost use Rattle.std.specs.Prelude.{◌≡◌, ◌≤◌, Some, None, length, MatchResult, IfOk};
ghost use Rattle.bl_elf.specs.Header as spec;
ghost use Rattle.bl_elf.specs.internal.SoundHeader.{IsSoundHeaderOf};

use crate::class::Class;
use crate::fault::ElfFault;
use crate::fields::{
    E_ENTRY, E_MACHINE, E_PHENTSIZE_32, E_PHENTSIZE_64, E_PHNUM_32, E_PHNUM_64, E_PHOFF_32,
    E_PHOFF_64, E_TYPE, E_VERSION, EHDR_SIZE_32, EHDR_SIZE_64, EI_CLASS, EI_DATA, EI_NIDENT,
    EI_VERSION, EI_VERSION_CURRENT, ELFCLASS32, ELFCLASS64, ELFDATA2LSB, ET_DYN, ET_EXEC,
    EV_CURRENT, MAGIC, MAX_PROGRAM_HEADERS,
};
use crate::sums::ends_within;
use bl_mem::{ByteView, u8_at, u16_at, u32_at, u64_at};

/// The fields of a file's ELF header that loading needs (System V gABI, "ELF Header").
#[derive(Clone, Copy)]
pub struct Header {
    pub class: Class,
    pub e_type: u16,
    pub e_machine: u16,
    pub e_version: u32,
    pub e_entry: u64,
    pub e_phoff: u64,
    pub e_phentsize: u16,
    pub e_phnum: u16,
}

/// The header of a file, or its first fault.
#[tactic(auto, unfolding(crate::specs::Header::header_fault, crate::specs::Header::header_of))]
pub fn read_header<V: ByteView>(view: &V) -> Result<Header, ElfFault>
    ensures exact { MatchResult result
        (λ _. spec.header_fault (V.bytes view.now) ≡ None)
        (λ fault. spec.header_fault (V.bytes view.now) ≡ Some fault) }
    ensures header { IfOk result (IsSoundHeaderOf (V.bytes view.now)) }
{
    let size = view.len();
    if !has_magic(view) {
        return Err(ElfFault::NotElf);
    }
    if !has_supported_ident(view) {
        return Err(ElfFault::BadElf);
    }
    let class = class_of(view);
    if size < class.header_size() {
        return Err(ElfFault::BadElf);
    }
    let header = match class {
        Class::Elf32 => header_32(view),
        Class::Elf64 => header_64(view),
    };
    check_fields(size, header)?;
    Ok(header)
}

fn has_magic<V: ByteView>(view: &V) -> bool
    ensures { result ≡ spec.has_magic (V.bytes view.now) }
{
    if view.len() < EI_NIDENT {
        return false;
    }
    u32_at(view, 0) == MAGIC
}

fn has_supported_ident<V: ByteView>(view: &V) -> bool
    requires { EI_NIDENT ≤ length (V.bytes view.now) }
    ensures { result ≡ spec.has_supported_ident (V.bytes view.now) }
{
    let class = u8_at(view, EI_CLASS);
    if class != ELFCLASS32 && class != ELFCLASS64 {
        return false;
    }
    if u8_at(view, EI_DATA) != ELFDATA2LSB {
        return false;
    }
    u8_at(view, EI_VERSION) == EI_VERSION_CURRENT
}

fn class_of<V: ByteView>(view: &V) -> Class
    requires { EI_NIDENT ≤ length (V.bytes view.now) }
    ensures { result ≡ spec.class_of (V.bytes view.now) }
{
    if u8_at(view, EI_CLASS) == ELFCLASS64 {
        Class::Elf64
    } else {
        Class::Elf32
    }
}

fn header_32<V: ByteView>(view: &V) -> Header
    requires { EHDR_SIZE_32 ≤ length (V.bytes view.now) }
    ensures { result ≡ spec.header_in Class.Elf32 (V.bytes view.now) }
{
    Header {
        class: Class::Elf32,
        e_type: u16_at(view, E_TYPE),
        e_machine: u16_at(view, E_MACHINE),
        e_version: u32_at(view, E_VERSION),
        e_entry: u32_at(view, E_ENTRY) as u64,
        e_phoff: u32_at(view, E_PHOFF_32) as u64,
        e_phentsize: u16_at(view, E_PHENTSIZE_32),
        e_phnum: u16_at(view, E_PHNUM_32),
    }
}

fn header_64<V: ByteView>(view: &V) -> Header
    requires { EHDR_SIZE_64 ≤ length (V.bytes view.now) }
    ensures { result ≡ spec.header_in Class.Elf64 (V.bytes view.now) }
{
    Header {
        class: Class::Elf64,
        e_type: u16_at(view, E_TYPE),
        e_machine: u16_at(view, E_MACHINE),
        e_version: u32_at(view, E_VERSION),
        e_entry: u64_at(view, E_ENTRY),
        e_phoff: u64_at(view, E_PHOFF_64),
        e_phentsize: u16_at(view, E_PHENTSIZE_64),
        e_phnum: u16_at(view, E_PHNUM_64),
    }
}

#[tactic(auto, unfolding(crate::specs::Header::field_fault))]
fn check_fields(size: u64, header: Header) -> Result<(), ElfFault>
    ensures { MatchResult result
        (λ _. spec.field_fault size header ≡ None)
        (λ fault. spec.field_fault size header ≡ Some fault) }
{
    if header.e_type != ET_EXEC && header.e_type != ET_DYN {
        return Err(ElfFault::BadElf);
    }
    if header.e_machine != header.class.required_machine() {
        return Err(ElfFault::BadElf);
    }
    if header.e_version != EV_CURRENT {
        return Err(ElfFault::BadElf);
    }
    if header.e_phnum > MAX_PROGRAM_HEADERS {
        return Err(ElfFault::BadElf);
    }
    if !has_table(size, header) {
        return Err(ElfFault::BadElf);
    }
    Ok(())
}

fn has_table(size: u64, header: Header) -> bool
    ensures { result ≡ spec.has_table size header }
{
    if header.e_phnum == 0 {
        return true;
    }
    if header.e_phentsize < header.class.program_header_size() {
        return false;
    }
    let table_size = header.e_phnum as u64 * header.e_phentsize as u64;
    ends_within(header.e_phoff, table_size, size)
}
