//! Program headers.
ghost use Rattle.std.specs.Prelude.{◌≡◌, ◌≤◌, ◌<◌, ◌+◌, ◌^◌, Some, None, length, MatchResult};
ghost use Rattle.bl_elf.specs.internal.SoundHeader.{IsSoundHeaderOf};
ghost use Rattle.bl_elf.specs.ProgramHeaders as spec;

use crate::class::Class;
use crate::fault::ElfFault;
use crate::fields::{
    ADDRESS_END, P_FILESZ_32, P_FILESZ_64, P_MEMSZ_32, P_MEMSZ_64, P_OFFSET_32, P_OFFSET_64,
    P_PADDR_32, P_PADDR_64, P_VADDR_32, P_VADDR_64, PHDR_SIZE_32, PHDR_SIZE_64, PT_LOAD,
};
use crate::header::Header;
use crate::sums::{ends_within, is_before_end};
use bl_mem::{ByteView, Segment, u32_at, u64_at};

/// The fields of a program header that loading needs (System V gABI, "Program Header").
#[derive(Clone, Copy)]
pub struct ProgramHeader {
    pub p_type: u32,
    pub p_offset: u64,
    pub p_vaddr: u64,
    pub p_paddr: u64,
    pub p_filesz: u64,
    pub p_memsz: u64,
}

/// Program header `i` of a file.
#[tactic(auto, unfolding(crate::specs::ProgramHeaders::program_header))]
pub fn program_header<V: ByteView>(view: &V, header: Header, i: u16) -> ProgramHeader
    requires header { IsSoundHeaderOf (V.bytes view.now) header }
    requires within { i < header.e_phnum }
    ensures { result ≡ spec.program_header (V.bytes view.now) i }
{
    let place = header.e_phoff + i as u64 * header.e_phentsize as u64;
    match header.class {
        Class::Elf32 => program_header_32(view, place),
        Class::Elf64 => program_header_64(view, place),
    }
}

#[tactic(auto, unfolding(crate::specs::ProgramHeaders::program_header_at))]
fn program_header_32<V: ByteView>(view: &V, place: u64) -> ProgramHeader
    requires inside { place + PHDR_SIZE_32 ≤ length (V.bytes view.now) }
    requires short { length (V.bytes view.now) < 2 ^ 64 }
    ensures { result ≡ spec.program_header_at Class.Elf32 (V.bytes view.now) place }
{
    ProgramHeader {
        p_type: u32_at(view, place),
        p_offset: u32_at(view, place + P_OFFSET_32) as u64,
        p_vaddr: u32_at(view, place + P_VADDR_32) as u64,
        p_paddr: u32_at(view, place + P_PADDR_32) as u64,
        p_filesz: u32_at(view, place + P_FILESZ_32) as u64,
        p_memsz: u32_at(view, place + P_MEMSZ_32) as u64,
    }
}

#[tactic(auto, unfolding(crate::specs::ProgramHeaders::program_header_at))]
fn program_header_64<V: ByteView>(view: &V, place: u64) -> ProgramHeader
    requires inside { place + PHDR_SIZE_64 ≤ length (V.bytes view.now) }
    requires short { length (V.bytes view.now) < 2 ^ 64 }
    ensures { result ≡ spec.program_header_at Class.Elf64 (V.bytes view.now) place }
{
    ProgramHeader {
        p_type: u32_at(view, place),
        p_offset: u64_at(view, place + P_OFFSET_64),
        p_vaddr: u64_at(view, place + P_VADDR_64),
        p_paddr: u64_at(view, place + P_PADDR_64),
        p_filesz: u64_at(view, place + P_FILESZ_64),
        p_memsz: u64_at(view, place + P_MEMSZ_64),
    }
}

impl ProgramHeader {
    /// Whether its segment is loaded, and takes memory.
    pub fn is_loadable(self) -> bool
        ensures { result ≡ spec.is_loadable self }
    {
        self.p_type == PT_LOAD && self.p_memsz != 0
    }

    /// Its segment, loaded at its physical address.
    pub fn segment(self) -> Segment
        ensures { result ≡ spec.segment_by_header self }
    {
        Segment {
            offset: self.p_offset,
            address: self.p_paddr,
            filesz: self.p_filesz,
            memsz: self.p_memsz,
        }
    }

    /// The first fault that it has as the `i`-th program header of a file of `size` bytes.
    #[tactic(auto, unfolding(crate::specs::ProgramHeaders::program_fault))]
    pub fn check(self, size: u64, i: u32) -> Result<(), ElfFault>
        ensures { MatchResult result
            (λ _. spec.program_fault size i self ≡ None)
            (λ fault. spec.program_fault size i self ≡ Some fault) }
    {
        if !self.is_loadable() {
            return Ok(());
        }
        if self.p_memsz < self.p_filesz {
            return Err(ElfFault::BadElf);
        }
        if self.p_filesz != 0 && !ends_within(self.p_offset, self.p_filesz, size) {
            return Err(ElfFault::SegmentCut(i));
        }
        if !ends_within(self.p_paddr, self.p_memsz, ADDRESS_END) {
            return Err(ElfFault::AddressTooHigh(i));
        }
        Ok(())
    }

    /// Whether it and another are loadable and share a physical byte.
    #[tactic(auto, unfolding(crate::specs::ProgramHeaders::segments_overlap))]
    pub fn shares_byte(self, other: ProgramHeader) -> bool
        ensures { result ≡ spec.segments_overlap self other }
    {
        if !self.is_loadable() {
            return false;
        }
        if !other.is_loadable() {
            return false;
        }
        if !is_before_end(self.p_paddr, other.p_paddr, other.p_memsz) {
            return false;
        }
        is_before_end(other.p_paddr, self.p_paddr, self.p_memsz)
    }

    /// Whether it is loadable and its virtual addresses hold the entry.
    pub fn is_entered(self, entry: u64) -> bool
        ensures { result ≡ spec.is_entered entry self }
    {
        if entry < self.p_vaddr {
            return false;
        }
        if !is_before_end(entry, self.p_vaddr, self.p_memsz) {
            return false;
        }
        self.is_loadable()
    }
}
