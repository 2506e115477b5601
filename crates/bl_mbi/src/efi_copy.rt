//! What boot information tells of UEFI, as it was read.
use bl_map::EfiBits;
use bl_mem::Bytes;
use std::alloc::Allocator;
use std::marker::Model;

/// The address of UEFI's system table, and its memory map (Multiboot2 3.6, sections "EFI 32-bit
/// system table pointer", "EFI 64-bit system table pointer" and "EFI memory map"), within the
/// limits of a machine's `Efi`. `map` is a copy of the whole map; `descriptor_size` is how many
/// bytes each of its descriptors has.
#[derive(Drop)]
pub struct EfiCopy<A: Allocator> {
    pub bits: EfiBits,
    pub system_table: u64,
    pub descriptor_size: u32,
    pub descriptor_version: u32,
    pub map: Bytes<A>,
}

impl<A: Allocator> Model for EfiCopy<A> {
    ghost use Rattle.bl_mbi.specs.InfoToWriteFacts.{EfiTables};

    ghost Value = { EfiTables };

    ghost view = { λ efi. record {
      bits = efi.bits;
      system_table = efi.system_table;
      descriptor_size = efi.descriptor_size;
      descriptor_version = efi.descriptor_version;
      map = efi.map;
    } };
}
