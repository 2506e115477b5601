//! What firmware tells, as a kernel's protocol tells it.
use bl_map::{EfiInfo, Screen};
use bl_mbi::{EfiCopy, SmbiosCopy};
use std::alloc::Allocator;
use std::marker::Model;

/// What firmware tells a kernel; each may be missing. By either protocol a screen (Multiboot2 3.6,
/// section "Framebuffer info"; Linux/x86 boot protocol, "Zero Page": "screen_info"). To Linux the
/// address of ACPI's root pointer and `efi_info` ("acpi_rsdp_addr", "efi_info", "secure_boot"). To
/// a Multiboot2 kernel UEFI's system table with a copy of its memory map, and the tables of SMBIOS
/// (3.6, sections "EFI 32-bit system table pointer", "EFI 64-bit system table pointer", "EFI memory
/// map" and "SMBIOS tables").
#[derive(Drop)]
pub struct SeenFirmware<A: Allocator> {
    pub screen: Option<Screen>,
    pub rsdp: Option<u64>,
    pub efi_info: Option<EfiInfo>,
    pub efi_tables: Option<EfiCopy<A>>,
    pub smbios: Option<SmbiosCopy<A>>,
}

impl<A: Allocator> Model for SeenFirmware<A> {
    ghost use Rattle.bl_walk.specs.SeenFacts.{SeenFirmwareFacts};

    ghost Value = { SeenFirmwareFacts };

    ghost view = { λ f. record {
      screen = f.screen;
      rsdp = f.rsdp;
      efi_info = f.efi_info;
      efi_tables = f.efi_tables;
      smbios = f.smbios;
    } };
}
