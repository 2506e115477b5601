//! What boot parameters tell to their reader.
use bl_map::{EfiInfo, Region, Screen};
use std::alloc::Allocator;
use std::marker::Model;

/// What boot parameters tell, by the boot protocol's names (Linux/x86 Boot Protocol, "Details of
/// Header Fields"): where the kernel, the initrd and the line are, what the kernel's header says of
/// itself, the memory map, and what firmware tells ("Zero Page").
///
/// Addresses and lengths are in bytes; an initrd of length 0 is none. `xloadflags` has a meaning
/// from version 2.12 on. `rsdp` is the address of ACPI's root pointer.
#[derive(Drop)]
pub struct Params<A: Allocator> {
    pub version: u16,
    pub loadflags: u8,
    pub code32_start: u32,
    pub ramdisk_image: u32,
    pub ramdisk_size: u32,
    pub cmd_line_ptr: u32,
    pub initrd_addr_max: u32,
    pub kernel_alignment: u32,
    pub relocatable_kernel: u8,
    pub xloadflags: u16,
    pub cmdline_size: u32,
    pub pref_address: u64,
    pub init_size: u32,
    pub runs: Vec<Region, A>,
    pub screen: Option<Screen>,
    pub rsdp: Option<u64>,
    pub efi: Option<EfiInfo>,
}

impl<A: Allocator> Model for Params<A> {
    ghost use Rattle.bl_params.specs.ParamsFacts.{ParamsFacts};

    ghost Value = { ParamsFacts };

    ghost view = { λ p. record {
      version = p.version;
      loadflags = p.loadflags;
      code32_start = p.code32_start;
      ramdisk_image = p.ramdisk_image;
      ramdisk_size = p.ramdisk_size;
      cmd_line_ptr = p.cmd_line_ptr;
      initrd_addr_max = p.initrd_addr_max;
      kernel_alignment = p.kernel_alignment;
      relocatable_kernel = p.relocatable_kernel;
      xloadflags = p.xloadflags;
      cmdline_size = p.cmdline_size;
      pref_address = p.pref_address;
      init_size = p.init_size;
      runs = p.runs.items;
      screen = p.screen;
      rsdp = p.rsdp;
      efi = p.efi;
    } };
}
