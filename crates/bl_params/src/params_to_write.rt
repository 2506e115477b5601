//! What a kernel is to be told.
use bl_map::{EfiInfo, Region, Screen};
use std::marker::Model;

/// What boot parameters tell a kernel beside its own header (Linux/x86 Boot Protocol). The memory
/// map stays its owner's: nothing is copied. It is kept that boot parameters have room for it: at
/// most 128 runs, each of which ends at most at 2^52; and that what firmware tells is within its
/// limits.
///
/// - `code32_start`: the address at which the kernel lies and is entered.
/// - `ramdisk_image`, `ramdisk_size`: the initrd's address and its length in bytes, 0 and 0 without
///   one.
/// - `cmd_line_ptr`: the address of the line.
/// - `runs`: the memory map.
/// - `screen`: a screen without a fault (`Screen::fault`), or none.
/// - `rsdp`: the address of ACPI's root pointer, not 0, or none.
/// - `efi`: UEFI without a fault (`EfiInfo::fault`), or none. Its memory map stays where it lies.
#[derive(Drop)]
pub struct ParamsToWrite<'a> {
    pub code32_start: u32,
    pub ramdisk_image: u32,
    pub ramdisk_size: u32,
    pub cmd_line_ptr: u32,
    pub runs: &'a [Region],
    pub screen: Option<Screen>,
    pub rsdp: Option<u64>,
    pub efi: Option<EfiInfo>,
}

impl<'a> Model for ParamsToWrite<'a> {
    ghost use Rattle.bl_params.specs.ParamsToWriteFacts.{ParamsToWriteFacts, AreE820Runs};
    ghost use Rattle.bl_params.specs.ParamsToWriteFacts.{IsToldFirmware};

    ghost Value = { ParamsToWriteFacts };

    ghost view = { λ f. record {
      code32_start = f.code32_start;
      ramdisk_image = f.ramdisk_image;
      ramdisk_size = f.ramdisk_size;
      cmd_line_ptr = f.cmd_line_ptr;
      runs = f.runs.now;
      screen = f.screen;
      rsdp = f.rsdp;
      efi = f.efi;
    } };

    ghost invariant = { λ f.
        AreE820Runs f.runs.now × IsToldFirmware f.screen f.rsdp f.efi };
}
