//! What is told of UEFI.
ghost use Rattle.std.specs.Prelude.{◌≡◌};

use crate::fault::MapFault;
use crate::firmware::limits::{
    are_descriptors, is_efi_map_place, is_efi_map_size, is_low_table, is_system_table,
};
use std::marker::Model;

/// How wide the addresses of UEFI's tables are, and the mode in which its services are called.
#[derive(Clone, Copy, Debug, PartialEq, Eq)]
pub enum EfiBits {
    Efi32,
    Efi64,
}

impl EfiBits {
    ghost use Rattle.bl_map.specs.FirmwareNumbers.{efi_bits_number, efi_bits_of};

    /// How many bits: 32 or 64.
    pub fn number(self) -> u32
        ensures { result ≡ efi_bits_number self }
    {
        match self {
            EfiBits::Efi32 => 32,
            EfiBits::Efi64 => 64,
        }
    }

    /// What has so many bits, or none for another number than 32 and 64.
    #[tactic(auto, unfolding(crate::specs::FirmwareNumbers::efi_bits_of))]
    pub fn from_number(number: u32) -> Option<EfiBits>
        ensures { result ≡ efi_bits_of number }
    {
        match number {
            32 => Some(EfiBits::Efi32),
            64 => Some(EfiBits::Efi64),
            _ => None,
        }
    }
}

/// Whether the firmware lets only signed programs start. `Unset` is what Linux takes for "not
/// told" (`enum efi_secureboot_mode`).
#[derive(Clone, Copy, Debug, PartialEq, Eq)]
pub enum SecureBoot {
    Unset,
    Unknown,
    Disabled,
    Enabled,
}

impl SecureBoot {
    ghost use Rattle.bl_map.specs.FirmwareNumbers.{secure_boot_number, secure_boot_of};

    /// Its number, 0 to 3.
    pub fn number(self) -> u32
        ensures { result ≡ secure_boot_number self }
    {
        match self {
            SecureBoot::Unset => 0,
            SecureBoot::Unknown => 1,
            SecureBoot::Disabled => 2,
            SecureBoot::Enabled => 3,
        }
    }

    /// The state of a number, or none of another number than 0 to 3.
    #[tactic(auto, unfolding(crate::specs::FirmwareNumbers::secure_boot_of))]
    pub fn from_number(number: u32) -> Option<SecureBoot>
        ensures { result ≡ secure_boot_of number }
    {
        match number {
            0 => Some(SecureBoot::Unset),
            1 => Some(SecureBoot::Unknown),
            2 => Some(SecureBoot::Disabled),
            3 => Some(SecureBoot::Enabled),
            _ => None,
        }
    }
}

/// What boot parameters tell of UEFI: its system table, where its memory map lies, how many bytes
/// that and one of its descriptors have.
#[derive(Clone, Copy, Debug, PartialEq, Eq)]
pub struct EfiInfo {
    pub bits: EfiBits,
    pub system_table: u64,
    pub map_address: u64,
    pub map_size: u64,
    pub descriptor_size: u32,
    pub descriptor_version: u32,
    pub secure_boot: SecureBoot,
}

impl EfiInfo {
    ghost use Rattle.bl_map.specs.FirmwareLimits.{efi_fault, machine_efi_fault};

    /// The first of these limits that is broken, if one is; those of `Efi` are meant.
    /// - `BadSystemTable`: where the system table lies.
    /// - `BadDescriptors`: the size or the version of descriptors.
    /// - `BadEfiMapSize`: how many bytes the map has.
    /// - `BadEfiMapPlace`: where the map lies.
    #[tactic(auto, unfolding(crate::specs::FirmwareLimits::efi_fault))]
    pub fn fault(&self) -> Option<MapFault>
        ensures { result ≡ efi_fault self.now }
    {
        if !is_system_table(self.bits, self.system_table) {
            return Some(MapFault::BadSystemTable);
        }
        if !are_descriptors(self.descriptor_size, self.descriptor_version) {
            return Some(MapFault::BadDescriptors);
        }
        if !is_efi_map_size(self.descriptor_size, self.map_size) {
            return Some(MapFault::BadEfiMapSize);
        }
        if !is_efi_map_place(self.map_address, self.map_size) {
            return Some(MapFault::BadEfiMapPlace);
        }
        None
    }

    /// The first of them that is broken in a machine, whose system table ends at 2^52 at most:
    /// where it does not, this is `BadSystemTable`.
    #[tactic(auto, unfolding(crate::specs::FirmwareLimits::machine_efi_fault))]
    pub(crate) fn machine_fault(&self) -> Option<MapFault>
        ensures { result ≡ machine_efi_fault self.now }
    {
        if !is_low_table(self.system_table) {
            return Some(MapFault::BadSystemTable);
        }
        self.fault()
    }
}

/// UEFI, with the bytes of its memory map as they lie at `map_address` (UEFI Specification 7.2,
/// GetMemoryMap).
///
/// - `system_table`: its address, not 0; with `Efi32` below 4 GiB.
/// - `map_address`: a multiple of 8, not 0. The map ends at 4 GiB at most.
/// - `map`: one descriptor at least and no part of one, at most 64 KiB.
/// - `descriptor_size`: at least 40, a multiple of 8.
/// - `descriptor_version`: 1.
#[derive(Drop)]
pub struct Efi<'f> {
    pub bits: EfiBits,
    pub system_table: u64,
    pub map_address: u64,
    pub map: &'f [u8],
    pub descriptor_size: u32,
    pub descriptor_version: u32,
    pub secure_boot: SecureBoot,
}

impl<'f> Model for Efi<'f> {
    ghost use Rattle.bl_map.specs.Firmware.{EfiFacts, FitsEfiFields};

    ghost Value = { EfiFacts };

    ghost view = { λ e. record {
      bits = e.bits;
      system_table = e.system_table;
      map_address = e.map_address;
      map = e.map.now;
      descriptor_size = e.descriptor_size;
      descriptor_version = e.descriptor_version;
      secure_boot = e.secure_boot;
    } };

    ghost invariant = { λ e. FitsEfiFields record {
      bits = e.bits;
      system_table = e.system_table;
      map_address = e.map_address;
      map = e.map.now;
      descriptor_size = e.descriptor_size;
      descriptor_version = e.descriptor_version;
      secure_boot = e.secure_boot;
    } };
}

impl<'f> Efi<'f> {
    ghost use Rattle.bl_map.specs.Firmware.{efi_info};

    /// The same with the map's length in place of its bytes.
    pub fn info(&self) -> EfiInfo
        ensures { result ≡ efi_info self.now }
    {
        EfiInfo {
            bits: self.bits,
            system_table: self.system_table,
            map_address: self.map_address,
            map_size: self.map.len() as u64,
            descriptor_size: self.descriptor_size,
            descriptor_version: self.descriptor_version,
            secure_boot: self.secure_boot,
        }
    }
}
