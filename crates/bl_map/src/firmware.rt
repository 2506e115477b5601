//! What firmware tells of a machine beside its memory.
mod checks;
mod efi;
mod limits;
mod owned;
mod owned_tables;
mod screen;

pub(crate) use checks::firmware_fault;
pub use efi::{Efi, EfiBits, EfiInfo, SecureBoot};
pub use limits::{
    MAX_AVOIDED, MAX_EFI_MAP, MAX_SMBIOS, RSDP_LENGTH, are_descriptors, is_efi_map_place,
    is_efi_map_size, is_smbios_size, is_system_table,
};
pub use owned::OwnedFirmware;
pub use owned_tables::{OwnedEfi, OwnedSmbios};
pub use screen::{ColorField, Screen};
use std::marker::Model;
use std::ops::Range;

/// The tables of SMBIOS as they stand, 1 byte to 64 KiB, and the version that they have.
#[derive(Drop)]
pub struct Smbios<'f> {
    pub major: u8,
    pub minor: u8,
    pub tables: &'f [u8],
}

impl<'f> Model for Smbios<'f> {
    ghost use Rattle.bl_map.specs.Firmware.{SmbiosFacts, FitsSmbiosFields};

    ghost Value = { SmbiosFacts };

    ghost view = { λ s. record { major = s.major; minor = s.minor; tables = s.tables.now } };

    ghost invariant = { λ s.
        FitsSmbiosFields record { major = s.major; minor = s.minor; tables = s.tables.now } };
}

/// What firmware tells beside memory; each may be missing.
///
/// - `rsdp`: the address of ACPI's root pointer, not 0.
/// - `avoided`: at most 128 ranges of addresses, in any order, that end at 2^52 at most: what they
///   hold is told as what it is, but nothing is placed there.
///
/// The screen's memory, the 36 bytes of the root pointer and the bytes of UEFI's memory map are not
/// usable: else a part could be placed there.
#[derive(Drop)]
pub struct Firmware<'f> {
    pub screen: Option<Screen>,
    pub rsdp: Option<u64>,
    pub efi: Option<Efi<'f>>,
    pub smbios: Option<Smbios<'f>>,
    pub avoided: &'f [Range<u64>],
}

impl<'f> Model for Firmware<'f> {
    ghost use Rattle.bl_map.specs.Firmware.{FirmwareFacts};

    ghost Value = { FirmwareFacts };

    ghost view = { λ f. record {
      screen = f.screen;
      rsdp = f.rsdp;
      efi = f.efi;
      smbios = f.smbios;
      avoided = f.avoided.now;
    } };
}

impl<'f> Firmware<'f> {
    ghost use Rattle.std.specs.Prelude.{◌≡◌};
    ghost use Rattle.bl_map.specs.Firmware.{no_firmware};

    /// It tells nothing, and nothing is avoided.
    pub fn none() -> Firmware<'f>
        ensures { result ≡ no_firmware }
    {
        Firmware {
            screen: None,
            rsdp: None,
            efi: None,
            smbios: None,
            avoided: &[],
        }
    }
}
