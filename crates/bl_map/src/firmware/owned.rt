//! A copy of what firmware tells, which a machine keeps.
use crate::firmware::Firmware;
use crate::firmware::owned_tables::{
    OwnedEfi, OwnedSmbios, copy_efi, copy_ranges, copy_smbios, lend_efi, lend_smbios,
};
use crate::firmware::screen::Screen;
use std::alloc::{AllocError, Allocator};
use std::marker::Model;
use std::ops::Range;

/// What firmware tells, as `Firmware` has it, with its own copies.
#[derive(Drop)]
pub struct OwnedFirmware<A: Allocator> {
    pub screen: Option<Screen>,
    pub rsdp: Option<u64>,
    pub efi: Option<OwnedEfi<A>>,
    pub smbios: Option<OwnedSmbios<A>>,
    pub avoided: Vec<Range<u64>, A>,
}

impl<A: Allocator> Model for OwnedFirmware<A> {
    ghost use Rattle.bl_map.specs.Firmware.{FirmwareFacts};

    ghost Value = { FirmwareFacts };

    ghost view = { λ f. record {
      screen = f.screen;
      rsdp = f.rsdp;
      efi = f.efi;
      smbios = f.smbios;
      avoided = f.avoided.items;
    } };
}

impl<A: Allocator> OwnedFirmware<A> {
    ghost use Rattle.std.specs.Prelude.{◌≡◌, IfOk, OnOk};
    ghost use Rattle.bl_map.specs.Firmware.{FitsFirmwareFields};

    /// A copy, or that memory for it was refused.
    pub fn copy(alloc: A, firmware: &Firmware<'_>) -> Result<OwnedFirmware<A>, AllocError>
    where
        A: Copy,
        ensures copy { IfOk result (λ copy. copy ≡ firmware.now) }
        ensures fits { OnOk result (FitsFirmwareFields firmware.now) }
    {
        Ok(OwnedFirmware {
            screen: firmware.screen,
            rsdp: firmware.rsdp,
            efi: copy_efi(alloc, &firmware.efi)?,
            smbios: copy_smbios(alloc, &firmware.smbios)?,
            avoided: copy_ranges(alloc, firmware.avoided)?,
        })
    }

    /// The ranges that are avoided.
    pub(crate) fn avoided(&self) -> &[Range<u64>]
        ensures { result.now ≡ self.now.avoided }
    {
        self.avoided.as_slice()
    }

    /// What is told, which stays here.
    pub fn lend(&self) -> Firmware<'_>
        ensures { result ≡ self.now }
    {
        Firmware {
            screen: self.screen,
            rsdp: self.rsdp,
            efi: lend_efi(&self.efi),
            smbios: lend_smbios(&self.smbios),
            avoided: self.avoided.as_slice(),
        }
    }
}
