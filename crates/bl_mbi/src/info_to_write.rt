//! Boot information that is to be written.
use crate::module_to_write::ModuleToWrite;
use bl_map::{Efi, Region, Screen, Smbios};
use std::marker::Model;

/// All that boot information tells but the loader's name (Multiboot2 3.6 "Boot information
/// format"). Sizes of memory are in KiB. What it tells stays its owner's: nothing is copied. It
/// always has a spelling: texts without a zero byte, `mod_start` at most `mod_end`, at most 640
/// KiB of lower memory, runs that end at most at 2^52, a screen, UEFI and SMBIOS within their
/// limits, a total size below 2^32. Of UEFI only the system table and the memory map are told.
#[derive(Drop)]
pub struct InfoToWrite<'a, 'f> {
    pub line: &'a [u8],
    pub modules: &'a [ModuleToWrite<'a>],
    pub mem_lower: u32,
    pub mem_upper: u32,
    pub runs: &'a [Region],
    pub screen: Option<Screen>,
    pub efi: Option<&'a Efi<'f>>,
    pub smbios: Option<&'a Smbios<'f>>,
    pub rsdp_old: Option<&'a [u8]>,
    pub rsdp_new: Option<&'a [u8]>,
    pub load_base: Option<u32>,
}

impl<'a, 'f> Model for InfoToWrite<'a, 'f> {
    ghost use Rattle.bl_mbi.specs.InfoToWriteFacts.{InfoToWriteFacts};

    ghost Value = { InfoToWriteFacts };

    ghost use Rattle.bl_mbi.specs.internal.FactsInside.{facts_inside, HasSpellingInside};

    ghost view = { facts_inside };

    ghost invariant = { HasSpellingInside };
}
