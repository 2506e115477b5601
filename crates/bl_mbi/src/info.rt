//! What boot information says to its reader.
use crate::efi_copy::EfiCopy;
use crate::module::Module;
use crate::smbios_copy::SmbiosCopy;
use bl_map::{Region, Screen};
use bl_mem::Bytes;
use std::alloc::Allocator;
use std::marker::Model;

/// Boot information as it was read, with the name that the loader gave itself. Sizes of memory are
/// in KiB.
#[derive(Drop)]
pub struct Info<A: Allocator> {
    pub name: Bytes<A>,
    pub line: Bytes<A>,
    pub modules: Vec<Module<A>, A>,
    pub mem_lower: u32,
    pub mem_upper: u32,
    pub runs: Vec<Region, A>,
    pub screen: Option<Screen>,
    pub efi: Option<EfiCopy<A>>,
    pub smbios: Option<SmbiosCopy<A>>,
    pub rsdp_old: Option<Bytes<A>>,
    pub rsdp_new: Option<Bytes<A>>,
    pub load_base: Option<u32>,
}

impl<A: Allocator> Model for Info<A> {
    ghost use Rattle.bl_mbi.specs.InfoFacts.{InfoFacts};

    ghost Value = { InfoFacts };

    ghost view = { λ i. record {
      name = i.name;
      facts = record {
        line = i.line;
        modules = i.modules.items;
        mem_lower = i.mem_lower;
        mem_upper = i.mem_upper;
        runs = i.runs.items;
        screen = i.screen;
        efi = i.efi;
        smbios = i.smbios;
        rsdp_old = i.rsdp_old;
        rsdp_new = i.rsdp_new;
        load_base = i.load_base;
      };
    } };
}
