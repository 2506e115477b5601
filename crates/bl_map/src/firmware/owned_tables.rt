//! Copies of the tables that firmware tells.
ghost use Rattle.std.specs.Prelude.{◌≡◌, IfOk, IfSome};
ghost use Rattle.bl_map.specs.Firmware.{FitsEfiFields, FitsSmbiosFields};

use crate::firmware::Smbios;
use crate::firmware::efi::{Efi, EfiBits, SecureBoot};
use std::alloc::{AllocError, Allocator};
use std::marker::Model;
use std::ops::Range;

/// UEFI, as `Efi` has it, with its own copy of the memory map.
#[derive(Drop)]
pub struct OwnedEfi<A: Allocator> {
    pub bits: EfiBits,
    pub system_table: u64,
    pub map_address: u64,
    pub map: Vec<u8, A>,
    pub descriptor_size: u32,
    pub descriptor_version: u32,
    pub secure_boot: SecureBoot,
}

impl<A: Allocator> Model for OwnedEfi<A> {
    ghost use Rattle.bl_map.specs.Firmware.{EfiFacts, FitsEfiFields};

    ghost Value = { EfiFacts };

    ghost view = { λ e. record {
      bits = e.bits;
      system_table = e.system_table;
      map_address = e.map_address;
      map = e.map.items;
      descriptor_size = e.descriptor_size;
      descriptor_version = e.descriptor_version;
      secure_boot = e.secure_boot;
    } };

    ghost invariant = { λ e. FitsEfiFields record {
      bits = e.bits;
      system_table = e.system_table;
      map_address = e.map_address;
      map = e.map.items;
      descriptor_size = e.descriptor_size;
      descriptor_version = e.descriptor_version;
      secure_boot = e.secure_boot;
    } };
}

/// SMBIOS, as `Smbios` has it, with its own copy of the tables.
#[derive(Drop)]
pub struct OwnedSmbios<A: Allocator> {
    pub major: u8,
    pub minor: u8,
    pub tables: Vec<u8, A>,
}

impl<A: Allocator> Model for OwnedSmbios<A> {
    ghost use Rattle.bl_map.specs.Firmware.{SmbiosFacts, FitsSmbiosFields};

    ghost Value = { SmbiosFacts };

    ghost view = { λ s. record { major = s.major; minor = s.minor; tables = s.tables.items } };

    ghost invariant = { λ s.
        FitsSmbiosFields record { major = s.major; minor = s.minor; tables = s.tables.items } };
}

pub fn copy_efi<A: Allocator>(
    alloc: A,
    told: &Option<Efi<'_>>,
) -> Result<Option<OwnedEfi<A>>, AllocError>
    ensures copy { IfOk result (λ copy. copy ≡ told.now) }
    ensures fits { IfOk result (λ copy. IfSome copy FitsEfiFields) }
{
    let Some(efi) = told else {
        return Ok(None);
    };
    Ok(Some(OwnedEfi {
        bits: efi.bits,
        system_table: efi.system_table,
        map_address: efi.map_address,
        map: Vec::from_slice(alloc, efi.map)?,
        descriptor_size: efi.descriptor_size,
        descriptor_version: efi.descriptor_version,
        secure_boot: efi.secure_boot,
    }))
}

pub fn copy_smbios<A: Allocator>(
    alloc: A,
    told: &Option<Smbios<'_>>,
) -> Result<Option<OwnedSmbios<A>>, AllocError>
    ensures copy { IfOk result (λ copy. copy ≡ told.now) }
    ensures fits { IfOk result (λ copy. IfSome copy FitsSmbiosFields) }
{
    let Some(smbios) = told else {
        return Ok(None);
    };
    Ok(Some(OwnedSmbios {
        major: smbios.major,
        minor: smbios.minor,
        tables: Vec::from_slice(alloc, smbios.tables)?,
    }))
}

pub fn copy_ranges<A: Allocator>(
    alloc: A,
    ranges: &[Range<u64>],
) -> Result<Vec<Range<u64>, A>, AllocError>
    ensures { IfOk result (λ copy. copy.items ≡ ranges.now) }
{
    let mut copy = Vec::with_capacity(alloc, ranges.len())?;
    for range in ranges {
        copy.push(range.start..range.end)?;
    }
    Ok(copy)
}

pub fn lend_efi<A: Allocator>(owned: &Option<OwnedEfi<A>>) -> Option<Efi<'_>>
    ensures { result ≡ owned.now }
{
    let Some(efi) = owned else {
        return None;
    };
    Some(Efi {
        bits: efi.bits,
        system_table: efi.system_table,
        map_address: efi.map_address,
        map: efi.map.as_slice(),
        descriptor_size: efi.descriptor_size,
        descriptor_version: efi.descriptor_version,
        secure_boot: efi.secure_boot,
    })
}

pub fn lend_smbios<A: Allocator>(owned: &Option<OwnedSmbios<A>>) -> Option<Smbios<'_>>
    ensures { result ≡ owned.now }
{
    let Some(smbios) = owned else {
        return None;
    };
    Some(Smbios {
        major: smbios.major,
        minor: smbios.minor,
        tables: smbios.tables.as_slice(),
    })
}
