//! What the bodies of firmware's tags tell.
ghost use Rattle.std.specs.Prelude.{◌≡◌, ◌≤◌, ◌+◌, ◌<◌, length};
ghost use Rattle.bl_mbi.specs.ReadingSteps.{MatchesReading, or_bad};
ghost use Rattle.bl_mbi.specs.FirmwareBodies as spec;

use crate::body_reader::{are_zeros, long, word};
use crate::efi_copy::EfiCopy;
use crate::fault::InfoFault;
use crate::smbios_copy::SmbiosCopy;
use crate::tag_types::{DIRECT_COLOR, FRAMEBUFFER_BODY};
use bl_map::{
    ColorField, EfiBits, Screen, are_descriptors, is_efi_map_size, is_smbios_size, is_system_table,
};
use bl_mem::Bytes;
use std::alloc::Allocator;

fn color_at(body: &[u8], at: usize) -> ColorField
    requires { at + 1 < length body.now }
    ensures { result ≡ spec.color_at body.now at }
{
    ColorField {
        position: body[at],
        size: body[at + 1],
    }
}

fn framebuffer_in(body: &[u8]) -> Screen
    requires { length body.now ≡ FRAMEBUFFER_BODY }
    ensures { result ≡ spec.framebuffer_in body.now }
{
    Screen {
        base: long(body),
        pitch: word(&body[8..]),
        width: word(&body[12..]),
        height: word(&body[16..]),
        depth: body[20],
        red: color_at(body, 24),
        green: color_at(body, 26),
        blue: color_at(body, 28),
    }
}

/// The screen in a body.
#[tactic(auto, unfolding(crate::specs::FirmwareBodies::framebuffer_of))]
pub(crate) fn framebuffer_of(body: &[u8]) -> Option<Screen>
    ensures { result ≡ spec.framebuffer_of body.now }
{
    if body.len() != FRAMEBUFFER_BODY as usize {
        return None;
    }
    if body[21] != DIRECT_COLOR {
        return None;
    }
    if body[22] != 0 {
        return None;
    }
    if body[23] != 0 {
        return None;
    }
    let screen = framebuffer_in(body);
    if screen.fault().is_some() {
        return None;
    }
    Some(screen)
}

fn pointer_length(bits: EfiBits) -> usize
    ensures { result ≡ spec.pointer_length bits }
{
    match bits {
        EfiBits::Efi32 => 4,
        EfiBits::Efi64 => 8,
    }
}

fn first_pointer(bits: EfiBits, body: &[u8]) -> u64
    requires { length body.now ≡ spec.pointer_length bits }
    ensures { result ≡ spec.first_pointer bits body.now }
{
    match bits {
        EfiBits::Efi32 => word(body) as u64,
        EfiBits::Efi64 => long(body),
    }
}

/// The address of UEFI's system table in a body, with its bits.
#[tactic(auto, unfolding(crate::specs::FirmwareBodies::pointer_of))]
pub(crate) fn pointer_of(bits: EfiBits, body: &[u8]) -> Option<(EfiBits, u64)>
    ensures { result ≡ spec.pointer_of bits body.now }
{
    if body.len() != pointer_length(bits) {
        return None;
    }
    let pointer = first_pointer(bits, body);
    if !is_system_table(bits, pointer) {
        return None;
    }
    Some((bits, pointer))
}

/// SMBIOS's tables in a body.
#[tactic(auto, unfolding(crate::specs::FirmwareBodies::smbios_of))]
pub(crate) fn smbios_of<A: Allocator>(
    alloc: A,
    at: u64,
    body: &[u8],
) -> Result<SmbiosCopy<A>, InfoFault>
    ensures { MatchesReading (λ smbios. smbios) result (or_bad at (spec.smbios_of body.now)) }
{
    if body.len() < 8 {
        return Err(InfoFault::BadTag(at));
    }
    if !are_zeros(&body[2..8]) {
        return Err(InfoFault::BadTag(at));
    }
    let tables = &body[8..];
    if !is_smbios_size(tables.len() as u64) {
        return Err(InfoFault::BadTag(at));
    }
    Ok(SmbiosCopy {
        major: body[0],
        minor: body[1],
        tables: Bytes::copy(alloc, tables)?,
    })
}

/// UEFI's memory map in a body, with the address of the system table.
#[tactic(auto, unfolding(crate::specs::FirmwareBodies::efi_tables_of))]
pub(crate) fn efi_tables_of<A: Allocator>(
    alloc: A,
    pointer: (EfiBits, u64),
    at: u64,
    body: &[u8],
) -> Result<EfiCopy<A>, InfoFault>
    ensures { MatchesReading (λ efi. efi) result (or_bad at (spec.efi_tables_of pointer body.now)) }
{
    if body.len() < 8 {
        return Err(InfoFault::BadTag(at));
    }
    let descriptor_size = word(body);
    let descriptor_version = word(&body[4..]);
    let map = &body[8..];
    if !are_descriptors(descriptor_size, descriptor_version) {
        return Err(InfoFault::BadTag(at));
    }
    if !is_efi_map_size(descriptor_size, map.len() as u64) {
        return Err(InfoFault::BadTag(at));
    }
    let (bits, system_table) = pointer;
    Ok(EfiCopy {
        bits,
        system_table,
        descriptor_size,
        descriptor_version,
        map: Bytes::copy(alloc, map)?,
    })
}
