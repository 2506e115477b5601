//! Each tag of boot information that may be missing, read where it stands.
ghost use Rattle.std.specs.Prelude.{◌≡◌};
ghost use Rattle.bl_mbi.specs.ReadingSteps.{MatchesReading};
ghost use Rattle.bl_mbi.specs.internal.BytesLeft.{rest_facts, with_rest};
ghost use Rattle.bl_mbi.specs.Bodies as bodies;
ghost use Rattle.bl_mbi.specs.FirmwareBodies as firmware_bodies;
ghost use Rattle.bl_mbi.specs.Reading as spec;
ghost use Rattle.bl_mbi.specs.ReadingSteps as fields;
ghost use Rattle.bl_mbi.specs.Tags as tags;

use crate::body_reader::load_base_of;
use crate::efi_copy::EfiCopy;
use crate::fault::InfoFault;
use crate::firmware_body_reader::{efi_tables_of, framebuffer_of, pointer_of, smbios_of};
use crate::rest::Rest;
use crate::smbios_copy::SmbiosCopy;
use crate::tag_reader::{is_next, tag_at};
use crate::tag_types::{
    TAG_EFI_MAP, TAG_EFI32, TAG_EFI64, TAG_FRAMEBUFFER, TAG_LOAD_BASE, TAG_SMBIOS,
};
use bl_map::{EfiBits, Screen};
use bl_mem::Bytes;
use std::alloc::Allocator;

/// The screen.
#[tactic(auto, unfolding(crate::specs::ReadingSteps::optional_at))]
pub(crate) fn screen_at<'a>(rest: Rest<'a>) -> Result<(Option<Screen>, Rest<'a>), InfoFault>
    ensures { MatchesReading with_rest result
        (fields.optional_at TAG_FRAMEBUFFER firmware_bodies.framebuffer_of
        (rest_facts rest.entry)) }
{
    if !is_next(TAG_FRAMEBUFFER, rest) {
        return Ok((None, rest));
    }
    let (body, after) = tag_at(TAG_FRAMEBUFFER, rest)?;
    let Some(screen) = framebuffer_of(body) else {
        return Err(InfoFault::BadTag(rest.at));
    };
    Ok((Some(screen), after))
}

/// With which bits UEFI's system table is told, where it is told.
fn next_bits(rest: Rest) -> EfiBits
    ensures { result ≡ spec.next_bits (rest_facts rest.entry) }
{
    if is_next(TAG_EFI32, rest) {
        EfiBits::Efi32
    } else {
        EfiBits::Efi64
    }
}

fn pointer_type(bits: EfiBits) -> u32
    ensures { result ≡ tags.pointer_type bits }
{
    match bits {
        EfiBits::Efi32 => TAG_EFI32,
        EfiBits::Efi64 => TAG_EFI64,
    }
}

/// The bits and the address of UEFI's system table.
#[tactic(auto, unfolding(crate::specs::ReadingSteps::optional_at))]
pub(crate) fn pointer_at<'a>(
    rest: Rest<'a>,
) -> Result<(Option<(EfiBits, u64)>, Rest<'a>), InfoFault>
    ensures { MatchesReading with_rest result (spec.pointer_at (rest_facts rest.entry)) }
{
    let bits = next_bits(rest);
    let kind = pointer_type(bits);
    if !is_next(kind, rest) {
        return Ok((None, rest));
    }
    let (body, after) = tag_at(kind, rest)?;
    let Some(pointer) = pointer_of(bits, body) else {
        return Err(InfoFault::BadTag(rest.at));
    };
    Ok((Some(pointer), after))
}

/// SMBIOS's tables.
#[tactic(auto, unfolding(crate::specs::ReadingSteps::optional_at))]
pub(crate) fn smbios_at<'a, A: Allocator>(
    alloc: A,
    rest: Rest<'a>,
) -> Result<(Option<SmbiosCopy<A>>, Rest<'a>), InfoFault>
    ensures { MatchesReading with_rest result
        (fields.optional_at TAG_SMBIOS firmware_bodies.smbios_of (rest_facts rest.entry)) }
{
    if !is_next(TAG_SMBIOS, rest) {
        return Ok((None, rest));
    }
    let (body, after) = tag_at(TAG_SMBIOS, rest)?;
    Ok((Some(smbios_of(alloc, rest.at, body)?), after))
}

/// The copy in a tag of this type.
#[tactic(auto, unfolding(crate::specs::ReadingSteps::optional_at))]
pub(crate) fn copy_at<'a, A: Allocator>(
    alloc: A,
    kind: u32,
    rest: Rest<'a>,
) -> Result<(Option<Bytes<A>>, Rest<'a>), InfoFault>
    ensures { MatchesReading with_rest result
        (fields.optional_at kind firmware_bodies.copy_of (rest_facts rest.entry)) }
{
    if !is_next(kind, rest) {
        return Ok((None, rest));
    }
    let (body, after) = tag_at(kind, rest)?;
    Ok((Some(Bytes::copy(alloc, body)?), after))
}

/// UEFI's memory map, which stands only where the system table was told.
#[tactic(auto, unfolding(crate::specs::ReadingSteps::required_at))]
pub(crate) fn efi_at<'a, A: Allocator>(
    alloc: A,
    pointer: Option<(EfiBits, u64)>,
    rest: Rest<'a>,
) -> Result<(Option<EfiCopy<A>>, Rest<'a>), InfoFault>
    ensures { MatchesReading with_rest result (spec.efi_at pointer (rest_facts rest.entry)) }
{
    let Some(pointer) = pointer else {
        return Ok((None, rest));
    };
    let (body, after) = tag_at(TAG_EFI_MAP, rest)?;
    Ok((Some(efi_tables_of(alloc, pointer, rest.at, body)?), after))
}

/// The load base.
#[tactic(auto, unfolding(crate::specs::ReadingSteps::optional_at))]
pub(crate) fn load_base_at<'a>(rest: Rest<'a>) -> Result<(Option<u32>, Rest<'a>), InfoFault>
    ensures { MatchesReading with_rest result
        (fields.optional_at TAG_LOAD_BASE bodies.load_base_of (rest_facts rest.entry)) }
{
    if !is_next(TAG_LOAD_BASE, rest) {
        return Ok((None, rest));
    }
    let (body, after) = tag_at(TAG_LOAD_BASE, rest)?;
    let Some(load_base) = load_base_of(body) else {
        return Err(InfoFault::BadTag(rest.at));
    };
    Ok((Some(load_base), after))
}
