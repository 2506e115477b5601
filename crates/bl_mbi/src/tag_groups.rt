//! The groups of tags, each read where it stands.
ghost use Rattle.bl_mbi.specs.ReadingSteps.{MatchesReading};
ghost use Rattle.bl_mbi.specs.internal.BytesLeft.{rest_facts};
ghost use Rattle.bl_mbi.specs.Reading as spec;

use crate::efi_copy::EfiCopy;
use crate::fault::InfoFault;
use crate::module::Module;
use crate::optional_tag_reader::{copy_at, efi_at, pointer_at, smbios_at};
use crate::rest::Rest;
use crate::smbios_copy::SmbiosCopy;
use crate::tag_reader::{map_at, memory_at, modules_at, text_tag_at};
use crate::tag_types::{TAG_ACPI_NEW, TAG_ACPI_OLD, TAG_BOOT_LOADER_NAME, TAG_COMMAND_LINE};
use bl_map::Region;
use bl_mem::Bytes;
use std::alloc::Allocator;

/// The tables of firmware, each a copy: UEFI's, SMBIOS's, and ACPI's old and new root.
#[derive(Drop)]
pub(crate) struct Tables<A: Allocator> {
    pub(crate) efi: Option<EfiCopy<A>>,
    pub(crate) smbios: Option<SmbiosCopy<A>>,
    pub(crate) rsdp_old: Option<Bytes<A>>,
    pub(crate) rsdp_new: Option<Bytes<A>>,
}

/// The texts: the line, the loader's name, the modules.
#[tactic(auto, unfolding(crate::specs::Reading::text_and_module_tags_at))]
pub(crate) fn text_and_module_tags_at<'a, A: Allocator + Copy>(
    alloc: A,
    rest: Rest<'a>,
) -> Result<((Bytes<A>, Bytes<A>, Vec<Module<A>, A>), Rest<'a>), InfoFault>
    ensures { MatchesReading (λ x. ((x.0.0, x.0.1, x.0.2.items), rest_facts x.1)) result
        (spec.text_and_module_tags_at (rest_facts rest.entry)) }
{
    let (line, rest) = text_tag_at(alloc, TAG_COMMAND_LINE, rest)?;
    let (name, rest) = text_tag_at(alloc, TAG_BOOT_LOADER_NAME, rest)?;
    let (modules, rest) = modules_at(alloc, rest)?;
    Ok(((line, name, modules), rest))
}

/// The tags of memory: its sizes, its map.
#[tactic(auto, unfolding(crate::specs::Reading::memory_tags_at))]
pub(crate) fn memory_tags_at<'a, A: Allocator>(
    alloc: A,
    rest: Rest<'a>,
) -> Result<(((u32, u32), Vec<Region, A>), Rest<'a>), InfoFault>
    ensures { MatchesReading (λ x. ((x.0.0, x.0.1.items), rest_facts x.1)) result
        (spec.memory_tags_at (rest_facts rest.entry)) }
{
    let (sizes, rest) = memory_at(rest)?;
    let (runs, rest) = map_at(alloc, rest)?;
    Ok(((sizes, runs), rest))
}

/// The tags of firmware's tables.
#[tactic(auto, unfolding(crate::specs::Reading::table_tags_at))]
pub(crate) fn table_tags_at<'a, A: Allocator + Copy>(
    alloc: A,
    rest: Rest<'a>,
) -> Result<(Tables<A>, Rest<'a>), InfoFault>
    ensures { MatchesReading (λ x. (
      (x.0.efi, x.0.smbios, x.0.rsdp_old, x.0.rsdp_new),
      rest_facts x.1,
    )) result (spec.table_tags_at (rest_facts rest.entry)) }
{
    let (pointer, rest) = pointer_at(rest)?;
    let (smbios, rest) = smbios_at(alloc, rest)?;
    let (rsdp_old, rest) = copy_at(alloc, TAG_ACPI_OLD, rest)?;
    let (rsdp_new, rest) = copy_at(alloc, TAG_ACPI_NEW, rest)?;
    let (efi, rest) = efi_at(alloc, pointer, rest)?;
    let tables = Tables {
        efi,
        smbios,
        rsdp_old,
        rsdp_new,
    };
    Ok((tables, rest))
}
