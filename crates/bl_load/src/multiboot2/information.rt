//! The information that a Multiboot2 kernel is handed.
ghost use Rattle.std.specs.Prelude.{◌≡◌, ◌≤◌, ◌<◌, ◌+◌, ◌^◌, None, All, length, map, sum_by, codes};
ghost use Rattle.std.specs.Prelude.{option_map, option_copied, IfOk, IfSome};
ghost use Rattle.bl_mbi.specs.InfoToWriteFacts.{AreBytes, IsModule, IsText};
ghost use Rattle.bl_mbi.specs.Size.{tag_size};
ghost use Rattle.bl_mbi.specs.Spelling.{info_spelling};
ghost use Rattle.bl_plan.specs.declared.part.Role.TheVariants as role;
ghost use Rattle.bl_load.specs.Addresses.{address_of};
ghost use Rattle.bl_load.specs.EntryValue.{line_fault};
ghost use Rattle.bl_load.specs.Rows.{told_modules, information_of};
ghost use Rattle.bl_load.specs.internal.Multiboot2Entries.{lines_of_modules};
ghost use Rattle.bl_load.specs.internal.Placing.{EndsLow};
ghost use Rattle.bl_load.specs.internal.Told.{info_with, module_info, HasModulesAt};
ghost use Rattle.bl_load.specs.internal.CheckedEntries.{texts_in, value_of_files};
ghost use Rattle.bl_map.specs.Limits.{usable_limit};

use crate::addresses;
use crate::checked_entry::CheckedEntry;
use bl_map::{Efi, Firmware, Screen, Smbios};
use bl_mb2head::Relocation;
use bl_mbi::{InfoToWrite, ModuleToWrite, write_info};
use bl_mem::{ByteView, Bytes};
use bl_plan::{Place, Role};
use std::alloc::{AllocError, Allocator};

/// A line that has no fault, as it is told.
fn text_of(line: &[u8]) -> &[u8]
    requires sound { line_fault line.now ≡ None }
    ensures same { result.now ≡ line.now }
    ensures text { IsText line.now }
{
    line
}

/// What the information tells of the module of this line, whose file has `size` bytes, where the
/// parts have these places.
fn module_at<'a>(index: u32, line: &'a [u8], size: u64, places: &[Place]) -> ModuleToWrite<'a>
    requires sound { line_fault line.now ≡ None }
    requires low { All EndsLow places.now }
    requires end { address_of role.Module index places.now + size ≤ usable_limit }
    ensures told { result ≡ module_info index line.now size places.now }
    ensures fits { IsModule result }
{
    let mod_start = addresses::address_of(Role::Module, index, places);
    ModuleToWrite {
        mod_start,
        mod_end: mod_start + size as u32,
        line: text_of(line),
    }
}

/// What the information tells of the modules, where the parts have these places.
fn modules_at<'a, A: Allocator, V: ByteView>(
    alloc: A,
    entry: &'a CheckedEntry<'_, A, V>,
    places: &[Place],
) -> Result<Vec<ModuleToWrite<'a>, A>, AllocError>
    requires { HasModulesAt entry.now places.now }
    ensures told { IfOk result (λ told. told.items
        ≡ told_modules (texts_in entry.now) places.now 0 (lines_of_modules entry.now.modules.now)) }
    ensures fits { IfOk result (λ told. All IsModule told.items) }
{
    let mut told = Vec::with_capacity(alloc, entry.modules.len())?;
    for (index, module) in entry.modules.iter().enumerate() {
        let line = module.line.as_slice();
        let size = entry.files[index + 1].len();
        told.push(module_at(index as u32, line, size, places))?;
    }
    Ok(told)
}

/// The bytes of a copy, if there is one.
fn bytes_of<A: Allocator>(copy: &Option<Bytes<A>>) -> Option<&[u8]>
    ensures same { option_copied result ≡ copy.now }
    ensures bytes { IfSome copy.now AreBytes }
{
    match copy {
        Some(bytes) => {
            // For the proof: each number is below 256.
            bytes.are_bytes();
            Some(bytes.as_slice())
        }
        None => None,
    }
}

/// What the information tells, with these modules.
fn facts_of<'a, 'f, A: Allocator, V: ByteView>(
    entry: &'a CheckedEntry<'_, A, V>,
    modules: &'a [ModuleToWrite<'a>],
    screen: Option<Screen>,
    efi: Option<&'a Efi<'f>>,
    smbios: Option<&'a Smbios<'f>>,
    load_base: Option<u32>,
) -> InfoToWrite<'a, 'f>
    requires screen { screen ≡ entry.now.machine.now.firmware.screen }
    requires efi { option_copied efi ≡ entry.now.machine.now.firmware.efi }
    requires smbios { option_copied smbios ≡ entry.now.machine.now.firmware.smbios }
    requires modules { All IsModule modules.now }
    requires small { sum_by (λ n. tag_size (n + 9)) (map (λ m. length m.line) modules.now)
        < 2 ^ 20 }
    requires base { IfSome load_base (λ base. base < 2 ^ 32) }
    ensures { result ≡ info_with entry.now modules.now load_base }
{
    InfoToWrite {
        line: text_of(entry.line),
        modules,
        mem_lower: entry.machine.low_kib() as u32,
        mem_upper: entry.machine.high_kib() as u32,
        runs: entry.machine.normal(),
        screen,
        efi,
        smbios,
        rsdp_old: bytes_of(entry.rsdp_old),
        rsdp_new: bytes_of(entry.rsdp_new),
        load_base,
    }
}

/// The load base that the information tells: only where the kernel has a relocatable header tag.
fn load_base_of(relocation: &Option<Relocation>, base: u32) -> Option<u32>
    ensures value { result ≡ option_map (λ r. base) relocation.now }
    ensures below { IfSome result (λ base. base < 2 ^ 32) }
{
    match relocation {
        Some(_) => Some(base),
        None => None,
    }
}

/// The information's bytes, where the parts have these places.
pub fn information<A: Allocator + Copy, V: ByteView>(
    alloc: A,
    entry: &CheckedEntry<'_, A, V>,
    relocation: &Option<Relocation>,
    places: &[Place],
) -> Result<Bytes<A>, AllocError>
    requires { HasModulesAt entry.now places.now }
    ensures { IfOk result (λ bytes. bytes
        ≡ info_spelling (codes "bootcore") (information_of entry.now.machine.now
        (value_of_files entry.now) relocation.now places.now)) }
{
    let base = addresses::address_of(Role::Kernel, 0, places);
    let load_base = load_base_of(relocation, base);
    let told = modules_at(alloc, entry, places)?;
    let Firmware {
        screen,
        efi,
        smbios,
        ..
    } = entry.machine.firmware();
    let told = told.as_slice();
    let facts = facts_of(
        entry,
        told,
        screen,
        efi.as_ref(),
        smbios.as_ref(),
        load_base,
    );
    let mut out = Vec::new(alloc);
    write_info(&facts, &mut out)?;
    Ok(Bytes::from(out))
}
