//! Whether machines and entries are ones that may be given.
ghost use Rattle.std.specs.Prelude.{◌≡◌};
ghost use Rattle.c_records.specs.GivenChecks as spec;
ghost use Rattle.c_records.specs.GivenChecks.{FindsMisuse};

use crate::firmware_records::EfiRecord;
use crate::given_records::{EntryRecord, MachineRecord, RegionRecord};
use crate::misuse::Misuse;
use bl_plan::{MAX_MODULES, Protocol};

/// Whether a number is that of a kind of memory.
pub(crate) fn is_kind(kind: u32) -> bool
    ensures { result ≡ spec.is_kind kind }
{
    1 <= kind && kind <= 5
}

/// Whether each region is of a kind.
pub(crate) fn have_kinds(regions: &[RegionRecord]) -> bool
    ensures { result ≡ spec.have_kinds regions.now }
{
    regions.iter().all(|region| is_kind(region.kind))
}

/// Whether UEFI has 32 or 64 bits, where it is told.
fn has_efi_bits(efi: &EfiRecord) -> bool
    ensures { result ≡ spec.has_efi_bits efi.now }
{
    efi.system_table == 0 || efi.bits == 32 || efi.bits == 64
}

/// Whether the state of secure boot is one, where UEFI is told.
fn has_secure_boot(efi: &EfiRecord) -> bool
    ensures { result ≡ spec.has_secure_boot efi.now }
{
    efi.system_table == 0 || efi.secure_boot <= 3
}

/// Checks the numbers that are to stand for something in what is given of a machine: the first
/// misuse.
#[tactic(auto, unfolding(crate::specs::GivenChecks::machine_misuse))]
pub(crate) fn check_machine(machine: &MachineRecord) -> Result<(), Misuse>
    ensures { FindsMisuse (spec.machine_misuse machine.now) result }
{
    if !have_kinds(machine.regions) {
        return Err(Misuse::BadKind);
    }
    if !has_efi_bits(&machine.firmware.efi) {
        return Err(Misuse::BadEfiBits);
    }
    if !has_secure_boot(&machine.firmware.efi) {
        return Err(Misuse::BadSecureBoot);
    }
    Ok(())
}

/// Whether a number is that of a protocol.
fn is_protocol(protocol: u32) -> bool
    ensures { result ≡ spec.is_protocol protocol }
{
    Protocol::from_number(protocol).is_some()
}

/// Whether an entry has not too many modules.
pub(crate) fn are_modules_few(entry: &EntryRecord) -> bool
    ensures { result ≡ spec.are_modules_few entry.now }
{
    if !entry.is_of(Protocol::Multiboot2) {
        return true;
    }
    entry.modules.len() <= MAX_MODULES
}

/// Whether no entry has too many modules.
pub fn have_few_modules(entries: &[EntryRecord]) -> bool
    ensures { result ≡ spec.have_few_modules entries.now }
{
    entries.iter().all(|entry| are_modules_few(entry))
}

/// Checks an entry, but for its size: the first misuse.
#[tactic(auto, unfolding(crate::specs::GivenChecks::entry_misuse))]
pub(crate) fn check_entry(entry: &EntryRecord) -> Result<(), Misuse>
    ensures { FindsMisuse (spec.entry_misuse entry.now) result }
{
    if !is_protocol(entry.protocol) {
        return Err(Misuse::BadProtocol);
    }
    Ok(())
}

/// Checks entries, one after the other: the first misuse.
pub fn check_entries(entries: &[EntryRecord]) -> Result<(), Misuse>
    ensures { FindsMisuse (spec.entries_misuse entries.now) result }
{
    for entry in entries {
        check_entry(entry)?;
    }
    Ok(())
}
