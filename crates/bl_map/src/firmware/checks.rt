//! Whether what firmware tells of a machine is within its limits.
ghost use Rattle.std.specs.Prelude.{◌≡◌, ◌≤◌, ◌<◌, All, IfSome, IsSomeAnd, MatchBool, MatchOption};
ghost use Rattle.std.specs.Prelude.{length, slice_get, take};
ghost use Rattle.bl_map.specs.Faults.{HasAllowedEnd};
ghost use Rattle.bl_map.specs.FirmwareFaults.{HasScreenFault, HasRsdpFault, HasEfiFault};
ghost use Rattle.bl_map.specs.FirmwareFaults.{HasSmbiosFault, HasAvoidedFault, HasFirmwareFault};
ghost use Rattle.bl_map.specs.MachineFacts.{IsScreen, IsRsdp, IsEfi, IsSmbios, IsAvoidable};
ghost use Rattle.bl_map.specs.MachineFacts.{MissesPool, AreAvoided, IsFirmware};

use crate::fault::MapFault;
use crate::firmware::efi::Efi;
use crate::firmware::limits::{MAX_AVOIDED, RSDP_LENGTH, is_smbios_size};
use crate::firmware::screen::Screen;
use crate::firmware::{Firmware, Smbios};
use crate::limits::MAX_REGION_END;
use crate::region::Region;
use crate::rules::are_unusable;
use std::ops::Range;

fn screen_fault(regions: &[Region], told: Option<Screen>) -> Option<MapFault>
    requires { All HasAllowedEnd regions.now }
    ensures { MatchOption result (IfSome told (IsScreen regions.now))
        (λ fault. IsSomeAnd told (λ screen. HasScreenFault regions.now screen fault)) }
{
    let Some(screen) = told else {
        return None;
    };
    if let Some(fault) = screen.fault() {
        return Some(fault);
    }
    if !are_unusable(regions, screen.base, screen.size()) {
        return Some(MapFault::BadScreenPlace);
    }
    None
}

fn rsdp_fault(regions: &[Region], told: Option<u64>) -> Option<MapFault>
    requires { All HasAllowedEnd regions.now }
    ensures { MatchOption result (IfSome told (IsRsdp regions.now))
        (λ fault. IsSomeAnd told (λ a. HasRsdpFault regions.now a fault)) }
{
    let Some(a) = told else {
        return None;
    };
    if a == 0 || MAX_REGION_END < a.saturating_add(RSDP_LENGTH) {
        return Some(MapFault::BadRsdp);
    }
    if !are_unusable(regions, a, RSDP_LENGTH) {
        return Some(MapFault::BadRsdp);
    }
    None
}

fn efi_fault(regions: &[Region], told: &Option<Efi<'_>>) -> Option<MapFault>
    requires { All HasAllowedEnd regions.now }
    ensures { MatchOption result (IfSome told.now (IsEfi regions.now))
        (λ fault. IsSomeAnd told.now (λ efi. HasEfiFault regions.now efi fault)) }
{
    let Some(efi) = told else {
        return None;
    };
    let info = efi.info();
    if let Some(fault) = info.machine_fault() {
        return Some(fault);
    }
    if !are_unusable(regions, info.map_address, info.map_size) {
        return Some(MapFault::BadEfiMapPlace);
    }
    None
}

fn smbios_fault(told: &Option<Smbios<'_>>) -> Option<MapFault>
    ensures { MatchOption result (IfSome told.now IsSmbios)
        (λ fault. IsSomeAnd told.now (λ smbios. HasSmbiosFault smbios fault)) }
{
    let Some(smbios) = told else {
        return None;
    };
    if !is_smbios_size(smbios.tables.len() as u64) {
        return Some(MapFault::BadSmbiosSize);
    }
    None
}

/// Whether the range goes forward and ends at most at 2^52.
fn is_avoidable(range: &Range<u64>) -> bool
    ensures { MatchBool result (IsAvoidable range.now) (¬ IsAvoidable range.now) }
{
    range.start <= range.end && range.end <= MAX_REGION_END
}

/// The first range that does not go forward or ends above 2^52.
fn first_unavoidable(avoided: &[Range<u64>]) -> Option<usize>
    ensures { MatchOption result
        (All IsAvoidable avoided.now)
        (λ i. (i < length avoided.now)
        × All IsAvoidable (take i avoided.now)
        × IfSome (slice_get avoided.now i) (λ range. ¬ IsAvoidable range)) }
{
    for (i, range) in avoided.iter().enumerate() {
        if !is_avoidable(range) {
            return Some(i);
        }
    }
    None
}

/// Whether no byte of the pool lies in the range.
fn misses_pool(pool: &Range<u64>, range: &Range<u64>) -> bool
    ensures { MatchBool result (MissesPool pool.now range.now) (¬ MissesPool pool.now range.now) }
{
    pool.end.min(range.end) <= pool.start.max(range.start)
}

/// Whether no byte of the pool lies in one of the ranges.
fn all_miss_pool(pool: &Range<u64>, avoided: &[Range<u64>]) -> bool
    ensures { MatchBool result
        (All (MissesPool pool.now) avoided.now)
        (¬ All (MissesPool pool.now) avoided.now) }
{
    for range in avoided {
        if !misses_pool(pool, range) {
            return false;
        }
    }
    true
}

fn avoided_fault(pool: &Range<u64>, avoided: &[Range<u64>]) -> Option<MapFault>
    ensures { MatchOption result (AreAvoided pool.now avoided.now)
        (HasAvoidedFault pool.now avoided.now) }
{
    if avoided.len() > MAX_AVOIDED {
        return Some(MapFault::TooManyAvoided);
    }
    if let Some(i) = first_unavoidable(avoided) {
        return Some(MapFault::BadAvoided(i));
    }
    if !all_miss_pool(pool, avoided) {
        return Some(MapFault::PoolAvoided);
    }
    None
}

/// The first fault of what firmware tells of a machine of these regions and this pool.
pub fn firmware_fault(
    regions: &[Region],
    pool: &Range<u64>,
    firmware: &Firmware<'_>,
) -> Option<MapFault>
    requires { All HasAllowedEnd regions.now }
    ensures { MatchOption result (IsFirmware regions.now pool.now firmware.now)
        (HasFirmwareFault regions.now pool.now firmware.now) }
{
    if let Some(fault) = screen_fault(regions, firmware.screen) {
        return Some(fault);
    }
    if let Some(fault) = rsdp_fault(regions, firmware.rsdp) {
        return Some(fault);
    }
    if let Some(fault) = efi_fault(regions, &firmware.efi) {
        return Some(fault);
    }
    if let Some(fault) = smbios_fault(&firmware.smbios) {
        return Some(fault);
    }
    if let Some(fault) = avoided_fault(pool, firmware.avoided) {
        return Some(fault);
    }
    None
}
