//! What firmware tells of a machine, and what is avoided on it, line by line, for a person.
ghost use Rattle.std.specs.Prelude.{◌≡◌, OnErr, OnOk};
ghost use Rattle.std.specs.Io.{StartsWith};

use crate::lines::firmware::{say_efi_info, say_screen_and_rsdp, say_tables};
use crate::lines::hex16::say_hex16_before;
use bl_map::{Efi, Firmware, Smbios};
use std::alloc::{AllocError, Allocator};
use std::ops::Range;

fn say_efi_of<A: Allocator + Copy>(
    out: &mut Vec<u8, A>,
    told: &Option<Efi<'_>>,
) -> Result<(), AllocError> {
    match told {
        Some(efi) => say_efi_info(out, &Some(efi.info())),
        None => Ok(()),
    }
}

fn say_smbios_of<A: Allocator + Copy>(
    out: &mut Vec<u8, A>,
    told: &Option<Smbios<'_>>,
) -> Result<(), AllocError> {
    match told {
        Some(smbios) => say_tables(out, smbios.major, smbios.minor, smbios.tables),
        None => Ok(()),
    }
}

fn say_avoided<A: Allocator + Copy>(
    out: &mut Vec<u8, A>,
    range: &Range<u64>,
) -> Result<(), AllocError> {
    out.extend_from_slice(b"avoid ")?;
    say_hex16_before(out, range.start, " ")?;
    say_hex16_before(out, range.end, "\n")
}

fn say_all_avoided<A: Allocator + Copy>(
    out: &mut Vec<u8, A>,
    ranges: &[Range<u64>],
) -> Result<(), AllocError> {
    for range in ranges {
        say_avoided(out, range)?;
    }
    Ok(())
}

fn say_all_told<A: Allocator + Copy>(
    out: &mut Vec<u8, A>,
    firmware: &Firmware<'_>,
) -> Result<(), AllocError> {
    say_screen_and_rsdp(out, &firmware.screen, firmware.rsdp)?;
    say_efi_of(out, &firmware.efi)?;
    say_smbios_of(out, &firmware.smbios)?;
    say_all_avoided(out, firmware.avoided)
}

/// Appends what a machine's firmware tells, whatever the protocol of an entry, and each range to
/// avoid. An error leaves the text as it was.
pub fn say_machine_firmware<A: Allocator + Copy>(
    out: &mut Vec<u8, A>,
    firmware: &Firmware<'_>,
) -> Result<(), AllocError>
    ensures ok { OnOk result (StartsWith out.new.items out.old.items) }
    ensures err { OnErr result (out.new.items ≡ out.old.items) }
{
    let mut lines = Vec::new(*out.allocator());
    say_all_told(&mut lines, firmware)?;
    out.extend_from_slice(&lines)
}
