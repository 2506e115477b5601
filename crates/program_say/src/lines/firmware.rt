//! What firmware tells, line by line.
ghost use Rattle.std.specs.Prelude.{◌≡◌, ◌++◌, OnOk};
ghost use Rattle.program_say.specs.FirmwareLines as says;
ghost use Rattle.program_say.specs.FirmwareLines.{lines_if};

use crate::formatted::say_digits;
use crate::lines::hex16::say_hex16_before;
use crate::say;
use bl_map::{ColorField, EfiBits, EfiInfo, Screen, SecureBoot};
use bl_mbi::{EfiCopy, SmbiosCopy};
use bl_walk::SeenFirmware;
use sha2::{Digest, Sha256};
use std::alloc::{AllocError, Allocator};

#[tactic(auto, unfolding(crate::specs::FirmwareLines::color_words))]
fn say_color<A: Allocator + Copy>(
    out: &mut Vec<u8, A>,
    color: ColorField,
    behind: &str,
) -> Result<(), AllocError>
    ensures { OnOk result
        (out.new.items ≡ out.old.items ++ says.color_words color ++ behind.now) }
{
    say!(out, "{}+{}{behind}", color.position, color.size)
}

fn say_number<A: Allocator + Copy>(out: &mut Vec<u8, A>, number: u64) -> Result<(), AllocError>
    ensures { OnOk result (out.new.items ≡ out.old.items ++ says.number_word number) }
{
    say!(out, "{number} ")
}

#[tactic(auto, unfolding(crate::specs::FirmwareLines::screen_line))]
fn say_screen<A: Allocator + Copy>(out: &mut Vec<u8, A>, screen: &Screen) -> Result<(), AllocError>
    ensures { OnOk result (out.new.items ≡ out.old.items ++ says.screen_line screen.now) }
{
    out.extend_from_slice(b"screen ")?;
    say_hex16_before(out, screen.base, " ")?;
    say_number(out, u64::from(screen.pitch))?;
    say_number(out, u64::from(screen.width))?;
    say_number(out, u64::from(screen.height))?;
    say_number(out, u64::from(screen.depth))?;
    say_color(out, screen.red, " ")?;
    say_color(out, screen.green, " ")?;
    say_color(out, screen.blue, "\n")
}

#[tactic(auto, unfolding(crate::specs::FirmwareLines::rsdp_line))]
fn say_rsdp<A: Allocator + Copy>(out: &mut Vec<u8, A>, a: u64) -> Result<(), AllocError>
    ensures { OnOk result (out.new.items ≡ out.old.items ++ says.rsdp_line a) }
{
    out.extend_from_slice(b"rsdp ")?;
    say_hex16_before(out, a, "\n")
}

#[tactic(auto, unfolding(crate::specs::FirmwareLines::efi_line))]
fn say_efi<A: Allocator + Copy>(
    out: &mut Vec<u8, A>,
    bits: EfiBits,
    system_table: u64,
) -> Result<(), AllocError>
    ensures { OnOk result (out.new.items ≡ out.old.items ++ says.efi_line bits system_table) }
{
    out.extend_from_slice(b"efi ")?;
    say_number(out, u64::from(bits.number()))?;
    say_hex16_before(out, system_table, "\n")
}

#[tactic(auto, unfolding(crate::specs::FirmwareLines::efi_map_line))]
fn say_map_at<A: Allocator + Copy>(out: &mut Vec<u8, A>, efi: &EfiInfo) -> Result<(), AllocError>
    ensures { OnOk result (out.new.items ≡ out.old.items ++ says.map_at_line efi.now) }
{
    out.extend_from_slice(b"efi-map ")?;
    say_hex16_before(out, efi.map_address, " ")?;
    say_number(out, efi.map_size)?;
    say_number(out, u64::from(efi.descriptor_size))?;
    say_number(out, u64::from(efi.descriptor_version))?;
    out.extend_from_slice(b"-\n")
}

#[tactic(auto, unfolding(crate::specs::FirmwareLines::efi_map_line))]
fn say_map_copy<A: Allocator + Copy, B: Allocator>(
    out: &mut Vec<u8, A>,
    efi: &EfiCopy<B>,
) -> Result<(), AllocError>
    ensures { OnOk result (out.new.items ≡ out.old.items ++ says.map_copy_line efi.now) }
{
    out.extend_from_slice(b"efi-map - ")?;
    say_number(out, efi.map.as_slice().len() as u64)?;
    say_number(out, u64::from(efi.descriptor_size))?;
    say_number(out, u64::from(efi.descriptor_version))?;
    say_digits(out, &Sha256::digest(efi.map.as_slice()))?;
    out.extend_from_slice(b"\n")
}

#[tactic(auto, unfolding(crate::specs::FirmwareLines::secure_boot_line))]
fn say_secure_boot<A: Allocator + Copy>(
    out: &mut Vec<u8, A>,
    secure_boot: SecureBoot,
) -> Result<(), AllocError>
    ensures { OnOk result (out.new.items ≡ out.old.items ++ says.secure_boot_line secure_boot) }
{
    say!(out, "secure-boot {}\n", secure_boot.number())
}

/// Appends what a Linux kernel is told of UEFI, if it is told of it.
pub fn say_efi_info<A: Allocator + Copy>(
    out: &mut Vec<u8, A>,
    told: &Option<EfiInfo>,
) -> Result<(), AllocError>
    ensures { OnOk result
        (out.new.items ≡ out.old.items ++ lines_if says.efi_info_lines told.now) }
{
    let Some(efi) = told else {
        return Ok(());
    };
    say_efi(out, efi.bits, efi.system_table)?;
    say_map_at(out, efi)?;
    say_secure_boot(out, efi.secure_boot)
}

fn say_efi_tables<A: Allocator + Copy, B: Allocator>(
    out: &mut Vec<u8, A>,
    told: &Option<EfiCopy<B>>,
) -> Result<(), AllocError>
    ensures { OnOk result
        (out.new.items ≡ out.old.items ++ lines_if says.efi_tables_lines told.now) }
{
    let Some(efi) = told else {
        return Ok(());
    };
    say_efi(out, efi.bits, efi.system_table)?;
    say_map_copy(out, efi)
}

/// Appends the line of the tables of SMBIOS of this version.
#[tactic(auto, unfolding(crate::specs::FirmwareLines::smbios_line))]
pub fn say_tables<A: Allocator + Copy>(
    out: &mut Vec<u8, A>,
    major: u8,
    minor: u8,
    tables: &[u8],
) -> Result<(), AllocError>
    ensures { OnOk result (out.new.items ≡ out.old.items
        ++ says.smbios_line record { major = major; minor = minor; tables = tables.now }) }
{
    out.extend_from_slice(b"smbios ")?;
    say_number(out, u64::from(major))?;
    say_number(out, u64::from(minor))?;
    say_number(out, tables.len() as u64)?;
    say_digits(out, &Sha256::digest(tables))?;
    out.extend_from_slice(b"\n")
}

fn say_smbios<A: Allocator + Copy, B: Allocator>(
    out: &mut Vec<u8, A>,
    told: &Option<SmbiosCopy<B>>,
) -> Result<(), AllocError>
    ensures { OnOk result (out.new.items ≡ out.old.items ++ lines_if says.smbios_line told.now) }
{
    match told {
        Some(copy) => say_tables(out, copy.major, copy.minor, copy.tables.as_slice()),
        None => Ok(()),
    }
}

/// Appends the lines of the screen and of ACPI's root pointer, of each if it is told.
pub fn say_screen_and_rsdp<A: Allocator + Copy>(
    out: &mut Vec<u8, A>,
    screen: &Option<Screen>,
    rsdp: Option<u64>,
) -> Result<(), AllocError>
    ensures { OnOk result (out.new.items ≡ out.old.items
        ++ lines_if says.screen_line screen.now ++ lines_if says.rsdp_line rsdp) }
{
    if let Some(told) = screen {
        say_screen(out, told)?;
    }
    match rsdp {
        Some(a) => say_rsdp(out, a),
        None => Ok(()),
    }
}

/// Appends the lines of what a kernel sees of it.
pub fn say_firmware<A: Allocator + Copy, B: Allocator>(
    out: &mut Vec<u8, A>,
    seen: &SeenFirmware<B>,
) -> Result<(), AllocError>
    ensures { OnOk result (out.new.items ≡ out.old.items ++ says.firmware_lines seen.now) }
{
    say_screen_and_rsdp(out, &seen.screen, seen.rsdp)?;
    say_efi_info(out, &seen.efi_info)?;
    say_efi_tables(out, &seen.efi_tables)?;
    say_smbios(out, &seen.smbios)
}
