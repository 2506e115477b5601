//! The keys of what firmware tells, each with its rule.
use crate::allowed::Allowed;
use crate::key_table::Key;
use crate::{optional, required};

/// The address of ACPI's root pointer.
pub const RSDP: Key = optional!("rsdp", Allowed::Number);

/// The screen.
pub const SCREEN: Key = optional!("screen", Allowed::OneTable);

/// How many bytes a line of the screen takes.
pub const PITCH: Key = required!("pitch", Allowed::Word);

/// How many pixels a line of the screen has.
pub const WIDTH: Key = required!("width", Allowed::Word);

/// How many lines the screen has.
pub const HEIGHT: Key = required!("height", Allowed::Word);

/// How many bits a pixel has.
pub const DEPTH: Key = required!("depth", Allowed::Byte);

/// Where the bits of red lie in a pixel.
pub const RED: Key = required!("red", Allowed::Color);

/// Where the bits of green lie in a pixel.
pub const GREEN: Key = required!("green", Allowed::Color);

/// Where the bits of blue lie in a pixel.
pub const BLUE: Key = required!("blue", Allowed::Color);

/// UEFI.
pub const EFI: Key = optional!("efi", Allowed::OneTable);

/// How many bits the addresses of UEFI's tables have.
pub const BITS: Key = required!("bits", Allowed::EfiBits);

/// The address of UEFI's system table.
pub const SYSTEM_TABLE: Key = required!("system_table", Allowed::Number);

/// The bytes of UEFI's memory map.
pub const MAP: Key = required!("map", Allowed::HexText);

/// The address at which these bytes lie.
pub const MAP_ADDRESS: Key = required!("map_address", Allowed::Number);

/// How many bytes a descriptor of that map has.
pub const DESCRIPTOR_SIZE: Key = required!("descriptor_size", Allowed::Word);

/// The version of its descriptors.
pub const DESCRIPTOR_VERSION: Key = required!("descriptor_version", Allowed::Word);

/// The state of secure boot.
pub const EFI_SECURE_BOOT: Key = optional!("secure_boot", Allowed::SecureBoot);

/// SMBIOS.
pub const SMBIOS: Key = optional!("smbios", Allowed::OneTable);

/// The major version of SMBIOS.
pub const MAJOR: Key = required!("major", Allowed::Byte);

/// The minor version of SMBIOS.
pub const MINOR: Key = required!("minor", Allowed::Byte);

/// The tables of SMBIOS.
pub const TABLES: Key = required!("tables", Allowed::HexText);
