//! The keys of a description's tables, each with its rule. Reading and the words of messages take
//! them from here.
ghost use Rattle.std.specs.Prelude.{◌≡◌, map};
ghost use Rattle.std.specs.List.{list_any};
ghost use Rattle.std.specs.Str.{bytes_eq};
ghost use Rattle.program_desc.specs.KeyRules.{keys_of_set};

use crate::allowed::Allowed;
use crate::firmware_keys::{
    BITS, BLUE, DEPTH, DESCRIPTOR_SIZE, DESCRIPTOR_VERSION, EFI, EFI_SECURE_BOOT, GREEN, HEIGHT,
    MAJOR, MAP, MAP_ADDRESS, MINOR, PITCH, RED, RSDP, SCREEN, SMBIOS, SYSTEM_TABLE, TABLES, WIDTH,
};
use crate::key_set::KeySet;

/// A key of a table: whether it must stand, and what it may hold.
#[derive(Clone, Copy)]
pub struct Key {
    pub name: &'static str,
    pub required: bool,
    pub allowed: Allowed,
}

#[macro_export]
macro_rules! required {
    ($name:expr, $allowed:expr) => {
        $crate::key_table::Key {
            name: $name,
            required: true,
            allowed: $allowed,
        }
    };
}

#[macro_export]
macro_rules! optional {
    ($name:expr, $allowed:expr) => {
        $crate::key_table::Key {
            name: $name,
            required: false,
            allowed: $allowed,
        }
    };
}

/// How many bytes memory has.
pub const SIZE: Key = required!("size", Allowed::Number);

/// The usable memory where files lie until they are loaded.
pub const POOL: Key = required!("pool", Allowed::TwoNumbers);

/// What each byte of memory is before the boot.
pub const FILL: Key = optional!("fill", Allowed::Byte);

/// The entry that is attempted first. Reading puts in how many entries there are.
pub const DEFAULT: Key = optional!("default", Allowed::IndexBelow(0));

/// The entries to fall back on.
pub const FALLBACK: Key = optional!("fallback", Allowed::Indices);

/// The regions of memory.
pub const REGION: Key = optional!("region", Allowed::Tables);

/// The files that stand in the description.
pub const FILE: Key = optional!("file", Allowed::Tables);

/// The entries of the menu.
pub const ENTRY: Key = required!("entry", Allowed::EntryTables);

/// An entry's title.
pub const TITLE: Key = required!("title", Allowed::Title);

/// An entry's protocol, by which it may have other keys.
pub const PROTOCOL: Key = required!("protocol", Allowed::ProtocolName);

/// The name of the file that is an entry's kernel.
pub const KERNEL: Key = required!("kernel", Allowed::AnyText);

/// The line of an entry's kernel, or that of a module.
pub const LINE: Key = optional!("line", Allowed::AnyText);

/// An entry's modules.
pub const MODULE: Key = optional!("module", Allowed::ModuleTables);

/// A copy of the Root System Description Pointer (RSDP) of ACPI 1.0.
pub const RSDP_OLD: Key = optional!("rsdp_old", Allowed::CopyText);

/// A copy of the RSDP of ACPI 2.0 or later.
pub const RSDP_NEW: Key = optional!("rsdp_new", Allowed::CopyText);

/// The name of the file that is an entry's initial ramdisk.
pub const INITRD: Key = optional!("initrd", Allowed::AnyText);

/// Where a region of memory begins, a range, or the screen's memory.
pub const BASE: Key = required!("base", Allowed::Number);

/// How many bytes a region or a range has.
pub const LENGTH: Key = required!("length", Allowed::Number);

/// What a region's memory is for.
pub const KIND: Key = required!("kind", Allowed::KindName);

/// What firmware tells beside memory.
pub const FIRMWARE: Key = optional!("firmware", Allowed::OneTable);

/// Ranges in which nothing is placed.
pub const AVOID: Key = optional!("avoid", Allowed::Tables);

/// A file's name.
pub const NAME: Key = required!("name", Allowed::AnyText);

/// A file's bytes.
pub const HEX: Key = required!("hex", Allowed::HexText);

/// The name of the file that is a module.
pub const MODULE_FILE: Key = required!("file", Allowed::AnyText);

static IN_DESCRIPTION: [Key; 10] = [
    SIZE, POOL, FILL, DEFAULT, FALLBACK, REGION, FILE, ENTRY, FIRMWARE, AVOID,
];

static IN_REGION: [Key; 3] = [BASE, LENGTH, KIND];

static IN_FIRMWARE: [Key; 4] = [RSDP, SCREEN, EFI, SMBIOS];

static IN_SCREEN: [Key; 8] = [BASE, PITCH, WIDTH, HEIGHT, DEPTH, RED, GREEN, BLUE];

static IN_EFI: [Key; 7] = [
    BITS,
    SYSTEM_TABLE,
    MAP,
    MAP_ADDRESS,
    DESCRIPTOR_SIZE,
    DESCRIPTOR_VERSION,
    EFI_SECURE_BOOT,
];

static IN_SMBIOS: [Key; 3] = [MAJOR, MINOR, TABLES];

static IN_AVOIDED: [Key; 2] = [BASE, LENGTH];

static IN_FILE: [Key; 2] = [NAME, HEX];

static IN_ENTRY: [Key; 8] = [
    TITLE, PROTOCOL, KERNEL, LINE, MODULE, RSDP_OLD, RSDP_NEW, INITRD,
];

static IN_MULTIBOOT2: [Key; 7] = [TITLE, PROTOCOL, KERNEL, LINE, MODULE, RSDP_OLD, RSDP_NEW];

static IN_LINUX: [Key; 5] = [TITLE, PROTOCOL, KERNEL, LINE, INITRD];

static IN_MODULE: [Key; 2] = [MODULE_FILE, LINE];

/// The keys that a table may have.
pub fn keys_of(set: KeySet) -> &'static [Key]
    ensures { map (λ key. key.name.now) result.now ≡ keys_of_set set }
{
    match set {
        KeySet::Description => &IN_DESCRIPTION,
        KeySet::Region => &IN_REGION,
        KeySet::Firmware => &IN_FIRMWARE,
        KeySet::Screen => &IN_SCREEN,
        KeySet::Efi => &IN_EFI,
        KeySet::Smbios => &IN_SMBIOS,
        KeySet::Avoided => &IN_AVOIDED,
        KeySet::File => &IN_FILE,
        KeySet::Entry => &IN_ENTRY,
        KeySet::Multiboot2Entry => &IN_MULTIBOOT2,
        KeySet::LinuxEntry => &IN_LINUX,
        KeySet::Module => &IN_MODULE,
    }
}

fn is_among(name: &str, keys: &[Key]) -> bool
    ensures { result ≡ list_any (λ key. bytes_eq key.name.now name.now) keys.now }
{
    keys.iter().any(|key| key.name == name)
}

/// Whether a table may have a key of this name, by its set of keys.
pub fn is_key(set: KeySet, name: &str) -> bool
    ensures { result ≡ list_any (λ k. bytes_eq k name.now) (keys_of_set set) }
{
    is_among(name, keys_of(set))
}
