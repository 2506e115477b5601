//! The numbers of boot parameters (Linux/x86 Boot Protocol, "The Real-Mode Kernel Header", and
//! "Zero Page"). A field is named by its offset from the first byte. Offsets and sizes count bytes.
//! The setup header's own numbers are bl_bzimage's, here as places in a slice.
use bl_bzimage::fields;
pub use bl_bzimage::fields::{BOOT_FLAG_MAGIC, HEADER_MAGIC, MIN_VERSION};

/// How many bytes boot parameters take.
pub const PARAMS_SIZE: usize = 4096;

/// `acpi_rsdp_addr`, the address of ACPI's root pointer, 0 for none ("Zero Page").
pub const ACPI_RSDP_ADDR: usize = 0x070;

/// Where it ends.
pub const ACPI_RSDP_ADDR_END: usize = 0x078;

/// `e820_entries`, the number of entries of the memory map ("Zero Page").
pub const E820_ENTRIES: usize = 0x1E8;

/// Where the setup header begins, with `setup_sects`.
pub const HEADER_START: usize = fields::SETUP_SECTS as usize;

/// `vid_mode`.
pub const VID_MODE: usize = 0x1FA;

/// The `vid_mode` "normal".
pub const VID_MODE_NORMAL: u16 = 0xFFFF;

/// `boot_flag`, a magic number.
pub const BOOT_FLAG: usize = fields::BOOT_FLAG as usize;

/// The second byte of `jump`: how far the header reaches after 0x202.
pub const JUMP_DISPLACEMENT: usize = fields::JUMP_DISPLACEMENT as usize;

/// `header`, a magic number; what `jump` counts from.
pub const HEADER: usize = fields::HEADER as usize;

/// `version`: the major number times 256, and the minor.
pub const VERSION: usize = fields::VERSION as usize;

/// `type_of_loader`.
pub const TYPE_OF_LOADER: usize = 0x210;

/// The `type_of_loader` of a loader without a number of its own.
pub const LOADER_UNDEFINED: u8 = 0xFF;

/// `loadflags`.
pub const LOADFLAGS: usize = fields::LOADFLAGS as usize;

/// `code32_start`, the kernel's 32-bit entry.
pub const CODE32_START: usize = 0x214;

/// `ramdisk_image`.
pub const RAMDISK_IMAGE: usize = 0x218;

/// `ramdisk_size`.
pub const RAMDISK_SIZE: usize = 0x21C;

/// `cmd_line_ptr`.
pub const CMD_LINE_PTR: usize = 0x228;

/// `initrd_addr_max`.
pub const INITRD_ADDR_MAX: usize = fields::INITRD_ADDR_MAX as usize;

/// `kernel_alignment`.
pub const KERNEL_ALIGNMENT: usize = fields::KERNEL_ALIGNMENT as usize;

/// `relocatable_kernel`.
pub const RELOCATABLE_KERNEL: usize = fields::RELOCATABLE_KERNEL as usize;

/// `xloadflags`.
pub const XLOADFLAGS: usize = fields::XLOADFLAGS as usize;

/// `cmdline_size`.
pub const CMDLINE_SIZE: usize = fields::CMDLINE_SIZE as usize;

/// `setup_data`, the first of a chain; 0 for none.
pub const SETUP_DATA: usize = 0x250;

/// `pref_address`.
pub const PREF_ADDRESS: usize = fields::PREF_ADDRESS as usize;

/// `init_size`.
pub const INIT_SIZE: usize = fields::INIT_SIZE as usize;

/// The least end of a header.
pub const MIN_END: usize = fields::MIN_END as usize;

/// The greatest end of a header.
pub const MAX_END: usize = fields::MAX_END as usize;

/// `e820_table`, the memory map ("Zero Page").
pub const E820_TABLE: usize = 0x2D0;

/// How many bytes an entry of the memory map takes.
pub const ENTRY_SIZE: usize = 20;

/// Where an entry's `size` stands in it.
pub const ENTRY_LENGTH: usize = 8;

/// Where an entry's `type` stands in it.
pub const ENTRY_TYPE: usize = 16;

/// How many entries the memory map has at most.
pub const MAX_E820_ENTRIES: u8 = 128;
