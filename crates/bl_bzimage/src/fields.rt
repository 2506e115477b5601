//! The numbers of the setup header (Linux/x86 Boot Protocol, "The Real-Mode Kernel Header"). A
//! field is named by its offset from the file's first byte, which is its offset in boot parameters
//! too, since these begin with the header at the same place. Offsets and sizes count bytes.

/// The least length of a file: a boot sector, and a sector of setup.
pub const MIN_FILE: u64 = 1024;

/// How many bytes a sector has.
pub const SECTOR: u64 = 512;

/// `setup_sects`, the sectors of setup after the boot sector; the first field of the header.
pub const SETUP_SECTS: u64 = 0x1F1;

/// The number of sectors that a `setup_sects` of 0 means.
pub const DEFAULT_SETUP_SECTS: u8 = 4;

/// `boot_flag`, a magic number.
pub const BOOT_FLAG: u64 = 0x1FE;

/// What `boot_flag` is.
pub const BOOT_FLAG_MAGIC: u16 = 0xAA55;

/// The second byte of `jump`: how far the header reaches after 0x202.
pub const JUMP_DISPLACEMENT: u64 = 0x201;

/// `header`, a magic number; what `jump` counts from.
pub const HEADER: u64 = 0x202;

/// What `header` is: the bytes `HdrS`.
pub const HEADER_MAGIC: u32 = 0x5372_6448;

/// `version`: the major number times 256, and the minor.
pub const VERSION: u64 = 0x206;

/// The least version that is read: 2.10.
pub const MIN_VERSION: u16 = 0x020A;

/// `loadflags`.
pub const LOADFLAGS: u64 = 0x211;

/// The bit of `loadflags` that says that the payload is loaded at 1 MiB or above.
pub const LOADED_HIGH: u8 = 1;

/// `initrd_addr_max`, the highest byte that an initrd may take.
pub const INITRD_ADDR_MAX: u64 = 0x22C;

/// `kernel_alignment`.
pub const KERNEL_ALIGNMENT: u64 = 0x230;

/// `relocatable_kernel`, not 0 where the kernel may lie at any aligned address.
pub const RELOCATABLE_KERNEL: u64 = 0x234;

/// `xloadflags`, from version 2.12 on.
pub const XLOADFLAGS: u64 = 0x236;

/// `cmdline_size`, the longest line, its zero byte not counted.
pub const CMDLINE_SIZE: u64 = 0x238;

/// `pref_address`.
pub const PREF_ADDRESS: u64 = 0x258;

/// The least `pref_address` of a kernel that is not relocatable: 1 MiB.
pub const MIN_PREF_ADDRESS: u64 = 0x10_0000;

/// The greatest `pref_address` of a kernel that is not relocatable, since its entry is a 32-bit
/// number.
pub const MAX_PREF_ADDRESS: u64 = 0xFFFF_FFFF;

/// `init_size`, the last field that is read.
pub const INIT_SIZE: u64 = 0x260;

/// Where the fields end that are read: the least end of a header.
pub const MIN_END: u64 = 0x264;

/// Where the header's place in `boot_params` ends: the greatest end of a header.
pub const MAX_END: u64 = 0x290;

/// How many bytes a header has at most.
pub const MAX_HEADER: usize = 0x9F;
