//! The limits of memory. Addresses and sizes are in bytes.

/// The length of a frame: files are staged in these, and a machine's size and its pool are whole
/// ones.
pub const FRAME_SIZE: u64 = 4096;

/// The least size of a machine: 1 MiB.
pub const MIN_SIZE: u64 = 0x0010_0000;

/// The greatest size of a machine: 4 GiB.
pub const MAX_SIZE: u64 = 0x1_0000_0000;

/// The most regions that a machine is made of.
pub const MAX_REGIONS: usize = 128;

/// The first byte that can be usable: the first frame never is.
pub const FIRST_USABLE: u64 = FRAME_SIZE;

/// The end of what can be usable, not included: the last frame below 4 GiB never is.
pub const USABLE_LIMIT: u64 = MAX_SIZE - FRAME_SIZE;

/// The highest end that a region may have, not included: 2^52.
pub const MAX_REGION_END: u64 = 0x0010_0000_0000_0000;

/// Bytes in a KiB.
pub const KIB: u64 = 1024;

/// The most KiB that are told of memory from address 0 on (Multiboot2 3.6.3 "Basic memory
/// information").
pub const MAX_LOW_KIB: u64 = 640;

/// Where high memory starts: 1 MiB (Multiboot2 3.6.3 "Basic memory information").
pub const HIGH_START: u64 = 0x0010_0000;

/// The most KiB that are told of high memory: what 32 bits hold (Multiboot2 3.6.3 "Basic memory
/// information").
pub const MAX_HIGH_KIB: u64 = 0xFFFF_FFFF;
