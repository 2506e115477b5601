//! The numbers of a header (Multiboot2 2.0, "3.1 OS image format"). A field is named by its offset
//! from the first byte of the header, or of its tag. Offsets and sizes count bytes.

/// Where the header ends at the latest: it lies in this many bytes from the file's start on (3.1).
pub const SEARCH_END: u64 = 32768;

/// The header and each of its tags stand at a multiple of this (3.1, 3.1.3).
pub const ALIGNMENT: u64 = 8;

/// The first word of a header (3.1.2).
pub const MAGIC: u32 = 0xE852_50D6;

/// `architecture`, the second word (3.1.2).
pub const ARCHITECTURE: u64 = 4;

/// The `architecture` of i386 in protected mode (3.1.2).
pub const I386: u32 = 0;

/// `header_length`, the third word (3.1.2).
pub const HEADER_LENGTH: u64 = 8;

/// The least `header_length`: that of a header whose only tag is the last.
pub const MIN_LENGTH: u64 = 24;

/// How many values a word has. The four words of the header sum to a multiple of it (3.1.2).
pub const WORD_VALUES: u64 = 1 << 32;

/// `checksum`, the fourth word (3.1.2).
pub const CHECKSUM: u64 = 12;

/// Where the tags begin (3.1.1).
pub const TAGS: u64 = 16;

/// `flags` of a tag, after its type (3.1.3).
pub const FLAGS: u64 = 2;

/// The bit of `flags` by which a tag may be ignored (3.1.3).
pub const OPTIONAL: u16 = 1;

/// `size` of a tag (3.1.3).
pub const SIZE: u64 = 4;

/// Where the fields begin that a tag has by its type (3.1.3).
pub const BODY: u64 = 8;

/// The type of the tag that ends the tags (3.1.3).
pub const TAG_END: u16 = 0;

/// The one size of that tag, and the least of any (3.1.3).
pub const END_SIZE: u32 = 8;

/// The type of an information request (3.1.4). Its body is a list of words.
pub const TAG_REQUEST: u16 = 1;

/// The size of a word of a request (3.1.4).
pub const WORD: u64 = 4;

/// The first type of information that can be given (own).
pub const FIRST_INFORMATION: u32 = 1;

/// The last one (own).
pub const LAST_INFORMATION: u32 = 21;

/// The type of the ELF symbols, the one between that can't be given (own).
pub const ELF_SYMBOLS: u32 = 9;

/// The type of an address tag (3.1.5).
pub const TAG_ADDRESS: u16 = 2;

/// The least size of an address tag (3.1.5).
pub const ADDRESS_SIZE: u32 = 24;

/// `header_addr` of an address tag (3.1.5).
pub const HEADER_ADDR: u64 = 8;

/// `load_addr` of an address tag (3.1.5).
pub const LOAD_ADDR: u64 = 12;

/// The `load_addr` of a file that is loaded from its start on (3.1.5).
pub const WHOLE_FILE: u32 = 0xFFFF_FFFF;

/// `load_end_addr` of an address tag (3.1.5).
pub const LOAD_END_ADDR: u64 = 16;

/// `bss_end_addr` of an address tag (3.1.5).
pub const BSS_END_ADDR: u64 = 20;

/// The type of an entry address tag (3.1.6).
pub const TAG_ENTRY: u16 = 3;

/// The least size of an entry address tag (3.1.6).
pub const ENTRY_SIZE: u32 = 12;

/// `entry_addr` of an entry address tag (3.1.6).
pub const ENTRY_ADDR: u64 = 8;

/// The type of the tag of console flags (3.1.9).
pub const TAG_CONSOLE: u16 = 4;

/// The least size of that tag (3.1.9).
pub const CONSOLE_SIZE: u32 = 12;

/// `console_flags` of that tag (3.1.9).
pub const CONSOLE_FLAGS: u64 = 8;

/// The bit of `console_flags` by which there has to be a console (3.1.9).
pub const CONSOLE_REQUIRED: u32 = 1;

/// The type of a framebuffer tag (3.1.10).
pub const TAG_FRAMEBUFFER: u16 = 5;

/// The type of a relocatable tag (3.1.13).
pub const TAG_RELOCATABLE: u16 = 10;

/// The least size of a relocatable tag (3.1.13).
pub const RELOCATABLE_SIZE: u32 = 24;

/// `min_addr` of a relocatable tag (3.1.13).
pub const MIN_ADDR: u64 = 8;

/// `max_addr` of a relocatable tag (3.1.13).
pub const MAX_ADDR: u64 = 12;

/// `align` of a relocatable tag (3.1.13).
pub const ALIGN: u64 = 16;

/// `preference` of a relocatable tag (3.1.13).
pub const PREFERENCE: u64 = 20;

/// The last type of tag that the specification has (3.1.13).
pub const LAST_TAG: u16 = 10;
