//! The numbers of the file format (System V gABI, "ELF Identification", "ELF Header", "Program
//! Header"). A field is named by its offset from the first byte of its header, with 32 or 64 after
//! the name where the classes differ. Offsets and sizes count bytes.

/// The first word of a file, the bytes 7F 45 4C 46: `EI_MAG0` to `EI_MAG3` ("ELF Identification").
pub const MAGIC: u32 = 0x464C_457F;

/// The class ("ELF Identification").
pub const EI_CLASS: u64 = 4;

/// The class of a 32-bit file.
pub const ELFCLASS32: u8 = 1;

/// The class of a 64-bit file.
pub const ELFCLASS64: u8 = 2;

/// The order of the bytes of a number ("ELF Identification").
pub const EI_DATA: u64 = 5;

/// The order with the lowest byte first.
pub const ELFDATA2LSB: u8 = 1;

/// The version of the ELF header ("ELF Identification").
pub const EI_VERSION: u64 = 6;

/// `EV_CURRENT`, the only version, as the byte at `EI_VERSION`.
pub const EI_VERSION_CURRENT: u8 = 1;

/// The size of the identification ("ELF Identification").
pub const EI_NIDENT: u64 = 16;

/// The size of the ELF header, an `Elf32_Ehdr`.
pub const EHDR_SIZE_32: u64 = 52;

/// The size of an `Elf64_Ehdr`.
pub const EHDR_SIZE_64: u64 = 64;

/// `e_type`, what kind of file it is ("ELF Header").
pub const E_TYPE: u64 = 16;

/// The type of an executable.
pub const ET_EXEC: u16 = 2;

/// The type of a shared object, which an executable may be that can lie anywhere.
pub const ET_DYN: u16 = 3;

/// `e_machine` ("ELF Header").
pub const E_MACHINE: u64 = 18;

/// The machine i386.
pub const EM_386: u16 = 3;

/// The machine x86-64.
pub const EM_X86_64: u16 = 62;

/// `e_version` ("ELF Header").
pub const E_VERSION: u64 = 20;

/// The only version, as the word at `E_VERSION`.
pub const EV_CURRENT: u32 = 1;

/// `e_entry`, the virtual address of the entry ("ELF Header").
pub const E_ENTRY: u64 = 24;

/// `e_phoff`, where the program header table stands in the file ("ELF Header").
pub const E_PHOFF_32: u64 = 28;

/// `e_phoff` of a 64-bit file.
pub const E_PHOFF_64: u64 = 32;

/// `e_phentsize`, the size of an entry of that table ("ELF Header").
pub const E_PHENTSIZE_32: u64 = 42;

/// `e_phentsize` of a 64-bit file.
pub const E_PHENTSIZE_64: u64 = 54;

/// `e_phnum`, how many entries it has ("ELF Header").
pub const E_PHNUM_32: u64 = 44;

/// `e_phnum` of a 64-bit file.
pub const E_PHNUM_64: u64 = 56;

/// The greatest `e_phnum` that is accepted (own).
pub const MAX_PROGRAM_HEADERS: u16 = 128;

/// The size of a program header, an `Elf32_Phdr`. Its `p_type` stands first.
pub const PHDR_SIZE_32: u16 = 32;

/// The size of an `Elf64_Phdr`.
pub const PHDR_SIZE_64: u16 = 56;

/// The `p_type` of a segment that is loaded.
pub const PT_LOAD: u32 = 1;

/// `p_offset`, where the segment begins in the file ("Program Header").
pub const P_OFFSET_32: u64 = 4;

/// `p_offset` of a 64-bit file.
pub const P_OFFSET_64: u64 = 8;

/// `p_vaddr`, its virtual address ("Program Header").
pub const P_VADDR_32: u64 = 8;

/// `p_vaddr` of a 64-bit file.
pub const P_VADDR_64: u64 = 16;

/// `p_paddr`, its physical address ("Program Header").
pub const P_PADDR_32: u64 = 12;

/// `p_paddr` of a 64-bit file.
pub const P_PADDR_64: u64 = 24;

/// `p_filesz`, how many bytes it has in the file ("Program Header").
pub const P_FILESZ_32: u64 = 16;

/// `p_filesz` of a 64-bit file.
pub const P_FILESZ_64: u64 = 32;

/// `p_memsz`, how many bytes it has in memory ("Program Header").
pub const P_MEMSZ_32: u64 = 20;

/// `p_memsz` of a 64-bit file.
pub const P_MEMSZ_64: u64 = 40;

/// Where memory ends that can be addressed in 32-bit mode. No segment may pass it (own).
pub const ADDRESS_END: u64 = 1 << 32;
