//! What C is told, as plain records. A word that is `reserved` is 0: it may get a meaning later.

/// The words that are reserved where a record has several.
pub const NO_WORDS: [u64; 4] = [0, 0, 0, 0];

/// The registers as a kernel begins. `bits` is 32 or 64: with 32 those that have another name then
/// (`eip`, `eax`, `ebx` and so on) are told under their names of 64 bits, and those that a
/// processor has with 64 bits alone are 0. A segment register's number is its selector; A20 is 1
/// where the gate is open.
#[repr(C)]
#[derive(Clone, Copy)]
pub struct RegistersRecord {
    pub bits: u64,
    pub rip: u64,
    pub rax: u64,
    pub rbx: u64,
    pub rcx: u64,
    pub rdx: u64,
    pub rsi: u64,
    pub rdi: u64,
    pub rbp: u64,
    pub rsp: u64,
    pub r8: u64,
    pub r9: u64,
    pub r10: u64,
    pub r11: u64,
    pub r12: u64,
    pub r13: u64,
    pub r14: u64,
    pub r15: u64,
    pub rflags: u64,
    pub cr0: u64,
    pub cr3: u64,
    pub cr4: u64,
    pub efer: u64,
    pub cs: u64,
    pub ds: u64,
    pub es: u64,
    pub fs: u64,
    pub gs: u64,
    pub ss: u64,
    pub gdt_base: u64,
    pub gdt_limit: u64,
    pub a20: u64,
    pub reserved: [u64; 4],
}

/// A part in memory: the number of its role, 1 to 8, its index among those of its role, the address
/// of its first byte, and its length.
#[repr(C)]
#[derive(Clone, Copy)]
pub struct PlaceRecord {
    pub role: u32,
    pub index: u32,
    pub address: u64,
    pub length: u64,
    pub reserved: u64,
}

/// Why an entry was refused: the entry's index, the refusal's number, and what it carries, if
/// anything, else 0.
#[repr(C)]
#[derive(Clone, Copy)]
pub struct RefusalRecord {
    pub entry: u32,
    pub number: u32,
    pub first: u64,
    pub second: u64,
    pub reserved: u64,
}

/// What is handed over, beside the places: the entry's index, the number of its protocol, how many
/// places there are, and the registers.
#[repr(C)]
#[derive(Clone, Copy)]
pub struct HandoffRecord {
    pub entry: u32,
    pub protocol: u32,
    pub places: u32,
    pub reserved: u32,
    pub registers: RegistersRecord,
}
