//! The state of the processor as a kernel begins.
ghost use Rattle.std.specs.Prelude.{◌≡◌};
ghost use Rattle.bl_load.specs.Registers as state;

use crate::registers64::Registers64;

/// The registers as a kernel begins that is entered with 32 bits (Multiboot2 3.3 "I386 machine
/// state"; Linux/x86 boot protocol, "32-bit boot protocol"). A segment register's number is its
/// selector; A20 is 1 where the gate is open.
#[derive(Clone, Copy, Debug, PartialEq, Eq)]
pub struct Registers32 {
    pub eip: u32,
    pub eax: u32,
    pub ebx: u32,
    pub ecx: u32,
    pub edx: u32,
    pub esi: u32,
    pub edi: u32,
    pub ebp: u32,
    pub esp: u32,
    pub eflags: u32,
    pub cr0: u32,
    pub cs: u32,
    pub ds: u32,
    pub es: u32,
    pub fs: u32,
    pub gs: u32,
    pub ss: u32,
    pub gdt_base: u32,
    pub gdt_limit: u32,
    pub a20: u32,
}

/// The registers as a kernel begins: of a processor in protected mode, or in 64-bit mode.
#[derive(Clone, Copy, Debug, PartialEq, Eq)]
pub enum Registers {
    Bits32(Registers32),
    Bits64(Registers64),
}

impl Registers {
    ghost use Rattle.std.specs.Prelude.{◌≡◌};
    ghost use Rattle.bl_load.specs.Registers.{entry_in, information_in, params_in, gdt_in};
    ghost use Rattle.bl_load.specs.Registers.{page_tables_in, are_wide};

    /// Whether they are those of 64 bits.
    pub fn are_wide(self) -> bool
        ensures { result ≡ are_wide self }
    {
        match self {
            Registers::Bits32(_) => false,
            Registers::Bits64(_) => true,
        }
    }

    /// Where the kernel is entered.
    pub fn entry_point(self) -> u64
        ensures { result ≡ entry_in self }
    {
        match self {
            Registers::Bits32(r) => r.eip as u64,
            Registers::Bits64(r) => r.rip,
        }
    }

    /// Where a Multiboot2 kernel finds its information (Multiboot2 3.3 "I386 machine state").
    pub fn information(self) -> u64
        ensures { result ≡ information_in self }
    {
        match self {
            Registers::Bits32(r) => r.ebx as u64,
            Registers::Bits64(r) => r.rbx,
        }
    }

    /// Where a Linux kernel finds its boot parameters (Linux/x86 boot protocol, "32-bit boot
    /// protocol" and "64-bit boot protocol").
    pub fn params(self) -> u64
        ensures { result ≡ params_in self }
    {
        match self {
            Registers::Bits32(r) => r.esi as u64,
            Registers::Bits64(r) => r.rsi,
        }
    }

    /// Where the descriptors of segments stand.
    pub fn gdt(self) -> u64
        ensures { result ≡ gdt_in self }
    {
        match self {
            Registers::Bits32(r) => r.gdt_base as u64,
            Registers::Bits64(r) => r.gdt_base,
        }
    }

    /// Where the page tables stand, 0 with 32 bits, which have none.
    pub fn tables(self) -> u64
        ensures { result ≡ page_tables_in self }
    {
        match self {
            Registers::Bits32(_) => 0,
            Registers::Bits64(r) => r.cr3,
        }
    }
}

/// What `eax` tells a kernel: it was loaded by a boot loader of Multiboot2 (3.3 "I386 machine
/// state").
const BOOTLOADER_MAGIC: u32 = 0x36D7_6289;

/// The registers that a Multiboot2 kernel begins with.
pub fn multiboot2_registers(entry: u32, information: u32) -> Registers32
    ensures { result ≡ state.multiboot2_registers entry information }
{
    Registers32 {
        eip: entry,
        eax: BOOTLOADER_MAGIC,
        ebx: information,
        ecx: 0,
        edx: 0,
        esi: 0,
        edi: 0,
        ebp: 0,
        esp: 0,
        eflags: 2,
        cr0: 0x11,
        cs: 0x10,
        ds: 0x18,
        es: 0x18,
        fs: 0x18,
        gs: 0x18,
        ss: 0x18,
        gdt_base: 0,
        gdt_limit: 0,
        a20: 1,
    }
}

/// The last byte of the descriptors, counted from the first.
const GDT_LIMIT: u32 = 31;

/// The registers that a Linux kernel begins with.
pub fn linux_registers(kernel: u32, boot_params: u32, gdt: u32) -> Registers32
    ensures { result ≡ state.linux_registers kernel boot_params gdt }
{
    Registers32 {
        eip: kernel,
        eax: 0,
        ebx: 0,
        ecx: 0,
        edx: 0,
        esi: boot_params,
        edi: 0,
        ebp: 0,
        esp: 0,
        eflags: 2,
        cr0: 0x11,
        cs: 0x10,
        ds: 0x18,
        es: 0x18,
        fs: 0x18,
        gs: 0x18,
        ss: 0x18,
        gdt_base: gdt,
        gdt_limit: GDT_LIMIT,
        a20: 1,
    }
}
