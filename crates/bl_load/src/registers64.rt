//! The state of the processor as a kernel begins that is entered with 64 bits.
ghost use Rattle.std.specs.Prelude.{◌≡◌};
ghost use Rattle.bl_load.specs.Registers as state;

/// The registers as a kernel begins that is entered with 64 bits and with paging (Linux/x86 boot
/// protocol, "64-bit boot protocol"). A segment register's number is its selector; A20 is 1 where
/// the gate is open.
#[derive(Clone, Copy, Debug, PartialEq, Eq)]
pub struct Registers64 {
    pub rip: u64,
    pub rax: u64,
    pub rbx: u64,
    pub rcx: u64,
    pub rdx: u64,
    pub rsi: u64,
    pub rdi: u64,
    pub rbp: u64,
    pub rsp: u64,
    pub r8: u64,
    pub r9: u64,
    pub r10: u64,
    pub r11: u64,
    pub r12: u64,
    pub r13: u64,
    pub r14: u64,
    pub r15: u64,
    pub rflags: u64,
    pub cr0: u64,
    pub cr3: u64,
    pub cr4: u64,
    pub efer: u64,
    pub cs: u64,
    pub ds: u64,
    pub es: u64,
    pub fs: u64,
    pub gs: u64,
    pub ss: u64,
    pub gdt_base: u64,
    pub gdt_limit: u64,
    pub a20: u64,
}

/// The last byte of the descriptors, counted from the first.
const GDT_LIMIT: u64 = 31;

/// The registers that a Linux kernel begins with by its 64-bit entry: paging is on (CR0 bit 31, CR4
/// bit 5, EFER bits 8 and 10), over the page tables at `tables`.
pub fn linux64_registers(entry: u64, boot_params: u64, gdt: u64, tables: u64) -> Registers64
    ensures { result ≡ state.linux64_registers entry boot_params gdt tables }
{
    Registers64 {
        rip: entry,
        rax: 0,
        rbx: 0,
        rcx: 0,
        rdx: 0,
        rsi: boot_params,
        rdi: 0,
        rbp: 0,
        rsp: 0,
        r8: 0,
        r9: 0,
        r10: 0,
        r11: 0,
        r12: 0,
        r13: 0,
        r14: 0,
        r15: 0,
        rflags: 2,
        cr0: 0x8000_0011,
        cr3: tables,
        cr4: 0x20,
        efer: 0x500,
        cs: 0x10,
        ds: 0x18,
        es: 0x18,
        fs: 0x18,
        gs: 0x18,
        ss: 0x18,
        gdt_base: gdt,
        gdt_limit: GDT_LIMIT,
        a20: 1,
    }
}
