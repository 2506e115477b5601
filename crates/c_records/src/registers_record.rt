//! Registers as C is told them.
ghost use Rattle.std.specs.Prelude.{◌≡◌};
ghost use Rattle.c_records.specs.LoadTold as spec;

use crate::end_records::{NO_WORDS, RegistersRecord};
use bl_load::{Registers, Registers32, Registers64};

fn told_32(r: &Registers32) -> RegistersRecord
    ensures { result ≡ spec.told_32 r.now }
{
    RegistersRecord {
        bits: 32,
        rip: r.eip as u64,
        rax: r.eax as u64,
        rbx: r.ebx as u64,
        rcx: r.ecx as u64,
        rdx: r.edx as u64,
        rsi: r.esi as u64,
        rdi: r.edi as u64,
        rbp: r.ebp as u64,
        rsp: r.esp as u64,
        r8: 0,
        r9: 0,
        r10: 0,
        r11: 0,
        r12: 0,
        r13: 0,
        r14: 0,
        r15: 0,
        rflags: r.eflags as u64,
        cr0: r.cr0 as u64,
        cr3: 0,
        cr4: 0,
        efer: 0,
        cs: r.cs as u64,
        ds: r.ds as u64,
        es: r.es as u64,
        fs: r.fs as u64,
        gs: r.gs as u64,
        ss: r.ss as u64,
        gdt_base: r.gdt_base as u64,
        gdt_limit: r.gdt_limit as u64,
        a20: r.a20 as u64,
        reserved: NO_WORDS,
    }
}

fn told_64(r: &Registers64) -> RegistersRecord
    ensures { result ≡ spec.told_64 r.now }
{
    RegistersRecord {
        bits: 64,
        rip: r.rip,
        rax: r.rax,
        rbx: r.rbx,
        rcx: r.rcx,
        rdx: r.rdx,
        rsi: r.rsi,
        rdi: r.rdi,
        rbp: r.rbp,
        rsp: r.rsp,
        r8: r.r8,
        r9: r.r9,
        r10: r.r10,
        r11: r.r11,
        r12: r.r12,
        r13: r.r13,
        r14: r.r14,
        r15: r.r15,
        rflags: r.rflags,
        cr0: r.cr0,
        cr3: r.cr3,
        cr4: r.cr4,
        efer: r.efer,
        cs: r.cs,
        ds: r.ds,
        es: r.es,
        fs: r.fs,
        gs: r.gs,
        ss: r.ss,
        gdt_base: r.gdt_base,
        gdt_limit: r.gdt_limit,
        a20: r.a20,
        reserved: NO_WORDS,
    }
}

/// The registers under their names of 64 bits.
pub fn registers_told(registers: &Registers) -> RegistersRecord
    ensures { result ≡ spec.registers_told registers.now }
{
    match registers {
        Registers::Bits32(r) => told_32(r),
        Registers::Bits64(r) => told_64(r),
    }
}
