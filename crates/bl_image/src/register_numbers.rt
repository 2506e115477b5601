//! The numbers of registers, and the registers of numbers.
ghost use Rattle.std.specs.Prelude.{◌≡◌, ◌<◌, ◌^◌, ◌++◌, length, All};
ghost use Rattle.bl_load.specs.declared.registers.Registers.TheVariants.{Bits32, Bits64};
ghost use Rattle.bl_image.specs.Image.{narrow_values};
ghost use Rattle.bl_image.specs.Image as image;
ghost use Rattle.bl_image.specs.Spellable.{AreFit};

use bl_load::{Registers, Registers32, Registers64};

/// How many registers an image of version 2 has.
pub(crate) const WIDE: usize = 31;

/// The numbers of the registers of 32 bits, in the order of those of 64; what they do not give is
/// 0.
fn zero_extended_numbers(r: &Registers32) -> [u64; WIDE]
    ensures wide { result ≡ image.wide_values (Bits32 r.now) }
    ensures fit { All (λ n. n < 2 ^ 32) (narrow_values r.now) }
{
    [
        r.eip as u64,
        r.eax as u64,
        r.ebx as u64,
        r.ecx as u64,
        r.edx as u64,
        r.esi as u64,
        r.edi as u64,
        r.ebp as u64,
        r.esp as u64,
        0,
        0,
        0,
        0,
        0,
        0,
        0,
        0,
        r.eflags as u64,
        r.cr0 as u64,
        0,
        0,
        0,
        r.cs as u64,
        r.ds as u64,
        r.es as u64,
        r.fs as u64,
        r.gs as u64,
        r.ss as u64,
        r.gdt_base as u64,
        r.gdt_limit as u64,
        r.a20 as u64,
    ]
}

/// The numbers of the registers of 64 bits, in their order.
fn wide_numbers(r: Registers64) -> [u64; WIDE]
    ensures wide { result ≡ image.wide_values (Bits64 r) }
    ensures fit { All (λ n. n < 2 ^ 64) (image.wide_values (Bits64 r)) }
{
    [
        r.rip,
        r.rax,
        r.rbx,
        r.rcx,
        r.rdx,
        r.rsi,
        r.rdi,
        r.rbp,
        r.rsp,
        r.r8,
        r.r9,
        r.r10,
        r.r11,
        r.r12,
        r.r13,
        r.r14,
        r.r15,
        r.rflags,
        r.cr0,
        r.cr3,
        r.cr4,
        r.efer,
        r.cs,
        r.ds,
        r.es,
        r.fs,
        r.gs,
        r.ss,
        r.gdt_base,
        r.gdt_limit,
        r.a20,
    ]
}

/// The numbers of registers, in their order.
pub(crate) fn numbers_of(r: &Registers) -> [u64; WIDE]
    ensures wide { result ≡ image.wide_values r.now }
    ensures fit { AreFit r.now }
{
    match r {
        Registers::Bits32(r) => zero_extended_numbers(r),
        Registers::Bits64(r) => wide_numbers(*r),
    }
}

/// The registers that have these numbers, in their order: 9 from the address where the kernel is
/// entered on, the flags and the control register, and 9 from the code segment on.
pub(crate) fn narrow_registers_of(first: &[u32], flags: &[u32], last: &[u32]) -> Registers32
    requires first { length first.now ≡ 9 }
    requires flags { length flags.now ≡ 2 }
    requires last { length last.now ≡ 9 }
    ensures { narrow_values result ≡ first.now ++ (flags.now ++ last.now) }
{
    Registers32 {
        eip: first[0],
        eax: first[1],
        ebx: first[2],
        ecx: first[3],
        edx: first[4],
        esi: first[5],
        edi: first[6],
        ebp: first[7],
        esp: first[8],
        eflags: flags[0],
        cr0: flags[1],
        cs: last[0],
        ds: last[1],
        es: last[2],
        fs: last[3],
        gs: last[4],
        ss: last[5],
        gdt_base: last[6],
        gdt_limit: last[7],
        a20: last[8],
    }
}

/// The registers of 64 bits that have these numbers, in their order.
pub(crate) fn wide_registers_of(numbers: &[u64]) -> Registers64
    requires { length numbers.now ≡ 31 }
    ensures { image.wide_values (Bits64 result) ≡ numbers.now }
{
    Registers64 {
        rip: numbers[0],
        rax: numbers[1],
        rbx: numbers[2],
        rcx: numbers[3],
        rdx: numbers[4],
        rsi: numbers[5],
        rdi: numbers[6],
        rbp: numbers[7],
        rsp: numbers[8],
        r8: numbers[9],
        r9: numbers[10],
        r10: numbers[11],
        r11: numbers[12],
        r12: numbers[13],
        r13: numbers[14],
        r14: numbers[15],
        r15: numbers[16],
        rflags: numbers[17],
        cr0: numbers[18],
        cr3: numbers[19],
        cr4: numbers[20],
        efer: numbers[21],
        cs: numbers[22],
        ds: numbers[23],
        es: numbers[24],
        fs: numbers[25],
        gs: numbers[26],
        ss: numbers[27],
        gdt_base: numbers[28],
        gdt_limit: numbers[29],
        a20: numbers[30],
    }
}
