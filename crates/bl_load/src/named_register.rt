//! The registers by their names.
ghost use Rattle.std.specs.Prelude.{◌≡◌, map};
ghost use Rattle.std.specs.List.{slice_get};
ghost use Rattle.std.specs.Option.{option_map};
ghost use Rattle.bl_load.specs.NamedRegisters as names;

use crate::registers::{Registers, Registers32};
use crate::registers64::Registers64;

/// A register by its name, that of the field of `Registers32` or `Registers64`, with its value. It
/// prints as `eip=0x100000`: the value in lower-case hex, with no leading zeros.
#[derive(Clone, Copy, Debug, PartialEq, Eq)]
pub struct NamedRegister {
    pub name: &'static str,
    pub value: u64,
}

/// The registers of these fields, each by the field's name.
macro_rules! registers_of {
    ($registers:expr, $($name:ident)*) => {
        [$(NamedRegister {
            name: stringify!($name),
            value: $registers.$name as u64,
        }),*]
    };
}

impl Registers32 {
    ghost use Rattle.std.specs.Prelude.{◌≡◌, map};
    ghost use Rattle.bl_load.specs.NamedRegisters.{named, narrow_named};

    /// Each register by its name, in the fields' order.
    pub fn named(self) -> [NamedRegister; 20]
        ensures { map named result ≡ narrow_named self }
    {
        registers_of!(
            self,
            eip eax ebx ecx edx esi edi ebp esp eflags cr0 cs ds es fs gs ss gdt_base gdt_limit
            a20
        )
    }
}

impl Registers64 {
    ghost use Rattle.std.specs.Prelude.{◌≡◌, map};
    ghost use Rattle.bl_load.specs.NamedRegisters.{named, wide_named};

    /// Each register by its name, in the fields' order.
    pub fn named(self) -> [NamedRegister; 31]
        ensures { map named result ≡ wide_named self }
    {
        registers_of!(
            self,
            rip rax rbx rcx rdx rsi rdi rbp rsp r8 r9 r10 r11 r12 r13 r14 r15 rflags cr0 cr3 cr4
            efer cs ds es fs gs ss gdt_base gdt_limit a20
        )
    }
}

/// The one of this number, if there is one.
fn numbered(registers: &[NamedRegister], index: usize) -> Option<NamedRegister>
    ensures { option_map names.named result ≡ slice_get (map names.named registers.now) index }
{
    registers.get(index).copied()
}

impl Registers {
    ghost use Rattle.std.specs.Prelude.{◌≡◌, length};
    ghost use Rattle.std.specs.List.{slice_get};
    ghost use Rattle.std.specs.Option.{option_map};
    ghost use Rattle.bl_load.specs.NamedRegisters.{named, named_in};

    /// How many registers they are: 20 of 32 bits, or 31 of 64 bits.
    pub fn count(self) -> usize
        ensures { result ≡ length (named_in self) }
    {
        match self {
            Registers::Bits32(_) => 20,
            Registers::Bits64(_) => 31,
        }
    }

    /// The register of this number, from 0 on in the fields' order, or none from `count` on.
    pub fn named(self, index: usize) -> Option<NamedRegister>
        ensures { option_map named result ≡ slice_get (named_in self) index }
    {
        match self {
            Registers::Bits32(r) => numbered(&r.named(), index),
            Registers::Bits64(r) => numbered(&r.named(), index),
        }
    }
}
