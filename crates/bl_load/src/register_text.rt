//! How registers print.
ghost use Rattle.std.specs.Prelude.{map, Some};
ghost use Rattle.std.specs.Fmt.{DisplaysOnOk};
ghost use Rattle.bl_load.specs.NamedRegisters as names;

use crate::named_register::NamedRegister;
use crate::registers::{Registers, Registers32};
use crate::registers64::Registers64;
use std::fmt;

impl fmt::Display for NamedRegister {
    ghost use Rattle.std.specs.Prelude.{Some};
    ghost use Rattle.bl_load.specs.NamedRegisters.{named, register_text};

    ghost output = { λ r. Some (register_text (named r)) };

    fn fmt<W: fmt::Write>(&self, f: &mut fmt::Formatter<W>) -> fmt::Result {
        let NamedRegister { name, value } = *self;
        write!(f, "{name}=0x{value:x}")
    }
}

/// Each after a blank.
fn write_spaced<W: fmt::Write>(
    registers: &[NamedRegister],
    f: &mut fmt::Formatter<W>,
) -> fmt::Result
    ensures { DisplaysOnOk W.Write.write_str_gives f.old result
        (Some (names.spaced_text (map names.named registers.now))) f.new }
{
    match registers {
        [] => Ok(()),
        [first, rest @ ..] => {
            write!(f, " {first}")?;
            write_spaced(rest, f)
        }
    }
}

/// In one line, with a blank between two.
fn write_registers<W: fmt::Write>(
    registers: &[NamedRegister],
    f: &mut fmt::Formatter<W>,
) -> fmt::Result
    ensures { DisplaysOnOk W.Write.write_str_gives f.old result
        (Some (names.registers_text (map names.named registers.now))) f.new }
{
    match registers {
        [] => Ok(()),
        [first, rest @ ..] => {
            write!(f, "{first}")?;
            write_spaced(rest, f)
        }
    }
}

/// Each register by its name in one line, as `eip=0x100000 eax=0x36d76289`, in the fields' order.
impl fmt::Display for Registers32 {
    ghost use Rattle.std.specs.Prelude.{Some};
    ghost use Rattle.bl_load.specs.NamedRegisters.{narrow_named, registers_text};

    ghost output = { λ r. Some (registers_text (narrow_named r)) };

    fn fmt<W: fmt::Write>(&self, f: &mut fmt::Formatter<W>) -> fmt::Result {
        write_registers(&self.named(), f)
    }
}

/// Each register by its name in one line, as `rip=0x1000200 rax=0x0`, in the fields' order.
impl fmt::Display for Registers64 {
    ghost use Rattle.std.specs.Prelude.{Some};
    ghost use Rattle.bl_load.specs.NamedRegisters.{wide_named, registers_text};

    ghost output = { λ r. Some (registers_text (wide_named r)) };

    fn fmt<W: fmt::Write>(&self, f: &mut fmt::Formatter<W>) -> fmt::Result {
        write_registers(&self.named(), f)
    }
}

/// Each register by its name in one line, in the fields' order.
impl fmt::Display for Registers {
    ghost use Rattle.std.specs.Prelude.{Some};
    ghost use Rattle.bl_load.specs.NamedRegisters.{named_in, registers_text};

    ghost output = { λ r. Some (registers_text (named_in r)) };

    fn fmt<W: fmt::Write>(&self, f: &mut fmt::Formatter<W>) -> fmt::Result {
        match self {
            Registers::Bits32(r) => fmt::Display::fmt(r, f),
            Registers::Bits64(r) => fmt::Display::fmt(r, f),
        }
    }
}
