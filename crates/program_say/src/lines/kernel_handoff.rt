//! What a kernel is handed, line by line, for a person.
ghost use Rattle.std.specs.Prelude.{◌≡◌, OnErr, OnOk};
ghost use Rattle.std.specs.Io.{StartsWith};

use crate::lines::addresses::say_address;
use crate::lines::hex16::say_hex16;
use crate::lines::part_names::part_name;
use crate::lines::part_sources::say_steps;
use crate::lines::walk::say_protocol;
use crate::say;
use bl_load::{Handoff, NamedRegister, Place, Registers, Step};
use std::alloc::{AllocError, Allocator};

/// Appends what a part is, which one of its role, its address, its length.
fn say_part_front<A: Allocator + Copy>(
    out: &mut Vec<u8, A>,
    place: &Place,
) -> Result<(), AllocError> {
    say!(out, "part {} {}", part_name(place.role), place.index)?;
    say_address(out, " ", place.address, " ")?;
    say!(out, "{} from ", place.length)
}

fn say_part<A: Allocator + Copy>(
    out: &mut Vec<u8, A>,
    steps: &[Step],
    place: &Place,
) -> Result<(), AllocError> {
    say_part_front(out, place)?;
    say_steps(out, true, steps, place)?;
    out.extend_from_slice(b"\n")
}

fn say_parts<A: Allocator + Copy, B: Allocator>(
    out: &mut Vec<u8, A>,
    steps: &[Step],
    handoff: &Handoff<B>,
) -> Result<(), AllocError> {
    for index in 0..handoff.len() {
        say_part(out, steps, &handoff.place(index))?;
    }
    Ok(())
}

fn say_named<A: Allocator + Copy>(
    out: &mut Vec<u8, A>,
    registers: &[NamedRegister],
) -> Result<(), AllocError> {
    match registers {
        [] => Ok(()),
        [first, rest @ ..] => {
            say!(out, "register {}", first.name)?;
            say_hex16(out, " ", first.value, "\n")?;
            say_named(out, rest)
        }
    }
}

/// Appends the lines of registers, in the order of an image.
fn say_registers<A: Allocator + Copy>(
    out: &mut Vec<u8, A>,
    registers: &Registers,
) -> Result<(), AllocError> {
    match registers {
        Registers::Bits32(r) => say_named(out, &r.named()),
        Registers::Bits64(r) => say_named(out, &r.named()),
    }
}

fn say_handed<A: Allocator + Copy, B: Allocator>(
    out: &mut Vec<u8, A>,
    steps: &[Step],
    handoff: &Handoff<B>,
) -> Result<(), AllocError> {
    say_protocol(out, handoff.protocol())?;
    say_parts(out, steps, handoff)?;
    say_registers(out, &handoff.registers())
}

/// Appends the lines of what a kernel is handed by these steps: the protocol, the parts in address
/// order with the sources of their bytes, the registers. An error leaves the text as it was.
pub fn say_handoff<A: Allocator + Copy, B: Allocator>(
    out: &mut Vec<u8, A>,
    steps: &[Step],
    handoff: &Handoff<B>,
) -> Result<(), AllocError>
    ensures ok { OnOk result (StartsWith out.new.items out.old.items) }
    ensures err { OnErr result (out.new.items ≡ out.old.items) }
{
    let mut lines = Vec::new(*out.allocator());
    say_handed(&mut lines, steps, handoff)?;
    out.extend_from_slice(&lines)
}
