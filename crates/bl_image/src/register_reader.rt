//! The registers of an image, read.
ghost use Rattle.std.specs.Prelude.{◌<◌, ◌^◌, All, IfOk, OnOk, length};
ghost use Rattle.std.specs.Prelude.{replicate};
ghost use Rattle.std.specs.List.{flat_map};
ghost use Rattle.bl_mem.specs.LittleEndian.{u64_bytes};
ghost use Rattle.bl_plan.specs.Protocols as protocols;
ghost use Rattle.bl_load.specs.declared.registers.Registers.TheVariants.{Bits32, Bits64};
ghost use Rattle.bl_image.specs.Image.{spelled_registers};
ghost use Rattle.bl_image.specs.Fields as fields;
ghost use Rattle.bl_image.specs.Layouts.{layout, layout_1, layout_2_narrow, layout_2_wide};
ghost use Rattle.bl_image.specs.internal.SourceReading.{ReadsField, ReadsFields};
ghost use Rattle.bl_image.specs.Spellable.{AreFit, AreRegistersOf};
ghost use Rattle.bl_image.specs.Versions.{version_number, HasProtocol};
ghost use Rattle.bl_image.specs.declared.version.Version.TheVariants as version;

use crate::fault::ImageFault;
use crate::field_reader::{read_u32s, read_u64, read_u64s};
use crate::register_numbers::{WIDE, narrow_registers_of, wide_registers_of};
use crate::source::Source;
use crate::version::Version;
use bl_load::{Protocol, Registers, Registers32, Registers64};

/// How many registers an image of version 1 has.
const REGISTERS: usize = LOW + FLAGS + HIGH;

/// How many registers of an entry of 32 bits stand from the address where the kernel is entered on,
/// how many are the flags and the control register, and how many stand from the code segment on.
const LOW: usize = 9;

const FLAGS: usize = 2;

const HIGH: usize = 9;

/// How many registers that an entry of 32 bits does not give stand in version 2 in front of the
/// flags, R8 to R15, and behind the control register: CR3, CR4 and EFER.
const EXTRA: usize = 8;

const PAGING: usize = 3;

/// Reads the registers of version 1, of which each may be anything.
fn read_any_registers<S: Source>(source: &mut S) -> Result<Registers32, ImageFault>
    requires { S.faults source.old < 2 ^ 63 }
    ensures read { ReadsFields S.input S.faults source.old source.new layout_1.registers
        (λ r. spelled_registers version.One (Bits32 r)) result }
    ensures fit { IfOk result (λ r. AreFit (Bits32 r)) }
{
    let mut numbers = [0u32; REGISTERS];
    read_u32s(source, &mut numbers)?;
    Ok(narrow_registers_of(
        &numbers[..LOW],
        &numbers[LOW..LOW + FLAGS],
        &numbers[LOW + FLAGS..],
    ))
}

/// Reads a register of 64 bits, of which the protocol gives 32.
fn read_narrow<S: Source>(source: &mut S) -> Result<u32, ImageFault>
    requires { S.faults source.old < 2 ^ 63 }
    ensures read { ReadsField S.input S.faults source.old source.new
        fields.zero_extended_field u64_bytes result }
    ensures fits { IfOk result (λ n. n < 2 ^ 32) }
{
    let number = read_u64(source)?;
    if number > u32::MAX as u64 {
        return Err(ImageFault::BadHeader);
    }
    Ok(number as u32)
}

/// Reads a register that the protocol does not give.
fn read_absent<S: Source>(source: &mut S) -> Result<(), ImageFault>
    requires { S.faults source.old < 2 ^ 63 }
    ensures { ReadsField S.input S.faults source.old source.new fields.absent_field
        (λ _. u64_bytes 0) result }
{
    if read_u64(source)? != 0 {
        return Err(ImageFault::BadHeader);
    }
    Ok(())
}

/// Reads as many registers of 64 bits as `out` holds, of which the protocol gives 32.
fn read_narrows<S: Source>(source: &mut S, out: &mut [u32]) -> Result<(), ImageFault>
    requires { S.faults source.old < 2 ^ 63 }
    ensures read { ReadsFields S.input S.faults source.old source.new
        (replicate (length out.new) fields.zero_extended_field)
        (λ _. flat_map u64_bytes out.new) result }
    ensures fit { OnOk result (All (λ n. n < 2 ^ 32) out.new) }
{
    for i in 0..out.len() {
        out[i] = read_narrow(source)?;
    }
    Ok(())
}

/// Reads so many registers that the protocol does not give.
fn read_absents<S: Source>(source: &mut S, count: usize) -> Result<(), ImageFault>
    requires { S.faults source.old < 2 ^ 63 }
    ensures { ReadsFields S.input S.faults source.old source.new
        (replicate count fields.absent_field) (λ _. flat_map u64_bytes (replicate count 0)) result }
{
    for _i in 0..count {
        read_absent(source)?;
    }
    Ok(())
}

/// Reads the registers of version 2 under a protocol of 32 bits.
fn read_narrow_registers<S: Source>(source: &mut S) -> Result<Registers32, ImageFault>
    requires { S.faults source.old < 2 ^ 63 }
    ensures read { ReadsFields S.input S.faults source.old source.new
        layout_2_narrow.registers (λ r. spelled_registers version.Two (Bits32 r)) result }
    ensures fit { IfOk result (λ r. AreFit (Bits32 r)) }
{
    let mut first = [0u32; LOW];
    read_narrows(source, &mut first)?;
    read_absents(source, EXTRA)?;
    let mut flags = [0u32; FLAGS];
    read_narrows(source, &mut flags)?;
    read_absents(source, PAGING)?;
    let mut last = [0u32; HIGH];
    read_narrows(source, &mut last)?;
    Ok(narrow_registers_of(&first, &flags, &last))
}

/// Reads the registers of version 2 under a protocol of 64 bits, of which each may be anything.
fn read_wide_registers<S: Source>(source: &mut S) -> Result<Registers64, ImageFault>
    requires { S.faults source.old < 2 ^ 63 }
    ensures read { ReadsFields S.input S.faults source.old source.new
        layout_2_wide.registers (λ r. spelled_registers version.Two (Bits64 r)) result }
    ensures fit { IfOk result (λ r. AreFit (Bits64 r)) }
{
    let mut numbers = [0u64; WIDE];
    read_u64s(source, &mut numbers)?;
    Ok(wide_registers_of(&numbers))
}

/// Reads the registers of a protocol as this version has them.
pub(crate) fn read_registers<S: Source>(
    source: &mut S,
    version: Version,
    protocol: Protocol,
) -> Result<Registers, ImageFault>
    requires faults { S.faults source.old < 2 ^ 63 }
    requires has { HasProtocol version protocol }
    ensures read { ReadsFields S.input S.faults source.old source.new
        (layout (version_number version) (protocols.protocol_number protocol)).registers
        (spelled_registers version) result }
    ensures fit { IfOk result (AreRegistersOf protocol) }
{
    match (version, protocol) {
        (Version::One, _) => Ok(Registers::Bits32(read_any_registers(source)?)),
        (Version::Two, Protocol::Multiboot2 | Protocol::Linux) => {
            Ok(Registers::Bits32(read_narrow_registers(source)?))
        }
        (Version::Two, Protocol::Linux64) => Ok(Registers::Bits64(read_wide_registers(source)?)),
    }
}
