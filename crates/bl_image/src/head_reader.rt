//! The head of an image, read.
ghost use Rattle.std.specs.Prelude.{◌≤◌, ◌<◌, ◌^◌, IfOk, IfSome};
ghost use Rattle.bl_mem.specs.LittleEndian.{u32_bytes};
ghost use Rattle.bl_plan.specs.Protocols as protocols;
ghost use Rattle.bl_load.specs.HandoffFacts.{max_parts};
ghost use Rattle.bl_image.specs.Fields.{magic_field, version_field, protocol_field, count_field};
ghost use Rattle.bl_image.specs.Fields.{zero_field};
ghost use Rattle.bl_image.specs.Image.{magic, head};
ghost use Rattle.bl_image.specs.ImageFaults.{head_fault};
ghost use Rattle.bl_image.specs.internal.SourceReading.{ReadsField, ReadsOrRefuses};
ghost use Rattle.bl_image.specs.internal.SourceReading.{IsFoundByNumber};
ghost use Rattle.bl_image.specs.Spellable.{AreRegistersOf};
ghost use Rattle.bl_image.specs.Versions.{version_number, max_protocol, HasProtocol};

use crate::fault::ImageFault;
use crate::field_reader::{read_exact, read_u32};
use crate::front::{MAGIC, MAX_COUNT};
use crate::register_reader::read_registers;
use crate::source::Source;
use crate::version::Version;
use bl_load::{Protocol, Registers};

/// What the head of an image says.
#[derive(Clone, Copy)]
pub(crate) struct Head {
    pub(crate) version: Version,
    pub(crate) protocol: Protocol,
    pub(crate) registers: Registers,
    pub(crate) count: u32,
}

fn read_magic<S: Source>(source: &mut S) -> Result<(), ImageFault>
    requires { S.faults source.old < 2 ^ 63 }
    ensures { ReadsField S.input S.faults source.old source.new magic_field (λ _. magic) result }
{
    let mut field = [0u8; 8];
    read_exact(source, &mut field)?;
    if field != MAGIC {
        return Err(ImageFault::BadMagic);
    }
    Ok(())
}

fn version_of(number: u32) -> Option<Version>
    ensures { IsFoundByNumber version_number 2 number result }
{
    match number {
        1 => Some(Version::One),
        2 => Some(Version::Two),
        _ => None,
    }
}

fn read_version<S: Source>(source: &mut S) -> Result<Version, ImageFault>
    requires { S.faults source.old < 2 ^ 63 }
    ensures { ReadsField S.input S.faults source.old source.new version_field
        (λ version. u32_bytes (version_number version)) result }
{
    let number = read_u32(source)?;
    let Some(version) = version_of(number) else {
        return Err(ImageFault::BadVersion);
    };
    Ok(version)
}

fn protocol_of(version: Version, number: u32) -> Option<Protocol>
    ensures number { IsFoundByNumber protocols.protocol_number
        (max_protocol (version_number version)) number result }
    ensures has { IfSome result (HasProtocol version) }
{
    match (version, number) {
        (_, 1) => Some(Protocol::Multiboot2),
        (_, 2) => Some(Protocol::Linux),
        (Version::Two, 3) => Some(Protocol::Linux64),
        _ => None,
    }
}

/// Reads the protocol, which is one of the version.
fn read_protocol<S: Source>(source: &mut S, version: Version) -> Result<Protocol, ImageFault>
    requires { S.faults source.old < 2 ^ 63 }
    ensures read { ReadsField S.input S.faults source.old source.new
        (protocol_field (version_number version))
        (λ protocol. u32_bytes (protocols.protocol_number protocol)) result }
    ensures has { IfOk result (HasProtocol version) }
{
    let number = read_u32(source)?;
    let Some(protocol) = protocol_of(version, number) else {
        return Err(ImageFault::BadHeader);
    };
    Ok(protocol)
}

fn read_count<S: Source>(source: &mut S) -> Result<u32, ImageFault>
    requires { S.faults source.old < 2 ^ 63 }
    ensures read { ReadsField S.input S.faults source.old source.new count_field u32_bytes result }
    ensures few { IfOk result (λ count. count ≤ max_parts) }
{
    let count = read_u32(source)?;
    if count > MAX_COUNT {
        return Err(ImageFault::BadHeader);
    }
    Ok(count)
}

fn read_zero<S: Source>(source: &mut S) -> Result<(), ImageFault>
    requires { S.faults source.old < 2 ^ 63 }
    ensures { ReadsField S.input S.faults source.old source.new zero_field
        (λ _. u32_bytes 0) result }
{
    if read_u32(source)? != 0 {
        return Err(ImageFault::BadHeader);
    }
    Ok(())
}

/// Reads the head of an image, field by field: first what tells how it goes on.
pub(crate) fn read_head<S: Source>(source: &mut S) -> Result<Head, ImageFault>
    requires { S.faults source.old < 2 ^ 63 }
    ensures read { ReadsOrRefuses S.input S.faults source.old source.new head_fault
        (λ h. head h.version h.protocol h.registers h.count) result }
    ensures fit { IfOk result (λ h. AreRegistersOf h.protocol h.registers) }
    ensures has { IfOk result (λ h. HasProtocol h.version h.protocol) }
    ensures few { IfOk result (λ h. h.count ≤ max_parts) }
{
    read_magic(source)?;
    let version = read_version(source)?;
    let protocol = read_protocol(source, version)?;
    let registers = read_registers(source, version, protocol)?;
    let count = read_count(source)?;
    read_zero(source)?;
    Ok(Head {
        version,
        protocol,
        registers,
        count,
    })
}
