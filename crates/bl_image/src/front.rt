//! The head of an image, and its records.
ghost use Rattle.std.specs.Prelude.{◌≡◌, ◌+◌, ◌*◌, ◌<◌, ◌≤◌, ◌^◌, ◌++◌, length, take};
ghost use Rattle.bl_load.specs.HandoffFacts.{IsWellFormedHandoff};
ghost use Rattle.bl_load.specs.Handover.{Handover};
ghost use Rattle.bl_image.specs.Front.{front_of};
ghost use Rattle.bl_image.specs.Image.{head};
ghost use Rattle.bl_image.specs.ImageHandover.{handoff_of};
ghost use Rattle.bl_image.specs.internal.PlaceRecords.{place_record, image_front, AreOfHandoff};
ghost use Rattle.bl_image.specs.internal.PlaceRecords.{AreSpellable};
ghost use Rattle.bl_image.specs.internal.SinkWriting.{Writes};
ghost use Rattle.bl_image.specs.Spellable.{AreFit};
ghost use Rattle.bl_image.specs.Versions.{written_version};

use crate::places::Places;
use crate::register_numbers::{WIDE, numbers_of};
use crate::sink::{DeviceFault, Sink, write_all};
use crate::version::Version;
use bl_load::{Protocol, Registers};
use bl_mem::{write_u32s, write_u64s};
use bl_plan::{MAX_PARTS, Place};

/// What an image begins with.
pub(crate) const MAGIC: [u8; 8] = *b"BLIMAGE\0";

/// The most parts, as a head counts them.
pub(crate) const MAX_COUNT: u32 = MAX_PARTS as u32;

/// Where the version stands in the head that is written, with the protocol behind it.
const VERSION_AT: usize = 8;

/// Where the registers stand.
const REGISTERS_AT: usize = 16;

/// Where the number of parts stands, with a zero word behind it.
const COUNT_AT: usize = REGISTERS_AT + 8 * WIDE;

/// How many bytes the head that is written has.
pub(crate) const HEAD: usize = COUNT_AT + 8;

/// How many bytes a record has, and where in it the address stands, with the length behind it.
pub(crate) const RECORD: usize = 24;

const ADDRESS_AT: usize = 8;

/// How many bytes an image has at most before those of its parts.
pub const MAX_FRONT: usize = HEAD + RECORD * MAX_PARTS;

/// The record of a part.
fn record_bytes(place: &Place) -> [u8; RECORD]
    ensures bytes { result ≡ place_record place.now }
    ensures index { place.now.index < 2 ^ 32 }
{
    let mut bytes = [0u8; RECORD];
    write_u32s(
        &[place.role.number(), place.index],
        &mut bytes[..ADDRESS_AT],
    );
    write_u64s(&[place.address, place.length], &mut bytes[ADDRESS_AT..]);
    bytes
}

/// Puts bytes into the buffer, from `at` on.
fn write_at(buffer: &mut [u8], at: usize, bytes: &[u8])
    requires { at + length bytes.now ≤ length buffer.old }
    ensures { take (at + length bytes.now) buffer.new ≡ take at buffer.old ++ bytes.now }
{
    let end = at + bytes.len();
    buffer[at..end].copy_from_slice(bytes);
}

/// The head of an image with so many parts.
fn head_bytes(protocol: Protocol, r: &Registers, count: u32) -> [u8; HEAD]
    ensures bytes { result ≡ head written_version protocol r.now count }
    ensures fit { AreFit r.now }
{
    let mut opening = [0u8; 8];
    write_u32s(&[Version::Two.number(), protocol.number()], &mut opening);
    let mut numbers = [0u8; 8 * WIDE];
    write_u64s(&numbers_of(r), &mut numbers);
    let mut closing = [0u8; 8];
    write_u32s(&[count, 0], &mut closing);
    let mut bytes = [0u8; HEAD];
    write_at(&mut bytes, 0, &MAGIC);
    write_at(&mut bytes, VERSION_AT, &opening);
    write_at(&mut bytes, REGISTERS_AT, &numbers);
    write_at(&mut bytes, COUNT_AT, &closing);
    bytes
}

/// Puts all that stands before the parts' bytes into the buffer, and says how many bytes it has.
fn put_front<P: Places>(
    buffer: &mut [u8],
    protocol: Protocol,
    registers: &Registers,
    places: &P,
) -> usize
    requires room { MAX_FRONT ≤ length buffer.old }
    requires kept { AreOfHandoff protocol registers.now (P.places places.now) }
    ensures within { result ≤ length buffer.new }
    ensures front { take result buffer.new
        ≡ image_front protocol registers.now (P.places places.now) }
    ensures fit { AreSpellable registers.now (P.places places.now) }
{
    let count = places.count();
    let bytes = head_bytes(protocol, registers, count as u32);
    write_at(buffer, 0, &bytes);
    for i in 0..count {
        let place = places.place_at(i);
        write_at(buffer, HEAD + RECORD * i, &record_bytes(&place));
    }
    HEAD + RECORD * count
}

/// Writes all that stands before the parts' bytes, at once: the head with this protocol and these
/// registers, and the records of these places, which are a handoff's.
pub(crate) fn write_front<S: Sink, P: Places>(
    sink: &mut S,
    protocol: Protocol,
    registers: &Registers,
    places: &P,
    buffer: &mut [u8],
) -> Result<(), DeviceFault>
    requires room { MAX_FRONT ≤ length buffer.old }
    requires kept { AreOfHandoff protocol registers.now (P.places places.now) }
    requires faults { S.faults sink.old < 2 ^ 63 }
    ensures written { Writes S.contents S.faults sink.old sink.new
        (image_front protocol registers.now (P.places places.now)) result }
    ensures fit { AreSpellable registers.now (P.places places.now) }
{
    let count = put_front(buffer, protocol, registers, places);
    write_all(sink, &buffer[..count])
}

/// Puts all that an image has before the bytes of its parts into the buffer, and says how many
/// bytes that are: the head with this protocol and these registers, and the records of these
/// places, which are a handoff's. No byte of a part is asked for.
pub fn front_bytes<P: Places>(
    out: &mut [u8],
    protocol: Protocol,
    registers: &Registers,
    places: &P,
) -> usize
    requires room { MAX_FRONT ≤ length out.old }
    requires kept { IsWellFormedHandoff (record {
      protocol = protocol;
      registers = registers.now;
      places = P.places places.now;
    }) }
    ensures within { result ≤ length out.new }

    // Whatever bytes the parts have, this stands before them.
    ensures front { (h : Handover) → handoff_of h ≡ record {
      protocol = protocol;
      registers = registers.now;
      places = P.places places.now;
    } → take result out.new ≡ front_of written_version h }
{
    put_front(out, protocol, registers, places)
}
