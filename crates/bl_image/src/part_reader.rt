//! The bytes of an image's parts, read.
ghost use Rattle.std.specs.Prelude.{◌≡◌, ◌≤◌, ◌<◌, ◌^◌, length, map, All, IfOk};
ghost use Rattle.std.specs.List.{flat_map};
ghost use Rattle.bl_image.specs.ImageHandover.{part_place};
ghost use Rattle.bl_image.specs.internal.PlaceRecords.{total_length};
ghost use Rattle.bl_image.specs.internal.SourceReading.{ReadsBytes, AppendsBytes};

use crate::fault::ImageFault;
use crate::field_reader::read_exact;
use crate::image::ImagePart;
use crate::source::Source;
use bl_mem::Bytes;
use bl_plan::Place;
use std::alloc::Allocator;

/// How many bytes are read at once by way of the stack, which is small where firmware runs.
const SMALL_READ: usize = 4096;

/// How many bytes are read at once at most.
const MAX_READ: u64 = 65536;

/// Reads so many bytes to the end of the vector, by way of a buffer: memory is taken once they
/// came.
fn read_small<S: Source, A: Allocator>(
    source: &mut S,
    bytes: &mut Vec<u8, A>,
    count: usize,
) -> Result<(), ImageFault>
    requires faults { S.faults source.old < 2 ^ 63 }
    requires small { count ≤ 4096 }
    ensures { AppendsBytes S.input S.faults source.old source.new bytes.old.items bytes.new.items
        count result }
{
    let mut buffer = [0u8; SMALL_READ];
    let piece = &mut buffer[..count];
    read_exact(source, piece)?;
    bytes.extend_from_slice(piece)?;
    Ok(())
}

/// Reads so many bytes to the end of the vector, where they stay: memory is taken before they come.
fn read_large<S: Source, A: Allocator>(
    source: &mut S,
    bytes: &mut Vec<u8, A>,
    count: usize,
) -> Result<(), ImageFault>
    requires faults { S.faults source.old < 2 ^ 63 }
    requires few { count ≤ 65536 }
    ensures { AppendsBytes S.input S.faults source.old source.new bytes.old.items bytes.new.items
        count result }
{
    let from = bytes.len();
    bytes.resize(from + count, 0)?;
    let piece = &mut bytes[from..];
    read_exact(source, piece)?;
    Ok(())
}

/// Reads so many bytes to the end of the vector.
fn read_piece<S: Source, A: Allocator>(
    source: &mut S,
    bytes: &mut Vec<u8, A>,
    count: usize,
) -> Result<(), ImageFault>
    requires faults { S.faults source.old < 2 ^ 63 }
    requires few { count ≤ 65536 }
    ensures { AppendsBytes S.input S.faults source.old source.new bytes.old.items bytes.new.items
        count result }
{
    if count <= SMALL_READ {
        read_small(source, bytes, count)
    } else {
        read_large(source, bytes, count)
    }
}

/// How many bytes of a part are read next, if so many of them came and so many are left: no more
/// than came, but for the first ones.
fn next_read(came: u64, left: u64) -> u64
    ensures within { result ≤ left }
    ensures some { 1 ≤ left → 1 ≤ result }
    ensures few { result ≤ 65536 }
{
    left.min(came.max(SMALL_READ as u64).min(MAX_READ))
}

/// Reads so many bytes, in pieces: memory is taken for what came and for as much again at most, not
/// for what was claimed.
fn read_bytes<S: Source, A: Allocator>(
    alloc: A,
    source: &mut S,
    count: u64,
) -> Result<Vec<u8, A>, ImageFault>
    requires faults { S.faults source.old < 2 ^ 63 }
    requires few { count ≤ 2 ^ 32 }
    ensures read { ReadsBytes S.input S.faults source.old source.new count
        (λ bytes. bytes.items) result }
    ensures count { IfOk result (λ bytes. length bytes.items ≡ count) }
{
    let mut bytes = Vec::new(alloc);
    let mut done = 0u64;
    while done < count {
        let next = next_read(done, count - done);
        read_piece(source, &mut bytes, next as usize)?;
        done += next;
    }
    Ok(bytes)
}

/// Reads the part at a place.
fn read_part<S: Source, A: Allocator>(
    alloc: A,
    source: &mut S,
    place: &Place,
) -> Result<ImagePart<A>, ImageFault>
    requires faults { S.faults source.old < 2 ^ 63 }
    requires few { place.now.length ≤ 2 ^ 32 }
    ensures read { ReadsBytes S.input S.faults source.old source.new place.now.length
        (λ part. part.bytes) result }
    ensures place { IfOk result (λ part. part_place part ≡ place.now) }
{
    let held = read_bytes(alloc, source, place.length)?;
    let bytes = Bytes::from(held);
    Ok(ImagePart::new(place.role, place.index, place.address, bytes))
}

/// Reads the parts at these places, one after the other.
pub(crate) fn read_parts<S: Source, A: Allocator + Copy>(
    alloc: A,
    source: &mut S,
    places: &[Place],
) -> Result<Vec<ImagePart<A>, A>, ImageFault>
    requires faults { S.faults source.old < 2 ^ 63 }
    requires few { All (λ place. place.length ≤ 2 ^ 32) places.now }
    ensures read { ReadsBytes S.input S.faults source.old source.new (total_length places.now)
        (λ parts. flat_map (λ part. part.bytes) parts.items) result }
    ensures places { IfOk result (λ parts. map part_place parts.items ≡ places.now) }
{
    let mut parts = Vec::new(alloc);
    for i in 0..places.len() {
        let part = read_part(alloc, source, &places[i])?;
        parts.push(part)?;
    }
    Ok(parts)
}
