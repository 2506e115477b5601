//! The bytes of the parts, from memory to a sink.
ghost use Rattle.std.specs.Prelude.{◌≡◌, ◌+◌, ◌≤◌, ◌<◌, ◌^◌, ◌++◌, length, slice_range, All, OnOk};
ghost use Rattle.std.specs.Prelude.{OnErr, IfOk};
ghost use Rattle.std.specs.List.{flat_map};
ghost use Rattle.bl_image.specs.SinkFacts.{TookBeginning};
ghost use Rattle.bl_image.specs.internal.PlaceRecords.{place_bytes};
ghost use Rattle.bl_image.specs.internal.SinkWriting.{Writes};

use crate::sink::{DeviceFault, Sink, write_all};
use bl_load::Handoff;
use bl_mem::PhysMem;
use bl_plan::Place;
use std::alloc::Allocator;

/// How many bytes memory is asked to lend at once at most, so that few calls write a long part.
const MAX_LENT: u64 = 65536;

/// How many bytes are copied at once at most where memory lends none. Each call of the sink costs
/// something, so it is more than a frame; the buffer lies on the stack, so it is no more. What
/// stands before the parts goes through the same buffer, so it is no less than `MAX_FRONT`.
pub(crate) const MAX_COPIED: usize = 16384;

/// Writes what stands in memory from `at` on, as much as the buffer holds, by way of the buffer.
fn write_copy<M: PhysMem, S: Sink>(
    memory: &M,
    sink: &mut S,
    at: u64,
    buffer: &mut [u8],
) -> Result<(), DeviceFault>
    requires inside { at + length buffer.old ≤ length (M.bytes memory.now) }
    requires faults { S.faults sink.old < 2 ^ 63 }
    ensures { Writes S.contents S.faults sink.old sink.new
        (slice_range (M.bytes memory.now) at (at + length buffer.old)) result }
{
    memory.read(at, buffer);
    write_all(sink, buffer)
}

/// Writes a beginning of so many bytes that stand in memory from `at` on, and answers how many: all
/// of them if memory lends them, else as many as the buffer holds.
fn write_piece<M: PhysMem, S: Sink>(
    memory: &M,
    sink: &mut S,
    at: u64,
    most: usize,
    buffer: &mut [u8],
) -> Result<usize, DeviceFault>
    requires inside { at + most ≤ length (M.bytes memory.now) }
    requires room { 1 ≤ length buffer.old }
    requires faults { S.faults sink.old < 2 ^ 63 }
    ensures ok { IfOk result (λ count. S.contents sink.new ≡ S.contents sink.old
        ++ slice_range (M.bytes memory.now) at (at + count)) }
    ensures within { IfOk result (λ count. count ≤ most) }
    ensures some { IfOk result (λ count. 1 ≤ most → 1 ≤ count) }
    ensures sound { OnOk result (S.faults sink.new ≡ S.faults sink.old) }
    ensures begun { OnErr result (TookBeginning (S.contents sink.old) (S.contents sink.new)
        (slice_range (M.bytes memory.now) at (at + most))) }
    ensures fault { OnErr result (S.faults sink.new ≡ S.faults sink.old + 1) }
{
    match memory.lend(at, most) {
        Some(part) => {
            write_all(sink, part)?;
            Ok(most)
        }
        None => {
            let count = most.min(buffer.len());
            write_copy(memory, sink, at, &mut buffer[..count])?;
            Ok(count)
        }
    }
}

/// Writes what stands in memory at a place: again and again it asks for the bytes up to the next
/// multiple of `MAX_LENT`, and goes on behind those that were written.
fn write_part<M: PhysMem, S: Sink>(
    memory: &M,
    sink: &mut S,
    place: &Place,
    buffer: &mut [u8],
) -> Result<(), DeviceFault>
    requires inside { place.now.address + place.now.length ≤ length (M.bytes memory.now) }
    requires room { 1 ≤ length buffer.old }
    requires faults { S.faults sink.old < 2 ^ 63 }
    ensures { Writes S.contents S.faults sink.old sink.new
        (place_bytes (M.bytes memory.now) place.now) result }
{
    // For the proof: each address lies below 2^64.
    let _size = memory.size();
    let mut done = 0u64;
    while done < place.length {
        let at = place.address + done;
        let next = (place.length - done).min(MAX_LENT - at % MAX_LENT);
        let count = write_piece(memory, sink, at, next as usize, buffer)?;
        done += count as u64;
    }
    Ok(())
}

/// Writes what stands in memory at each place, in the order of addresses.
pub(crate) fn write_parts<M: PhysMem, S: Sink, A: Allocator>(
    memory: &M,
    sink: &mut S,
    handoff: &Handoff<A>,
    buffer: &mut [u8],
) -> Result<(), DeviceFault>
    requires inside { All (λ place. place.address + place.length ≤ length (M.bytes memory.now))
        handoff.now.places }
    requires room { 1 ≤ length buffer.old }
    requires faults { S.faults sink.old < 2 ^ 63 }
    ensures { Writes S.contents S.faults sink.old sink.new
        (flat_map (place_bytes (M.bytes memory.now)) handoff.now.places) result }
{
    for i in 0..handoff.len() {
        let place = handoff.place(i);
        write_part(memory, sink, &place, buffer)?;
    }
    Ok(())
}
