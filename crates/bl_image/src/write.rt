//! Writes the image of a handoff.
ghost use Rattle.std.specs.Prelude.{◌≡◌, ◌+◌, ◌≤◌, ◌<◌, ◌^◌, ◌++◌, length, All, OnOk, OnErr, IfErr};
ghost use Rattle.bl_load.specs.PlanContents.{handover_in};
ghost use Rattle.bl_image.specs.SinkFacts.{TookBeginning};
ghost use Rattle.bl_image.specs.Image.{spelling};
ghost use Rattle.bl_image.specs.ImageHandover.{IsKeptByImages};
ghost use Rattle.bl_image.specs.Versions.{written_version};

use crate::fault::ImageFault;
use crate::front::write_front;
use crate::part_writer::{MAX_COPIED, write_parts};
use crate::sink::Sink;
use bl_load::Handoff;
use bl_mem::PhysMem;
use std::alloc::Allocator;

/// Writes the image of what memory hands over: the head, a record for each part, the parts' bytes,
/// and nothing else. It takes no memory, but has a buffer of 16384 bytes on the stack. Its one
/// error is a fault of the sink, which then took a beginning of the image.
pub fn write_image<M: PhysMem, S: Sink, A: Allocator>(
    handoff: &Handoff<A>,
    memory: &M,
    sink: &mut S,
) -> Result<(), ImageFault>
    requires inside { All (λ place. place.address + place.length ≤ length (M.bytes memory.now))
        handoff.now.places }
    requires faults { S.faults sink.old < 2 ^ 63 }
    ensures ok { OnOk result (S.contents sink.new ≡ S.contents sink.old
        ++ spelling written_version (handover_in (M.bytes memory.now)
        handoff.now.protocol handoff.now.registers handoff.now.places)) }
    ensures sound { OnOk result (S.faults sink.new ≡ S.faults sink.old) }
    ensures begun { OnErr result (TookBeginning (S.contents sink.old) (S.contents sink.new)
        (spelling written_version (handover_in (M.bytes memory.now)
        handoff.now.protocol handoff.now.registers handoff.now.places))) }
    ensures fault { OnErr result (S.faults sink.new ≡ S.faults sink.old + 1) }
    ensures device { IfErr result (λ fault. fault ≡ ImageFault.DeviceFault) }

    // Whatever is handed over is what images keep, so that its image tells all of it, by
    // `image_tells_all`, and is read again, by `read_image.accepts`.
    ensures kept { IsKeptByImages (handover_in (M.bytes memory.now)
        handoff.now.protocol handoff.now.registers handoff.now.places) }
{
    // For the proof: what a handoff keeps.
    let _len = handoff.len();
    let mut buffer = [0u8; MAX_COPIED];
    write_front(
        sink,
        handoff.protocol(),
        &handoff.registers(),
        handoff,
        &mut buffer,
    )?;
    write_parts(memory, sink, handoff, &mut buffer)?;
    Ok(())
}
