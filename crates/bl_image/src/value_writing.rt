//! Writes the image of what an image says.
ghost use Rattle.std.specs.Prelude.{◌≡◌, ◌+◌, ◌<◌, ◌^◌, ◌++◌, OnOk, OnErr, IfErr};
ghost use Rattle.std.specs.List.{flat_map};
ghost use Rattle.bl_image.specs.SinkFacts.{TookBeginning};
ghost use Rattle.bl_image.specs.Image.{spelling};
ghost use Rattle.bl_image.specs.ImageHandover.{IsKeptByImages};
ghost use Rattle.bl_image.specs.internal.SinkWriting.{Writes};
ghost use Rattle.bl_image.specs.Versions.{written_version};

use crate::fault::ImageFault;
use crate::front::{MAX_FRONT, write_front};
use crate::image::{Image, ImagePart};
use crate::sink::{DeviceFault, Sink, write_all};
use std::alloc::Allocator;

/// Writes the bytes of the parts, one after the other.
fn write_bytes<S: Sink, A: Allocator>(
    parts: &[ImagePart<A>],
    sink: &mut S,
) -> Result<(), DeviceFault>
    requires { S.faults sink.old < 2 ^ 63 }
    ensures { Writes S.contents S.faults sink.old sink.new
        (flat_map (λ part. part.bytes) parts.now) result }
{
    for part in parts {
        write_all(sink, part.bytes())?;
    }
    Ok(())
}

/// Writes the image of what an image says, in the version that is written, whichever version it was
/// read from. It takes no memory. Its one error is a fault of the sink, which then took a beginning
/// of the image.
pub fn write_value<S: Sink, A: Allocator>(image: &Image<A>, sink: &mut S) -> Result<(), ImageFault>
    requires { S.faults sink.old < 2 ^ 63 }
    ensures ok { OnOk result (S.contents sink.new ≡ S.contents sink.old
        ++ spelling written_version image.now) }
    ensures sound { OnOk result (S.faults sink.new ≡ S.faults sink.old) }
    ensures begun { OnErr result (TookBeginning (S.contents sink.old) (S.contents sink.new)
        (spelling written_version image.now)) }
    ensures fault { OnErr result (S.faults sink.new ≡ S.faults sink.old + 1) }
    ensures device { IfErr result (λ fault. fault ≡ ImageFault.DeviceFault) }

    // What an image says is what images keep, so that it is read again, by `read_image.accepts`.
    ensures kept { IsKeptByImages image.now }
{
    let parts = image.parts();
    let mut buffer = [0u8; MAX_FRONT];
    write_front(
        sink,
        image.protocol(),
        &image.registers(),
        image,
        &mut buffer,
    )?;
    write_bytes(parts, sink)?;
    Ok(())
}
