//! Reads an image.
ghost use Rattle.std.specs.Prelude.{◌≡◌, ◌+◌, ◌<◌, ◌^◌, List, ℕ, [], Some, IfOk, OnOk, IfErr};
ghost use Rattle.std.specs.Prelude.{MatchResult};
ghost use Rattle.bl_load.specs.Handover.{Handover};
ghost use Rattle.bl_image.specs.Image.{spelling};
ghost use Rattle.bl_image.specs.ImageFaults.{image_fault, end_fault};
ghost use Rattle.bl_image.specs.ImageHandover.{IsKeptByImages, IsImage};
ghost use Rattle.bl_image.specs.SourceFacts.{Comes, IsEnded, IsInputFault, IsBytesFault};
ghost use Rattle.bl_image.specs.SourceFacts.{faults_met};
ghost use Rattle.bl_image.specs.SourceFacts.{IsTransient};
ghost use Rattle.bl_image.specs.internal.SourceReading.{ReadsOrRefuses};
ghost use Rattle.bl_image.specs.Versions.{HasProtocol};
ghost use Rattle.bl_image.specs.declared.version.Version.{Version};

use crate::fault::ImageFault;
use crate::head_reader::read_head;
use crate::image::Image;
use crate::part_reader::read_parts;
use crate::record_reader::read_records;
use crate::source::{Source, fill};
use std::alloc::Allocator;

/// Sees that nothing follows.
fn read_end<S: Source>(source: &mut S) -> Result<(), ImageFault>
    requires { S.faults source.old < 2 ^ 63 }
    ensures read { ReadsOrRefuses S.input S.faults source.old source.new (end_fault 0)
        (λ _. []) result }
    ensures ended { OnOk result (IsEnded (S.input source.new)) }
{
    let mut next = [0u8; 1];
    if fill(source, &mut next)? != 0 {
        return Err(ImageFault::WrongLength);
    }
    Ok(())
}

/// Reads an image to the end of the source, or answers why that is none: the first fault in the
/// order of reading, each field judged as soon as it came. It reads no further than it must, and
/// takes memory only for what came. The source may have a fault at any read, and memory may be
/// refused at any growth.
pub fn read_image<S: Source, A: Allocator + Copy>(
    alloc: A,
    source: &mut S,
) -> Result<Image<A>, ImageFault>
    requires { S.faults source.old < 2 ^ 63 }

    // The image's one spelling in a version came, and then the end.
    ensures ok { IfOk result (λ image. (version : Version)
        × HasProtocol version image.protocol
        × Comes (S.input source.old) (S.input source.new) (spelling version image)) }
    ensures ended { OnOk result (IsEnded (S.input source.new)) }
    ensures kept { IfOk result IsKeptByImages }

    // What came has that first fault, whatever may follow.
    ensures refused { IfErr result
        (IsInputFault image_fault (S.input source.old) (S.input source.new)) }

    // The source's faults rose exactly where that is the answer.
    ensures faults { S.faults source.new ≡ S.faults source.old + faults_met result }

    // Where it is known what is to come, that decides.
    ensures known { (bytes : List ℕ) → (S.input source.old).rest ≡ Some bytes
        → MatchResult result (λ image. (version : Version) × IsImage version bytes image)
        (IsBytesFault image_fault bytes) }
    ensures accepts { (bytes : List ℕ) → (S.input source.old).rest ≡ Some bytes
        → (version : Version) (handover : Handover) → IsImage version bytes handover
        → MatchResult result (λ image. image ≡ handover) IsTransient }
{
    let head = read_head(source)?;
    let places = read_records(alloc, source, head.registers.are_wide(), head.count)?;
    let parts = read_parts(alloc, source, &places)?;
    read_end(source)?;
    Ok(Image::new(head.protocol, head.registers, parts))
}
