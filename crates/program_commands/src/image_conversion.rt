//! The conversion of an image: it is written anew, in the version of the format that is written.
ghost use Rattle.std.specs.Prelude.{◌≡◌, ◌⊎◌, ◌<◌, ◌^◌};
ghost use Rattle.program_commands.specs.Converted.{IsConverted, IsTorn, ConvertStops};
ghost use Rattle.program_commands.specs.ReadImage.{IsUnreadable};

use bl_image::{ImageFault, Sink, Source, read_image, write_value};
use program_say::say_bad_image;
use std::alloc::Allocator;

/// Reads an image to the end of a source, in either version, and writes what it says to `out`, in
/// the version that is written. What is read is whole before the first byte is written.
///
/// The status is 0, 2 where the image is refused by its reader, with 71 to 75, 3 where the source
/// or the sink had a fault, or 4 where memory ran out. With 2 the line `bad image N` is appended to
/// `blame`, and only then. Nothing is written but with 0, and with 3 a beginning.
pub fn convert<A: Allocator + Copy, R: Source, S: Sink, B: Allocator>(
    alloc: A,
    image: &mut R,
    out: &mut S,
    blame: &mut Vec<u8, B>,
) -> u8
    requires source { R.faults image.old < 2 ^ 63 }
    requires sink { S.faults out.old < 2 ^ 63 }
    ensures status { (result ≡ 0) ⊎ (result ≡ 2) ⊎ (result ≡ 3) ⊎ (result ≡ 4) }

    // The sink took the image that came, in the version that is written.
    ensures converted { result ≡ 0 → IsConverted (R.input image.old) (R.input image.new)
        (S.contents out.old) (S.contents out.new) }
    ensures blamed { result ≡ 2 → IsUnreadable (R.input image.old) (R.input image.new)
        blame.old.items blame.new.items }

    // The source's faults rose and nothing was taken, or the sink's did and it took a beginning.
    ensures torn { result ≡ 3 → ConvertStops (R.faults image.old) (R.faults image.new)
        (S.faults out.old) (S.faults out.new) (S.contents out.old) (S.contents out.new)
        (IsTorn (R.input image.old) (R.input image.new)) }
    ensures untaken { (result ≡ 2) ⊎ (result ≡ 4) → S.contents out.new ≡ S.contents out.old }
    ensures unblamed { ¬ (result ≡ 2) → blame.new.items ≡ blame.old.items }
    ensures sound { ¬ (result ≡ 3) → (R.faults image.new ≡ R.faults image.old)
        × (S.faults out.new ≡ S.faults out.old) }
{
    let read = match read_image(alloc, image) {
        Ok(read) => read,
        Err(ImageFault::DeviceFault) => return 3,
        Err(ImageFault::NoMemory) => return 4,
        Err(fault) => {
            return match say_bad_image(alloc, blame, fault.number()) {
                Ok(()) => 2,
                Err(_) => 4,
            };
        }
    };
    match write_value(&read, out) {
        Ok(()) => 0,
        Err(_) => 3,
    }
}
