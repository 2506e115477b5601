//! The digests of an image that is there.
ghost use Rattle.std.specs.Prelude.{◌≡◌, ◌⊎◌, ◌+◌, ◌<◌, ◌^◌};
ghost use Rattle.program_commands.specs.ReadImage.{IsUnreadable};
ghost use Rattle.program_commands.specs.digesting.ImageDigested.{IsImageDigested};

use bl_image::{ImageFault, Source, read_image};
use program_boots::say_image;
use program_say::say_bad_image;
use std::alloc::Allocator;

/// Reads an image to the end of a source, in either version, and appends the lines of its digests
/// to `say`: of the image in the version that is written, of its head and records, and of each
/// part.
///
/// The status is 0, 2 where the image is refused by its reader, with 71 to 75, 3 where the source
/// had a fault, or 4 where memory ran out. With 2 the line `bad image N` is appended to `blame`,
/// and only then. Nothing is said but with 0.
pub fn digest_image_to<A: Allocator + Copy, R: Source, B: Allocator, C: Allocator>(
    alloc: A,
    image: &mut R,
    say: &mut Vec<u8, B>,
    blame: &mut Vec<u8, C>,
) -> u8
    requires { R.faults image.old < 2 ^ 63 }
    ensures status { (result ≡ 0) ⊎ (result ≡ 2) ⊎ (result ≡ 3) ⊎ (result ≡ 4) }
    ensures digested { result ≡ 0
        → IsImageDigested (R.input image.old) (R.input image.new) say.old.items say.new.items }
    ensures blamed { result ≡ 2
        → IsUnreadable (R.input image.old) (R.input image.new) blame.old.items blame.new.items }
    ensures unsaid { ¬ (result ≡ 0) → say.new.items ≡ say.old.items }
    ensures unblamed { ¬ (result ≡ 2) → blame.new.items ≡ blame.old.items }

    // The source has a fault more exactly where the digest ends in one.
    ensures fault { result ≡ 3 → R.faults image.new ≡ R.faults image.old + 1 }
    ensures sound { ¬ (result ≡ 3) → R.faults image.new ≡ R.faults image.old }
{
    let read = match read_image(alloc, image) {
        Ok(read) => read,
        Err(ImageFault::DeviceFault) => return 3,
        Err(ImageFault::NoMemory) => return 4,
        Err(fault) => {
            return match say_bad_image(alloc, blame, fault.number()) {
                Ok(()) => 2,
                Err(_) => 4,
            };
        }
    };
    match say_image(alloc, &read, say) {
        Ok(()) => 0,
        Err(_) => 4,
    }
}
