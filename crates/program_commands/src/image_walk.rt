//! The walk of an image: what a kernel sees in it, as it is said.
ghost use Rattle.std.specs.Prelude.{◌≡◌, ◌⊎◌, ◌+◌, ◌<◌, ◌^◌};
ghost use Rattle.program_commands.specs.Walked.{IsWalked, IsBlamed};
ghost use Rattle.program_commands.specs.internal.WalkEnds.{WalkEnds, source_faults};

use crate::image_walk::walk_end::WalkEnd;
use bl_image::{Source, read_image};
use bl_walk::walk;
use program_say::{say_bad_image, say_walk};
use std::alloc::Allocator;

mod walk_end;

/// The same as `walk_to`, with its end in place of the status.
fn run_walk<A: Allocator + Copy, R: Source, B: Allocator>(
    alloc: A,
    image: &mut R,
    say: &mut Vec<u8, B>,
) -> Result<(), WalkEnd>
    requires { R.faults image.old < 2 ^ 63 }
    ensures ends { WalkEnds (R.input image.old) (R.input image.new) say.old.items say.new.items
        result }
    ensures faults { R.faults image.new ≡ R.faults image.old + source_faults result }
{
    let image = read_image(alloc, image)?;
    let seen = walk(alloc, &image)?;
    say_walk(alloc, &seen, say)?;
    Ok(())
}

/// Reads an image to the end of a source, and appends the lines of what a kernel sees in it to
/// `say`: its protocol, where it is entered, its line, the kernel's parts, the modules, the initial
/// ramdisk, the memory map, the copies of RSDPs.
///
/// The status is 0, 2 where the image is refused, with 71 to 75 by its reader or with 81 to 83 by
/// what a kernel would see, 3 where the source had a fault, or 4 where memory ran out. With 2 the
/// line `bad image N` is appended to `blame`, and only then. Nothing is said but with 0.
pub fn walk_to<A: Allocator + Copy, R: Source, B: Allocator, C: Allocator>(
    alloc: A,
    image: &mut R,
    say: &mut Vec<u8, B>,
    blame: &mut Vec<u8, C>,
) -> u8
    requires { R.faults image.old < 2 ^ 63 }
    ensures status { (result ≡ 0) ⊎ (result ≡ 2) ⊎ (result ≡ 3) ⊎ (result ≡ 4) }
    ensures walked { result ≡ 0
        → IsWalked (R.input image.old) (R.input image.new) say.old.items say.new.items }
    ensures blamed { result ≡ 2
        → IsBlamed (R.input image.old) (R.input image.new) blame.old.items blame.new.items }
    ensures unsaid { ¬ (result ≡ 0) → say.new.items ≡ say.old.items }
    ensures unblamed { ¬ (result ≡ 2) → blame.new.items ≡ blame.old.items }

    // The source has a fault more exactly where the walk ends in one.
    ensures fault { result ≡ 3 → R.faults image.new ≡ R.faults image.old + 1 }
    ensures sound { ¬ (result ≡ 3) → R.faults image.new ≡ R.faults image.old }
{
    match run_walk(alloc, image, say) {
        Ok(()) => 0,
        Err(WalkEnd::BadImage(number)) => match say_bad_image(alloc, blame, number) {
            Ok(()) => 2,
            Err(_) => 4,
        },
        Err(WalkEnd::Device) => 3,
        Err(WalkEnd::NoMemory) => 4,
    }
}
