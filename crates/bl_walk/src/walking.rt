//! What a kernel sees in an image.
ghost use Rattle.std.specs.Prelude.{IfOk, OnOk, IfErr};
ghost use Rattle.bl_walk.specs.Faults.{HasWalkFault, IsSound};
ghost use Rattle.bl_walk.specs.Seen.{IsSeen};
ghost use Rattle.bl_walk.specs.EntryShown.{RunsEndLow};

use crate::fault::WalkFault;
use crate::information::shown_by_information;
use crate::parameters::shown_by_parameters;
use crate::seen::Seen;
use crate::state::check_state;
use bl_image::Image;
use bl_load::Protocol;
use std::alloc::Allocator;

/// What a kernel sees that follows the addresses in its registers, or why the image is none that a
/// kernel can be entered with. Of several faults that stand any may be answered.
pub fn walk<'a, A: Allocator + Copy>(
    alloc: A,
    image: &'a Image<A>,
) -> Result<Seen<'a, A>, WalkFault>
    ensures seen { IfOk result (IsSeen image.now) }

    // No fault but want of memory stands where a value is answered.
    ensures sound { OnOk result (IsSound image.now) }

    // Each run ends at most at 2^52.
    ensures low { IfOk result RunsEndLow }
    ensures fault { IfErr result (HasWalkFault image.now) }
{
    check_state(image)?;
    match image.protocol() {
        Protocol::Multiboot2 => shown_by_information(alloc, image),
        Protocol::Linux | Protocol::Linux64 => shown_by_parameters(alloc, image),
    }
}
