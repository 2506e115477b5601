//! The image of what memory hands over.
ghost use Rattle.std.specs.Prelude.{◌≡◌, ◌+◌, ◌≤◌, length, All, IfOk};
ghost use Rattle.bl_load.specs.PlanContents.{part_in, handover_in};

use crate::image::{Image, ImagePart};
use bl_load::Handoff;
use bl_mem::{Bytes, PhysMem};
use bl_plan::Place;
use std::alloc::{AllocError, Allocator};

/// The part that memory holds at a place.
fn part_of<M: PhysMem, A: Allocator>(
    alloc: A,
    memory: &M,
    place: &Place,
) -> Result<ImagePart<A>, AllocError>
    requires { place.now.address + place.now.length ≤ length (M.bytes memory.now) }
    ensures { IfOk result (λ part. part ≡ part_in (M.bytes memory.now) place.now) }
{
    // For the proof: each address lies below 2^64.
    let _size = memory.size();
    let mut held = Vec::from_elem(alloc, 0u8, place.length as usize)?;
    memory.read(place.address, held.as_mut_slice());
    let bytes = Bytes::from(held);
    Ok(ImagePart::new(place.role, place.index, place.address, bytes))
}

impl<A: Allocator + Copy> Image<A> {
    /// The image of what memory holds at the places of a handoff, or that memory for the copy was
    /// refused.
    pub fn of<M: PhysMem>(
        alloc: A,
        handoff: &Handoff<A>,
        memory: &M,
    ) -> Result<Image<A>, AllocError>
        requires { All (λ place. place.address + place.length ≤ length (M.bytes memory.now))
            handoff.now.places }
        ensures { IfOk result (λ image. image ≡ handover_in (M.bytes memory.now)
            handoff.now.protocol handoff.now.registers handoff.now.places) }
    {
        let mut parts = Vec::new(alloc);
        for i in 0..handoff.len() {
            let part = part_of(alloc, memory, &handoff.place(i))?;
            parts.push(part)?;
        }
        Ok(Image::new(handoff.protocol(), handoff.registers(), parts))
    }
}
