//! Places, which are written as records.
ghost use Rattle.std.specs.Prelude.{◌≡◌, ◌<◌, List, length, slice_index_or};
ghost use Rattle.bl_plan.specs.declared.part.Place.{Place};

use crate::image::Image;
use bl_load::{Handoff, Plan};
use bl_plan::Place;
use std::alloc::Allocator;

/// The places of parts, one after the other.
pub trait Places {
    /// The places, in their order.
    ghost places: { Self → List Place };

    /// How many there are.
    fn count(&self) -> usize
        ensures { result ≡ length (places self.now) };

    /// The one with this number, from 0.
    fn place_at(&self, index: usize) -> Place
        requires { index < length (places self.now) }
        ensures { result ≡ slice_index_or (places self.now) index result };
}

impl<A: Allocator> Places for Handoff<A> {
    ghost places = { λ h. h.places };

    fn count(&self) -> usize {
        self.len()
    }

    fn place_at(&self, index: usize) -> Place {
        self.place(index)
    }
}

impl<A: Allocator> Places for Plan<A> {
    ghost use Rattle.bl_load.specs.PlanContents.{places_of};

    ghost places = { λ p. places_of p };

    fn count(&self) -> usize {
        self.parts.len()
    }

    fn place_at(&self, index: usize) -> Place {
        self.parts[index].place
    }
}

impl<A: Allocator> Places for Image<A> {
    ghost use Rattle.std.specs.Prelude.{map};
    ghost use Rattle.bl_image.specs.ImageHandover.{part_place};

    ghost places = { λ i. map part_place i.parts };

    fn count(&self) -> usize {
        self.len()
    }

    fn place_at(&self, index: usize) -> Place {
        let part = self.part(index);
        Place {
            role: part.role(),
            index: part.index(),
            address: part.address(),
            length: part.bytes().len() as u64,
        }
    }
}
