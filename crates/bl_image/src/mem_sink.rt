//! A sink in memory.
use crate::image_length::image_len;
use crate::sink::{DeviceFault, Sink};
use bl_load::Handoff;
use std::alloc::{AllocError, Allocator};
use std::marker::Model;

/// A sink that keeps what it takes: at most `limit` bytes in all, and at most `step` bytes at each
/// write. Once it is full, each part that is not empty is a fault.
#[derive(Drop)]
pub struct MemSink<A: Allocator> {
    held: Vec<u8, A>,
    limit: usize,
    step: usize,
    faults: u64,
}

impl<A: Allocator> Model for MemSink<A> {
    ghost use Rattle.std.specs.Prelude.{◌≤◌, vec_len, vec_capacity};
    ghost use Rattle.bl_image.specs.SinkFacts.{MemSinkFacts};

    ghost Value = { MemSinkFacts };

    ghost view = { λ s. record {
      contents = s.held.items;
      faults = s.faults;
      limit = s.limit;
      step = s.step;
    } };

    ghost invariant = { λ s.
        (vec_len s.held ≤ s.limit) × (s.limit ≤ vec_capacity s.held) × (1 ≤ s.step) };
}

impl<A: Allocator> MemSink<A> {
    ghost use Rattle.std.specs.Prelude.{◌≡◌, ◌≤◌, ◌-◌, ◌^◌, [], IfOk};
    ghost use Rattle.bl_image.specs.ImageLength.{image_length};

    /// An empty sink, with the memory for all that it may take.
    pub fn new(alloc: A, limit: usize, step: usize) -> Result<MemSink<A>, AllocError>
        requires { 1 ≤ step }
        ensures ok { IfOk result
            (λ sink. sink ≡ record { contents = []; faults = 0; limit = limit; step = step }) }
    {
        Ok(MemSink {
            held: Vec::with_capacity(alloc, limit)?,
            limit,
            step,
            faults: 0,
        })
    }

    /// An empty sink, with the memory for the image of a handoff.
    pub fn for_image(alloc: A, handoff: &Handoff<A>) -> Result<MemSink<A>, AllocError>
        ensures ok { IfOk result (λ sink. sink ≡ record {
          contents = [];
          faults = 0;
          limit = image_length handoff.now.places;
          step = 2 ^ 64 - 1;
        }) }
    {
        MemSink::new(alloc, image_len(handoff) as usize, usize::MAX)
    }

    /// What was taken.
    pub fn contents(&self) -> &[u8]
        ensures { result.now ≡ self.now.contents }
    {
        self.held.as_slice()
    }

    /// What was taken, as a vector that keeps the sink's memory.
    pub fn into_vec(self) -> Vec<u8, A>
        ensures { result.items ≡ self.contents }
    {
        let MemSink { held, .. } = self;
        held
    }
}

impl<A: Allocator> Sink for MemSink<A> {
    ghost use Rattle.std.specs.Prelude.{◌≡◌, ◌+◌, ◌-◌, ◌<◌, ◌≤◌, ◌^◌, ◌++◌, length, min, take};
    ghost use Rattle.std.specs.Prelude.{IfOk, OnOk, OnErr, MatchResult};

    ghost contents = { λ s. s.contents };

    ghost faults = { λ s. s.faults };

    fn write(&mut self, part: &[u8]) -> Result<usize, DeviceFault>
        requires { self.old.faults < 2 ^ 64 - 1 }
        ensures within { IfOk result (λ count. count ≤ length part.now) }
        ensures some { IfOk result (λ count. 1 ≤ length part.now → 1 ≤ count) }
        ensures took { IfOk result
            (λ count. self.new.contents ≡ self.old.contents ++ take count part.now) }
        ensures sound { OnOk result (self.new.faults ≡ self.old.faults) }
        ensures nothing { OnErr result (self.new.contents ≡ self.old.contents) }
        ensures fault { OnErr result (self.new.faults ≡ self.old.faults + 1) }

        // As much as fits; a fault only where the sink is full.
        ensures most { MatchResult result
            (λ count. count
            ≡ min (length part.now) (min (self.old.limit - length self.old.contents) self.old.step))
            (λ _. (1 ≤ length part.now) × (length self.old.contents ≡ self.old.limit)) }
        ensures same { (self.new.limit ≡ self.old.limit) × (self.new.step ≡ self.old.step) }
    {
        let room = (self.limit - self.held.len()).min(self.step);
        let count = part.len().min(room);
        if count == 0 && !part.is_empty() {
            self.faults += 1;
            return Err(DeviceFault);
        }
        self.held.extend_from_slice(&part[..count]).unwrap();
        Ok(count)
    }

    fn faults(&self) -> u64 {
        self.faults
    }
}
