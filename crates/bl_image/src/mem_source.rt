//! A source in memory.
use crate::sink::DeviceFault;
use crate::source::Source;
use std::alloc::Allocator;
use std::marker::Model;

/// A source of these bytes, for tests: at most `step` bytes at each read, and one read that is a
/// fault.
#[derive(Drop)]
pub struct MemSource<A: Allocator> {
    held: Vec<u8, A>,
    at: usize,
    step: usize,
    fail: u64,
    faults: u64,
}

impl<A: Allocator> Model for MemSource<A> {
    ghost use Rattle.std.specs.Prelude.{◌≤◌, length};
    ghost use Rattle.bl_image.specs.SourceFacts.{MemSourceFacts};

    ghost Value = { MemSourceFacts };

    ghost view = { λ s. record {
      bytes = s.held.items;
      at = s.at;
      step = s.step;
      fail = s.fail;
      faults = s.faults;
    } };

    ghost invariant = { λ s. (s.at ≤ length s.held.items) × (1 ≤ s.step) };
}

impl<A: Allocator> MemSource<A> {
    ghost use Rattle.std.specs.Prelude.{◌≡◌, ◌≤◌};

    /// A source of these bytes. Read number `fail`, from 1, is a fault; none is where it is 0, or
    /// more than there are reads.
    pub fn new(bytes: Vec<u8, A>, step: usize, fail: u64) -> MemSource<A>
        requires { 1 ≤ step }
        ensures { result
            ≡ record { bytes = bytes.items; at = 0; step = step; fail = fail; faults = 0 } }
    {
        MemSource {
            held: bytes,
            at: 0,
            step,
            fail,
            faults: 0,
        }
    }

    /// All of its bytes, those that it gave too.
    pub fn bytes(&self) -> &[u8]
        ensures { result.now ≡ self.now.bytes }
    {
        self.held.as_slice()
    }
}

impl<A: Allocator> Source for MemSource<A> {
    ghost use Rattle.std.specs.Prelude.{◌≡◌, [], ◌+◌, ◌-◌, ◌<◌, ◌≤◌, ◌^◌, length, min, take};
    ghost use Rattle.std.specs.Prelude.{IfOk, OnOk, OnErr, MatchResult};
    ghost use Rattle.bl_image.specs.SourceFacts.{Comes, IsEnded};
    ghost use Rattle.bl_image.specs.SourceFacts.{mem_source_input};

    ghost input = { mem_source_input };

    ghost faults = { λ s. s.faults };

    fn read(&mut self, out: &mut [u8]) -> Result<usize, DeviceFault>
        requires { self.old.faults < 2 ^ 64 - 1 }
        ensures within { IfOk result (λ count. count ≤ length out.new) }
        ensures gave { IfOk result
            (λ count. Comes (mem_source_input self.old) (mem_source_input self.new)
            (take count out.new)) }
        ensures ended { IfOk result
            (λ count. count ≡ 0 → 1 ≤ length out.new → IsEnded (mem_source_input self.new)) }
        ensures sound { OnOk result (self.new.faults ≡ self.old.faults) }
        ensures nothing { OnErr result
            (Comes (mem_source_input self.old) (mem_source_input self.new) []) }
        ensures fault { OnErr result (self.new.faults ≡ self.old.faults + 1) }

        // As much as it may; a fault exactly where its read has come.
        ensures most { MatchResult result
            (λ count. count ≡ min (length out.new)
            (min self.old.step (length self.old.bytes - self.old.at)))
            (λ _. self.old.fail ≡ 1) }
        ensures due { OnOk result (¬ (self.old.fail ≡ 1)) }
        ensures next { self.new.fail ≡ self.old.fail - 1 }
        ensures same { (self.new.bytes ≡ self.old.bytes) × (self.new.step ≡ self.old.step) }
    {
        let is_fault = self.fail == 1;
        self.fail = self.fail.saturating_sub(1);
        if is_fault {
            self.faults += 1;
            return Err(DeviceFault);
        }
        let most = self.step.min(self.held.len() - self.at);
        let count = out.len().min(most);
        let end = self.at + count;
        out[..count].copy_from_slice(&self.held[self.at..end]);
        self.at = end;
        Ok(count)
    }

    fn faults(&self) -> u64 {
        self.faults
    }
}
