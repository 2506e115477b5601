//! A planner.
use crate::address_order::position_for;
use crate::blocked_stretch::{avoided_stretch, taken_stretch};
use crate::fault::PlanFault;
use bl_map::Machine;
use std::alloc::{AllocError, Allocator};
use std::marker::Model;
use std::ops::Range;

mod choosing;

/// A machine and the ranges that are taken of it. Contracts see it as these two.
#[derive(Drop)]
pub struct Planner<'m, A: Allocator> {
    machine: &'m Machine<A>,
    taken: Vec<Range<u64>, A>,
}

impl<'m, A: Allocator> Model for Planner<'m, A> {
    ghost use Rattle.bl_plan.specs.PlannerFacts.{PlannerFacts, AreTaken};

    ghost Value = { PlannerFacts };

    ghost view = { λ p. record { facts = p.machine.now; taken = p.taken.items } };

    ghost invariant = { λ p. AreTaken p.machine.now p.taken.items };
}

impl<'m, A: Allocator> Planner<'m, A> {
    ghost use Rattle.std.specs.Prelude.{◌≡◌, ◌<◌, [], IsOk, IfOk, IfErr, OnOk, OnErr};
    ghost use Rattle.bl_map.specs.MachineFacts.{AllUsable};
    ghost use Rattle.bl_plan.specs.Permitted.{AreUntaken, AreUnavoided, HasFixedFault, OrNoMemory};
    ghost use Rattle.bl_plan.specs.PlannerFacts.{AreTaken, with_taken};

    /// A planner of this machine, of which nothing is taken. It asks for no memory, so it is never
    /// refused.
    pub fn new(alloc: A, machine: &'m Machine<A>) -> Result<Planner<'m, A>, AllocError>
        ensures ok { IsOk result }
        ensures new { IfOk result (λ planner.
            planner ≡ record { facts = machine.now; taken = [] }) }
    {
        Ok(Planner {
            machine,
            taken: Vec::new(alloc),
        })
    }

    /// Takes a range that may be taken.
    fn take(&mut self, range: Range<u64>) -> Result<(), AllocError>
        requires filled { range.start < range.end }
        requires usable { AllUsable self.old.facts range.start range.end }
        requires free { AreUntaken self.old.taken range.start range.end }
        ensures taken { OnOk result (self.new ≡ with_taken self.old range) }
        ensures unchanged { OnErr result (self.new ≡ self.old) }
    {
        let at = position_for(self.taken.as_slice(), &range);
        self.taken.insert(at, range)?;
        Ok(())
    }

    /// Takes the bytes from `range.start` up to `range.end`, at least one.
    ///
    /// The first of these faults that stands refuses it, and the planner stays as it was:
    /// - `NotUsable`: a byte of the range is not usable, or is avoided.
    /// - `Overlap`: a byte of it is taken.
    /// - `NoMemory`: there was no memory to keep it.
    pub fn take_fixed(&mut self, range: Range<u64>) -> Result<(), PlanFault>
        requires filled { range.start < range.end }
        ensures free { OnOk result (AllUsable self.old.facts range.start range.end
            × AreUnavoided self.old.facts range.start range.end
            × AreUntaken self.old.taken range.start range.end) }
        ensures taken { OnOk result (self.new ≡ with_taken self.old range) }
        ensures fault { IfErr result
            (OrNoMemory (HasFixedFault self.old.facts self.old.taken range.start range.end)) }
        ensures unchanged { OnErr result (self.new ≡ self.old) }
    {
        if !self.machine.is_usable(range.start..range.end) {
            return Err(PlanFault::NotUsable);
        }
        if let Some(_) = avoided_stretch(self.machine, range.start, range.end) {
            return Err(PlanFault::NotUsable);
        }
        if let Some(_) = taken_stretch(self.taken.as_slice(), range.start, range.end) {
            return Err(PlanFault::Overlap);
        }
        self.take(range)?;
        Ok(())
    }

    /// The ranges that are taken, in bytes: none empty, ascending, none meeting another.
    pub fn taken(&self) -> &[Range<u64>]
        ensures taken { result.now ≡ self.now.taken }
        ensures in_order { AreTaken self.now.facts self.now.taken }
    {
        self.taken.as_slice()
    }
}
