//! An address is chosen, and the bytes there are taken.
ghost use Rattle.std.specs.Prelude.{◌≡◌, ◌+◌, ◌≤◌, IfOk, IfErr, OnErr};
ghost use Rattle.bl_map.specs.Limits.{usable_limit};
ghost use Rattle.bl_plan.specs.Permitted.{IsPermitted, IsAtSide, IsPreferred, HasNoRoom};
ghost use Rattle.bl_plan.specs.Permitted.{OrNoMemory};
ghost use Rattle.bl_plan.specs.PlannerFacts.{with_taken};
ghost use Rattle.bl_plan.specs.Placed.{IsWellFormedRow, IsChosen, HasChoiceFault};

use crate::fault::PlanFault;
use crate::part::{Choice, Row, Side, Window};
use crate::planner::Planner;
use crate::search::{is_permitted, place_at_side};
use std::alloc::Allocator;

impl<'m, A: Allocator> Planner<'m, A> {
    /// Takes `length` bytes, at least one, at the least or the greatest permitted address, and
    /// answers that address.
    ///
    /// An address is permitted where it is a multiple of `align` (any number from 1 on), is not
    /// below `low`, and the bytes from there on end at most at `high`, are usable, are not avoided
    /// and are not taken. All numbers are in bytes.
    ///
    /// One of these faults refuses it, and the planner stays as it was:
    /// - `NoRoom`: no address is permitted.
    /// - `NoMemory`: there was no memory to keep the place.
    pub fn place(
        &mut self,
        length: u64,
        align: u64,
        low: u64,
        high: u64,
        side: Side,
    ) -> Result<u64, PlanFault>
        requires filled { 1 ≤ length }
        requires aligned { 1 ≤ align }
        ensures at_side { IfOk result (λ a.
            IsAtSide side (IsPermitted self.old.facts self.old.taken length align low high) a) }
        ensures taken { IfOk result (λ a.
            self.new ≡ with_taken self.old (record { start = a; end = a + length })) }
        ensures below { IfOk result (λ a. a + length ≤ usable_limit) }
        ensures fault { IfErr result
            (OrNoMemory (HasNoRoom
            (IsPermitted self.old.facts self.old.taken length align low high))) }
        ensures unchanged { OnErr result (self.new ≡ self.old) }
    {
        let taken = self.taken.as_slice();
        let window = Window { align, low, high };
        match place_at_side(self.machine, taken, length, window, side) {
            None => Err(PlanFault::NoRoom),
            Some(at) => {
                self.take(at..at + length)?;
                Ok(at)
            }
        }
    }

    /// Takes `length` bytes, at least one, at `at` where that address is permitted, else at the
    /// least permitted one, and answers the address. What is permitted, the faults and the units
    /// are those of `place`; a refusal leaves the planner as it was. That `at` is not permitted is
    /// no fault.
    pub fn prefer(
        &mut self,
        at: u64,
        length: u64,
        align: u64,
        low: u64,
        high: u64,
    ) -> Result<u64, PlanFault>
        requires filled { 1 ≤ length }
        requires aligned { 1 ≤ align }
        ensures preferred { IfOk result (λ a.
            IsPreferred at (IsPermitted self.old.facts self.old.taken length align low high) a) }
        ensures taken { IfOk result (λ a.
            self.new ≡ with_taken self.old (record { start = a; end = a + length })) }
        ensures below { IfOk result (λ a. a + length ≤ usable_limit) }
        ensures fault { IfErr result
            (OrNoMemory (HasNoRoom
            (IsPermitted self.old.facts self.old.taken length align low high))) }
        ensures unchanged { OnErr result (self.new ≡ self.old) }
    {
        let taken = self.taken.as_slice();
        let window = Window { align, low, high };
        if !is_permitted(self.machine, taken, at, length, window) {
            return self.place(length, align, low, high, Side::Lowest);
        }
        self.take(at..at + length)?;
        Ok(at)
    }

    /// Takes the place of a row, and answers its address. A fixed row has the faults of
    /// `take_fixed`, each other one those of `place`; a refusal leaves the planner as it was.
    pub fn place_row(&mut self, row: &Row) -> Result<u64, PlanFault>
        requires row { IsWellFormedRow row.now }
        ensures chosen { IfOk result (λ a.
            IsChosen self.old.facts self.old.taken row.now.length row.now.choice a) }
        ensures taken { IfOk result (λ a.
            self.new ≡ with_taken self.old (record { start = a; end = a + row.now.length })) }
        ensures below { IfOk result (λ a. a + row.now.length ≤ usable_limit) }
        ensures fault { IfErr result
            (OrNoMemory
            (HasChoiceFault self.old.facts self.old.taken row.now.length row.now.choice)) }
        ensures unchanged { OnErr result (self.new ≡ self.old) }
    {
        match row.choice {
            Choice::Fixed(at) => {
                let Some(end) = at.checked_add(row.length) else {
                    return Err(PlanFault::NotUsable);
                };
                self.take_fixed(at..end)?;
                Ok(at)
            }
            Choice::Lowest { align, low, high } => {
                self.place(row.length, align, low, high, Side::Lowest)
            }
            Choice::Highest { align, low, high } => {
                self.place(row.length, align, low, high, Side::Highest)
            }
            Choice::Preferred {
                at,
                align,
                low,
                high,
            } => self.prefer(at, row.length, align, low, high),
        }
    }
}
