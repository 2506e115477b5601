//! The cells of all frames of the pool, kept so that they take little memory.
ghost use Rattle.std.specs.Prelude.{◌≡◌, ◌<◌, ◌≤◌, IfOk, IfSome, length, replicate, slice_set};
ghost use Rattle.std.specs.Prelude.{vec_capacity};
ghost use Rattle.bl_stage.specs.internal.Cells.{no_cell, cell_at};
ghost use Rattle.bl_stage.specs.internal.PackedCells.{no_holder, no_group, ReachTo};
ghost use Rattle.bl_stage.specs.internal.PackedCells as packed;

use crate::cell::Cell;
use std::alloc::{AllocError, Allocator};
use std::marker::Model;

/// What stands for the holder of a frame that has none: an `Option<u32>` takes twice the memory.
const NO_HOLDER: u32 = u32::MAX;

/// How many cells stand in a group.
const GROUP: usize = 4;

/// Four cells: side by side, their flags take a byte each, where a lone cell's takes four.
#[derive(Clone, Copy)]
struct CellGroup {
    holders: [u32; GROUP],
    shut: [bool; GROUP],
}

/// The holder that a number in a group stands for.
fn holder_of(holder: u32) -> Option<u32>
    ensures is { result ≡ packed.holder_of holder }
    ensures named { IfSome result (λ slot. slot < no_holder) }
{
    if holder == NO_HOLDER {
        return None;
    }
    Some(holder)
}

/// Four cells that hold nothing and are to stay.
fn empty_group() -> CellGroup
    ensures { result ≡ no_group }
{
    CellGroup {
        holders: [NO_HOLDER; GROUP],
        shut: [false; GROUP],
    }
}

/// Has so many groups stand in a vector that has room for them. Those that come hold nothing.
fn reach<A: Allocator>(groups: &mut Vec<CellGroup, A>, count: usize)
    requires { count ≤ vec_capacity groups.old }
    ensures there { ReachTo groups.old.items groups.new.items count }
    ensures capacity { vec_capacity groups.old ≤ vec_capacity groups.new }
{
    let mut at = groups.len();
    while at < count {
        groups.push(empty_group()).unwrap();
        at += 1;
    }
}

/// The cells of the pool's frames, by their place in the pool, in 5 bytes each. It takes memory
/// when it is made, by one request, and never again, and touches none of it before a cell there is
/// to be told from an empty one: a large pool of which little is used costs little.
#[derive(Drop)]
pub struct Cells<A: Allocator> {
    /// The first groups; the cells of all others hold nothing and are to stay.
    groups: Vec<CellGroup, A>,
    count: usize,
}

impl<A: Allocator> Model for Cells<A> {
    ghost use Rattle.std.specs.Prelude.{◌≤◌, ◌*◌, List, vec_capacity};
    ghost use Rattle.bl_stage.specs.declared.cell.Cell.{Cell};

    ghost Value = { List Cell };

    ghost use Rattle.bl_stage.specs.internal.PackedCells.{cells_of};

    ghost view = { λ cells. cells_of cells.groups.items cells.count };

    ghost invariant = { λ cells. cells.count ≤ 4 * vec_capacity cells.groups };
}

impl<A: Allocator> Cells<A> {
    /// The cells of so many frames, which hold nothing and are to stay.
    pub fn empty(alloc: A, count: usize) -> Result<Cells<A>, AllocError>
        ensures { IfOk result (λ cells. cells ≡ replicate count no_cell) }
    {
        let groups = Vec::with_capacity(alloc, count.div_ceil(GROUP))?;
        Ok(Cells { groups, count })
    }

    /// How many cells there are.
    pub fn len(&self) -> usize
        ensures { result ≡ length self.now }
    {
        self.count
    }

    /// The cell at a place.
    pub fn get(&self, at: usize) -> Cell
        requires { at < length self.now }
        ensures is { result ≡ cell_at self.now at }
        ensures named { IfSome result.holder (λ slot. slot < no_holder) }
    {
        if self.groups.len() <= at / GROUP {
            return Cell {
                holder: None,
                shut: false,
            };
        }
        let group = &self.groups[at / GROUP];
        Cell {
            holder: holder_of(group.holders[at % GROUP]),
            shut: group.shut[at % GROUP],
        }
    }

    /// Writes the cell at a place.
    pub fn set(&mut self, at: usize, cell: Cell)
        requires at { at < length self.old }
        requires named { IfSome cell.holder (λ slot. slot < no_holder) }
        ensures { self.new ≡ slice_set self.old at cell }
    {
        reach(&mut self.groups, at / GROUP + 1);
        let group = &mut self.groups[at / GROUP];
        group.holders[at % GROUP] = cell.holder.unwrap_or(NO_HOLDER);
        group.shut[at % GROUP] = cell.shut;
    }

    /// Writes whether the frame at a place is to be left, and not who holds it.
    pub fn set_shut(&mut self, at: usize, shut: bool)
        requires { at < length self.old }
        ensures { self.new ≡ slice_set self.old at
            (record { holder = (cell_at self.old at).holder; shut = shut }) }
    {
        if !shut && self.groups.len() <= at / GROUP {
            return;
        }
        reach(&mut self.groups, at / GROUP + 1);
        self.groups[at / GROUP].shut[at % GROUP] = shut;
    }
}
