//! Files' frames that are to be left are moved into spare ones.
ghost use Rattle.std.specs.Prelude.{◌≡◌, ◌+◌, ◌*◌, ◌<◌, ◌≤◌, ◌↔◌, IsTrue, length, drop};
ghost use Rattle.std.specs.Prelude.{slice_range, slice_set, true, false, Some, None};
ghost use Rattle.std.specs.List.{count_by};
ghost use Rattle.std.specs.Bool.{OnTrue, OnFalse};
ghost use Rattle.bl_map.specs.PoolFrames.{open_among};
ghost use Rattle.bl_mem.specs.Memory.{overwrite, KeepsSizeAndRoom};
ghost use Rattle.bl_stage.specs.internal.Cells.{is_open_cell, is_spare_cell, AreHeld, Moved};
ghost use Rattle.bl_stage.specs.internal.Cells.{MadeWay, IsPoolInMemory, IsNextSpare};
ghost use Rattle.bl_stage.specs.internal.Cells.{CanCopyFrame, CanMoveSlot};

use crate::cell::Cell;
use crate::cells::Cells;
use crate::shut_cells::{count_open, mark};
use bl_map::FRAME_SIZE;
use bl_mem::PhysMem;
use std::alloc::Allocator;
use std::ops::Range;

/// The first spare cell from `start` on.
fn next_spare<A: Allocator>(cells: &Cells<A>, start: usize) -> usize
    requires { 0 < count_by is_spare_cell (drop start cells.now) }
    ensures { IsNextSpare cells.now start result }
{
    // For the proof: there are fewer than 2^64 cells.
    let _count = cells.len();
    let mut at = start;
    while !cells.get(at).is_spare() {
        at += 1;
    }
    at
}

/// Copies a frame of the pool, by its place in it, over another one.
fn copy_frame<M: PhysMem>(memory: &mut M, base: u64, from: usize, to: usize)
    requires { CanCopyFrame M.bytes M.room memory.old base from to }
    ensures after { M.bytes memory.new
        ≡ overwrite (M.bytes memory.old) (4096 * (base + to))
        (slice_range (M.bytes memory.old) (4096 * (base + from)) (4096 * (base + from) + 4096)) }
    ensures kept { KeepsSizeAndRoom M.lender M.bytes M.room memory.old memory.new }
{
    // For the proof: memory's size is below 2^64.
    let _size = memory.size();
    let source = FRAME_SIZE * (base + from as u64);
    memory.copy(source, FRAME_SIZE * (base + to as u64), 4096);
}

/// Tells the tables that the frame of a slot stands in the cell `to`, and no more in `from`.
fn move_slot<A: Allocator>(
    base: u64,
    frames: &mut [u64],
    cells: &mut Cells<A>,
    from: usize,
    to: usize,
    slot: u32,
)
    requires { CanMoveSlot base frames.old cells.old from to slot }
    ensures frames { frames.new ≡ slice_set frames.old slot (base + to) }
    ensures cells { cells.new
        ≡ slice_set (slice_set cells.old from (record { holder = None; shut = true })) to
        (record { holder = Some slot; shut = false }) }
{
    frames[slot as usize] = base + to as u64;
    let left = Cell {
        holder: None,
        shut: true,
    };
    cells.set(from, left);
    let taken = Cell {
        holder: Some(slot),
        shut: false,
    };
    cells.set(to, taken);
}

/// Moves each frame of a file whose cell is shut into a spare one, in one pass over the cells.
fn move_out<A: Allocator, M: PhysMem>(
    memory: &mut M,
    base: u64,
    frames: &mut [u64],
    cells: &mut Cells<A>,
)
    requires enough { length frames.old ≤ count_by is_open_cell cells.old }
    requires pool { IsPoolInMemory M.bytes M.room memory.old base frames.old cells.old }
    ensures moved { Moved base (M.bytes memory.old) (M.bytes memory.new) frames.old frames.new
        cells.old cells.new (length cells.old) }
    ensures kept { KeepsSizeAndRoom M.lender M.bytes M.room memory.old memory.new }
{
    let mut to = 0;
    for from in 0..cells.len() {
        let cell = cells.get(from);
        if cell.shut {
            if let Some(slot) = cell.holder {
                to = next_spare(cells, to);
                copy_frame(memory, base, from, to);
                move_slot(base, frames, cells, from, to, slot);
                to += 1;
            }
        }
    }
}

/// Moves each frame of a file that a range meets, if the frames that none meets are enough for
/// all files. Else it answers false, and nothing is changed.
pub fn make_way<A: Allocator, M: PhysMem>(
    memory: &mut M,
    base: u64,
    frames: &mut [u64],
    cells: &mut Cells<A>,
    ranges: &[Range<u64>],
) -> bool
    requires { IsPoolInMemory M.bytes M.room memory.old base frames.old cells.old }
    ensures exact { IsTrue result
        ↔ (length frames.old ≤ open_among ranges.now (4096 * base) (length cells.old)) }
    ensures wide { length cells.new ≡ length cells.old }
    ensures held { AreHeld base frames.new cells.new }
    ensures yes { OnTrue result (MadeWay base (length cells.old) ranges.now
        (M.bytes memory.old) (M.bytes memory.new) frames.old frames.new) }
    ensures no { OnFalse result
        ((frames.new ≡ frames.old) × (M.bytes memory.new ≡ M.bytes memory.old)) }
    ensures kept { KeepsSizeAndRoom M.lender M.bytes M.room memory.old memory.new }
{
    mark(cells, base, ranges);
    if count_open(cells) < frames.len() {
        return false;
    }
    move_out(memory, base, frames, cells);
    true
}
