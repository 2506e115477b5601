//! Which frames of the pool ranges meet.
ghost use Rattle.std.specs.Prelude.{◌≡◌, ℕ, ◌+◌, ◌*◌, ◌<◌, ◌^◌, ◌||◌, length, false, not};
ghost use Rattle.std.specs.List.{count_by};
ghost use Rattle.bl_map.specs.PoolFrames.{misses_frame};
ghost use Rattle.bl_stage.specs.internal.Cells.{is_open_cell, cell_at, KeepsHolders};
ghost use Rattle.bl_stage.specs.Ranges.{meets};

use crate::cells::Cells;
use bl_map::FRAME_SIZE;
use std::alloc::Allocator;
use std::ops::Range;

/// Opens each cell.
fn open_all<A: Allocator>(cells: &mut Cells<A>)
    ensures kept { KeepsHolders cells.old cells.new }
    ensures open { (j : ℕ) → (cell_at cells.new j).shut ≡ false }
{
    for at in 0..cells.len() {
        cells.set_shut(at, false);
    }
}

/// Shuts each cell whose frame the range meets.
fn shut_range<A: Allocator>(cells: &mut Cells<A>, base: u64, range: &Range<u64>)
    requires { 4096 * (base + length cells.old) < 2 ^ 64 }
    ensures kept { KeepsHolders cells.old cells.new }
    ensures shut { (j : ℕ) → j < length cells.old → (cell_at cells.new j).shut
        ≡ ((cell_at cells.old j).shut || not (misses_frame range.now (4096 * (base + j)))) }
{
    if range.start < range.end {
        let first = (range.start / FRAME_SIZE).max(base) - base;
        let behind = ((range.end - 1) / FRAME_SIZE + 1).min(base + cells.len() as u64);
        for at in first as usize..(behind.max(base) - base) as usize {
            cells.set_shut(at, true);
        }
    }
}

/// Shuts the cells whose frames a range meets, and opens all others.
pub fn mark<A: Allocator>(cells: &mut Cells<A>, base: u64, ranges: &[Range<u64>])
    requires { 4096 * (base + length cells.old) < 2 ^ 64 }
    ensures kept { KeepsHolders cells.old cells.new }
    ensures shut { (j : ℕ) → j < length cells.old
        → (cell_at cells.new j).shut ≡ meets ranges.now (base + j) }
{
    open_all(cells);
    for range in ranges {
        shut_range(cells, base, range);
    }
}

/// How many cells are open.
pub fn count_open<A: Allocator>(cells: &Cells<A>) -> usize
    ensures { result ≡ count_by is_open_cell cells.now }
{
    let mut open = 0;
    for at in 0..cells.len() {
        if !cells.get(at).shut {
            open += 1;
        }
    }
    open
}
