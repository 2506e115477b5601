//! The tables that a stage keeps.
ghost use Rattle.std.specs.Prelude.{◌≡◌, ◌+◌, ◌/◌, ◌<◌, ◌^◌, IfOk};
ghost use Rattle.std.specs.Prelude.{length, map};
ghost use Rattle.bl_stage.specs.internal.Cells.{AreHeld, CanHold};
ghost use Rattle.bl_stage.specs.internal.StageTables.{AreStarts, AreNumbersFrom};
ghost use Rattle.bl_map.specs.PoolFrames.{frames_for};

use crate::cell::Cell;
use crate::cells::Cells;
use bl_map::{FRAME_SIZE, frames_of};
use std::alloc::{AllocError, Allocator};

/// How many frames stand before each file's own.
pub fn starts_of<A: Allocator>(alloc: A, sizes: &[u64]) -> Result<Vec<u64, A>, AllocError>
    requires { frames_for sizes.now < 2 ^ 64 }
    ensures { IfOk result (λ starts. AreStarts sizes.now starts.items) }
{
    let mut starts = Vec::with_capacity(alloc, sizes.len())?;
    let mut all = 0;
    for size in sizes {
        starts.push(all)?;
        all += frames_of(*size);
    }
    Ok(starts)
}

/// Notes each of these frames in its cell, by its place in their list.
pub fn hold_all<A: Allocator>(cells: &mut Cells<A>, base: u64, frames: &[u64])
    requires { CanHold base frames.now cells.old }
    ensures wide { length cells.new ≡ length cells.old }
    ensures held { AreHeld base frames.now cells.new }
{
    for slot in 0..frames.len() {
        let at = (frames[slot] - base) as usize;
        let cell = Cell {
            holder: Some(slot as u32),
            shut: cells.get(at).shut,
        };
        cells.set(at, cell);
    }
}

/// The numbers of `count` frames from frame `start` on.
pub fn first_frames<A: Allocator>(
    alloc: A,
    start: u64,
    count: u64,
) -> Result<Vec<u64, A>, AllocError>
    requires { start + count < 2 ^ 64 }
    ensures { IfOk result (λ frames. AreNumbersFrom start count frames.items) }
{
    let mut frames = Vec::with_capacity(alloc, count as usize)?;
    for frame in start..start + count {
        frames.push(frame)?;
    }
    Ok(frames)
}

/// The numbers of the frames at these addresses.
pub fn numbers_of<A: Allocator>(alloc: A, addresses: &[u64]) -> Result<Vec<u64, A>, AllocError>
    ensures { IfOk result (λ frames. frames.items ≡ map (λ address. address / 4096) addresses.now) }
{
    addresses
        .iter()
        .map(|address| *address / FRAME_SIZE)
        .collect(alloc)
}
