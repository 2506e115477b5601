//! A stage is begun: its tables, and the frames of its files.
ghost use Rattle.std.specs.Prelude.{◌≡◌, ℕ, ◌<◌, ◌≤◌, ◌↔◌, length, IfErr};
ghost use Rattle.std.specs.Prelude.{◌/◌, ◌%◌, IfOk, All, List, Err, map};
ghost use Rattle.bl_map.specs.PoolFrames as room;
ghost use Rattle.bl_stage.specs.Staged.{AreStaged, empty_stage, AreApart};
ghost use Rattle.bl_stage.specs.internal.StageTables.{AreFramesOf};
ghost use Rattle.bl_map.specs.PoolFrames.{frames_for};

use crate::cells::Cells;
use crate::fault::StageFault;
use crate::stage::Stage;
use crate::tables::{first_frames, hold_all, numbers_of, starts_of};
use bl_map::{FRAME_SIZE, Machine, frames_for, frames_in};
use std::alloc::Allocator;
use std::ops::Range;

impl<A: Allocator + Copy> Stage<A> {
    /// A stage in frames that are given by their numbers.
    fn begin_in(
        alloc: A,
        pool: Range<u64>,
        sizes: &[u64],
        frames: Vec<u64, A>,
    ) -> Result<Stage<A>, StageFault>
        requires { AreFramesOf pool sizes.now frames.items }
        ensures ok { IfOk result (λ stage. stage ≡ empty_stage pool sizes.now frames.items) }
        ensures err { IfErr result (λ fault. fault ≡ StageFault.NoMemory) }
    {
        let base = pool.start / FRAME_SIZE;
        let mut cells = Cells::empty(alloc, frames_in(&pool) as usize)?;
        hold_all(&mut cells, base, &frames);
        let waiting = frames.len();
        Ok(Stage {
            base,
            pool,
            sizes: Vec::from_slice(alloc, sizes)?,
            starts: starts_of(alloc, sizes)?,
            frames,
            came: Vec::from_elem(alloc, false, waiting)?,
            cells,
            waiting,
        })
    }

    /// A stage in these frames, by their addresses, the first file's first: a call for tests. The
    /// frames are whole ones of the pool, none named twice, as many as the files need. Its only
    /// fault is `NoMemory`.
    pub fn begin_at<B: Allocator>(
        alloc: A,
        machine: &Machine<B>,
        sizes: &[u64],
        frames: &[u64],
    ) -> Result<Stage<A>, StageFault>
        requires enough { length frames.now ≡ frames_for sizes.now }
        requires whole { All (λ frame. frame % 4096 ≡ 0) frames.now }
        requires inside { All (λ frame. (machine.now.pool.start ≤ frame)
            × (frame < machine.now.pool.end)) frames.now }
        requires apart { AreApart frames.now }
        ensures ok { IfOk result (λ stage. stage
            ≡ empty_stage machine.now.pool sizes.now (map (λ frame. frame / 4096) frames.now)) }
        ensures err { IfErr result (λ fault. fault ≡ StageFault.NoMemory) }
    {
        let pool = machine.pool();
        let numbers = numbers_of(alloc, frames)?;
        Stage::begin_in(alloc, pool, sizes, numbers)
    }

    /// A stage for files of these sizes in bytes, in free frames of its own choice.
    ///
    /// - `NoPool`: the files need more frames than the pool has, each file its own whole frames.
    /// - `NoMemory`: there was no memory for the tables.
    pub fn begin<B: Allocator>(
        alloc: A,
        machine: &Machine<B>,
        sizes: &[u64],
    ) -> Result<Stage<A>, StageFault>
        ensures no_pool { (result ≡ Err StageFault.NoPool)
            ↔ (room.frames_in machine.now.pool < frames_for sizes.now) }
        ensures ok { IfOk result (λ stage. (frames : List ℕ)
            × (stage ≡ empty_stage machine.now.pool sizes.now frames)) }
        ensures staged { IfOk result AreStaged }
    {
        let pool = machine.pool();
        let all = match frames_for(sizes) {
            Some(all) if all <= frames_in(&pool) => all,
            _ => return Err(StageFault::NoPool),
        };
        let frames = first_frames(alloc, pool.start / FRAME_SIZE, all)?;
        Stage::begin_in(alloc, pool, sizes, frames)
    }
}
