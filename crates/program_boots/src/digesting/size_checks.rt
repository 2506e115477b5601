//! What refuses an entry before its files are read: their sizes.
ghost use Rattle.std.specs.Prelude.{◌≡◌, ◌<◌, ◌≤◌, ◌+◌, ◌∷◌, ℕ, List, None, Some, Option, IfOk};
ghost use Rattle.std.specs.Prelude.{IfErr, OnOk, length, MatchResult};
ghost use Rattle.bl_map.specs.PoolFrames as pool;
ghost use Rattle.bl_load.specs.declared.refusal.Refusal.TheVariants.{NoPool};
ghost use Rattle.bl_stage.specs.Files.{stored_files};
ghost use Rattle.bl_session.specs.attempt.AttemptResult.{file_refusal, known_lengths};
ghost use Rattle.program_boots.specs.EntryPlans.{file_sizes, IsSizesFault};

use crate::digesting::entry_files::size_in;
use bl_load::{PrepFault, Refusal};
use bl_session::{FILE_LIMIT, Fetched, frames_for};
use std::alloc::Allocator;

/// The length of a file of this size, at this place in its entry.
fn checked_length(place: u32, size: Option<u64>) -> Result<u64, Refusal>
    ensures { MatchResult result
        (λ length. (size ≡ Some length) × ((sizes : List (Option ℕ))
        → file_refusal place (size ∷ sizes) ≡ file_refusal (place + 1) sizes))
        (λ refusal. (sizes : List (Option ℕ)) → file_refusal place (size ∷ sizes) ≡ Some refusal) }
{
    match size {
        None => Err(Refusal::NoFile(place)),
        Some(size) if size > FILE_LIMIT => Err(Refusal::FileTooLong(place)),
        Some(size) => Ok(size),
    }
}

/// The lengths of the files of these indices, or the first refusal.
pub fn checked_lengths<A: Allocator + Copy>(
    alloc: A,
    files: &[Fetched<A>],
    indices: &[u32],
) -> Result<Vec<u64, A>, PrepFault>
    requires { length indices.now ≤ 65 }
    ensures fits { IfOk result (λ _.
        file_refusal 0 (file_sizes (stored_files files.now) indices.now) ≡ None) }
    ensures lengths { IfOk result (λ lengths. lengths.items
        ≡ known_lengths (file_sizes (stored_files files.now) indices.now)) }
    ensures fault { IfErr result (IsSizesFault (file_sizes (stored_files files.now) indices.now)) }
{
    let mut lengths = Vec::new(alloc);
    for (place, file) in indices.iter().enumerate() {
        let length = checked_length(place as u32, size_in(files, *file))?;
        lengths.push(length)?;
    }
    Ok(lengths)
}

/// Refuses files of these lengths if they take more frames than there are.
pub fn check_frames(lengths: &[u64], frames: u64) -> Result<(), Refusal>
    ensures ok { OnOk result (pool.frames_for lengths.now ≤ frames) }
    ensures refused { IfErr result (λ refusal.
        (refusal ≡ NoPool) × (frames < pool.frames_for lengths.now)) }
{
    match frames_for(lengths) {
        Some(needed) if needed <= frames => Ok(()),
        _ => Err(Refusal::NoPool),
    }
}
