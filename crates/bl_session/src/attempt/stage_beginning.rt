//! An attempt begins: the sizes of its entry's files are checked, and its stage is begun.
ghost use Rattle.std.specs.Prelude.{◌≡◌, ◌≤◌, ◌+◌, ◌∷◌, ℕ, List, None, Some, Option, IfOk};
ghost use Rattle.std.specs.Prelude.{IfErr, MatchResult, length, slice_index_or};
ghost use Rattle.bl_load.specs.EntryValue.{IsWithinLimits};
ghost use Rattle.bl_session.specs.attempt.AttemptResult.{file_refusal};
ghost use Rattle.bl_session.specs.internal.session.KeptPhases.{sizes_for, sizes_in};
ghost use Rattle.bl_session.specs.internal.session.KeptPhases.{AreLengths, IsFileRefusal};
ghost use Rattle.bl_session.specs.internal.session.KeptPhases.{IsBegunStage, IsSizeFault};

use crate::menu::entry_files::files_of;
use bl_load::{Entry, PrepFault, Refusal};
use bl_map::Machine;
use bl_stage::{FILE_LIMIT, Stage, StageFault};
use std::alloc::{AllocError, Allocator};

/// The length of a file of this size, at this place in its entry.
fn checked_length(place: u32, size: Option<u64>) -> Result<u64, Refusal>
    ensures { MatchResult result
        (λ length. (size ≡ Some length) × ((sizes : List (Option ℕ))
        → file_refusal place (size ∷ sizes) ≡ file_refusal (place + 1) sizes))
        (λ refusal. (sizes : List (Option ℕ)) → file_refusal place (size ∷ sizes) ≡ Some refusal) }
{
    match size {
        None => Err(Refusal::NoFile(place)),
        Some(size) if size > FILE_LIMIT => Err(Refusal::FileTooLong(place)),
        Some(size) => Ok(size),
    }
}

/// The size of the file of this index.
fn size_of(sizes: &[Option<u64>], file: u32) -> Option<u64>
    ensures { result ≡ slice_index_or sizes.now file None }
{
    if (file as usize) < sizes.len() {
        sizes[file as usize]
    } else {
        None
    }
}

/// The lengths of the files of these indices, or the first refusal.
fn lengths_of<A: Allocator + Copy>(
    alloc: A,
    files: &[u32],
    sizes: &[Option<u64>],
) -> Result<Vec<u64, A>, PrepFault>
    requires { length files.now ≤ 65 }
    ensures ok { IfOk result (λ lengths. AreLengths (sizes_in sizes.now files.now) lengths.items) }
    ensures err { IfErr result (IsFileRefusal (sizes_in sizes.now files.now)) }
{
    let mut lengths = Vec::new(alloc);
    for (place, file) in files.iter().enumerate() {
        let length = checked_length(place as u32, size_of(sizes, *file))?;
        lengths.push(length)?;
    }
    Ok(lengths)
}

/// A stage for an entry's files, of which no piece came; or the refusal by their sizes.
pub fn begin_stage<A: Allocator + Copy>(
    alloc: A,
    machine: &Machine<A>,
    entry: &Entry<A>,
    sizes: &[Option<u64>],
) -> Result<Stage<A>, PrepFault>
    requires { IsWithinLimits entry.now }
    ensures begun { IfOk result (IsBegunStage machine.now (sizes_for sizes.now entry.now)) }
    ensures fault { IfErr result (IsSizeFault machine.now (sizes_for sizes.now entry.now)) }
{
    let files = files_of(alloc, entry)?;
    let lengths = lengths_of(alloc, &files, sizes)?;
    match Stage::begin(alloc, machine, &lengths) {
        Ok(stage) => Ok(stage),
        Err(StageFault::NoPool) => Err(PrepFault::Refused(Refusal::NoPool)),
        Err(StageFault::NoMemory) => Err(PrepFault::NoMemory),
    }
}
