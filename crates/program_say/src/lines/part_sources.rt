//! Where the bytes of a part come from, in words.
ghost use Rattle.std.specs.Prelude.{◌≡◌};
ghost use Rattle.program_say.specs.internal.PartSources.{is_told};

use crate::say;
use bl_load::{Place, Step, StepSource};
use std::alloc::{AllocError, Allocator};

/// Whether the step begins at the place and is not of zeros.
fn is_of(place: &Place, step: &Step) -> bool
    ensures { result ≡ is_told place.now step.now }
{
    if let StepSource::Zeros = step.source {
        return false;
    }
    if step.address < place.address {
        return false;
    }
    step.address - place.address < place.length
}

/// Appends a file's place in the entry, but behind another range of it a comma.
fn say_file<A: Allocator + Copy>(
    out: &mut Vec<u8, A>,
    is_first: bool,
    file: usize,
) -> Result<(), AllocError> {
    if is_first {
        return say!(out, "file {file}");
    }
    out.extend_from_slice(b",")
}

/// Appends what a step says, the first one of its part or another.
fn say_step<A: Allocator + Copy>(
    out: &mut Vec<u8, A>,
    is_first: bool,
    step: &Step,
) -> Result<(), AllocError> {
    let count = step.length;
    match step.source {
        StepSource::File { file, offset } => {
            say_file(out, is_first, file)?;
            say!(out, " at {offset}, {count} bytes")
        }
        StepSource::Own { .. } => out.extend_from_slice(b"here"),
        StepSource::Zeros => Ok(()),
    }
}

/// Appends what those of these steps say that are told of the part at a place: of all steps of a
/// plan, where its bytes come from.
pub fn say_steps<A: Allocator + Copy>(
    out: &mut Vec<u8, A>,
    is_first: bool,
    steps: &[Step],
    place: &Place,
) -> Result<(), AllocError> {
    match steps {
        [] => {
            if is_first {
                return out.extend_from_slice(b"zeros");
            }
            Ok(())
        }
        [step, rest @ ..] => {
            if !is_of(place, step) {
                return say_steps(out, is_first, rest, place);
            }
            say_step(out, is_first, step)?;
            say_steps(out, false, rest, place)
        }
    }
}
