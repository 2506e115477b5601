//! A plan told as steps, which its caller carries out.
ghost use Rattle.std.specs.Prelude.{◌≡◌, ◌+◌, ◌<◌, ◌^◌, ◌++◌, length, IfOk, OnOk, All};
ghost use Rattle.bl_load.specs.KernelBlock.{span_of};
ghost use Rattle.bl_load.specs.Loadable.{content_length};
ghost use Rattle.bl_load.specs.PlanSteps.{one_step, segment_steps, block_steps, content_steps};
ghost use Rattle.bl_load.specs.PlanSteps.{part_steps, own_of, AreStepsOf};
ghost use Rattle.bl_load.specs.internal.Stepping.{HasSegmentsInOrder, AreInOrder};
ghost use Rattle.bl_load.specs.internal.Stepping.{CanBeTold, HoldsNoMore};

use crate::plan::{Content, Plan, PlannedPart};
use crate::step::{Step, StepSource, Steps};
use bl_mem::{Bytes, Segment};
use std::alloc::{AllocError, Allocator};

/// Appends a step, but none that is empty.
#[tactic(auto, using(crate::proofs::StepLemmas::tells_none, crate::proofs::StepLemmas::tells_one))]
fn push_step<A: Allocator>(
    steps: &mut Vec<Step, A>,
    address: u64,
    length: u64,
    source: StepSource,
) -> Result<(), AllocError>
    ensures { OnOk result (steps.new.items ≡ steps.old.items ++ one_step address length source) }
{
    if length == 0 {
        return Ok(());
    }
    steps.push(Step {
        address,
        length,
        source,
    })?;
    Ok(())
}

/// Appends the steps of a segment at `at`: its bytes of the file, and zeros after them.
fn push_segment_steps<A: Allocator>(
    steps: &mut Vec<Step, A>,
    at: u64,
    file: usize,
    segment: &Segment,
) -> Result<(), AllocError>
    requires fits { HoldsNoMore segment.now }
    requires inside { at + segment.now.memsz < 2 ^ 64 }
    ensures { OnOk result (steps.new.items ≡ steps.old.items ++ segment_steps at file segment.now) }
{
    let offset = segment.offset;
    let filled = segment.filesz;
    push_step(steps, at, filled, StepSource::File { file, offset })?;
    push_step(
        steps,
        at + filled,
        segment.memsz - filled,
        StepSource::Zeros,
    )
}

/// Appends the steps of the block of these segments at `at`, and says how long it is.
fn push_block_steps<A: Allocator>(
    steps: &mut Vec<Step, A>,
    at: u64,
    file: usize,
    segments: &[Segment],
) -> Result<u64, AllocError>
    requires ordered { AreInOrder segments.now }
    requires inside { at + span_of segments.now < 2 ^ 64 }
    ensures count { IfOk result (λ count. count ≡ span_of segments.now) }
    ensures steps { IfOk result (λ _. steps.new.items
        ≡ steps.old.items ++ block_steps at file segments.now) }
{
    let low = segments[0].address;
    let mut done = 0u64;
    for segment in segments {
        let start = segment.address - low;
        push_step(steps, at + done, start - done, StepSource::Zeros)?;
        push_segment_steps(steps, at + start, file, segment)?;
        done = start + segment.memsz;
    }
    Ok(done)
}

/// Appends the steps of a content at `at`, and what it holds itself, and says how long it is.
fn push_content_steps<A: Allocator, B: Allocator>(
    steps: &mut Vec<Step, A>,
    own: &mut Vec<u8, A>,
    at: u64,
    content: &Content<B>,
) -> Result<u64, AllocError>
    requires ordered { HasSegmentsInOrder content.now }
    requires inside { at + content_length content.now < 2 ^ 64 }
    ensures count { IfOk result (λ count. count ≡ content_length content.now) }
    ensures steps { IfOk result (λ _. steps.new.items
        ≡ steps.old.items ++ content_steps (length own.old.items) at content.now) }
    ensures own { IfOk result (λ _. own.new.items ≡ own.old.items ++ own_of content.now) }
{
    match content {
        Content::Own(bytes) => {
            let offset = own.len();
            let count = bytes.len() as u64;
            own.extend_from_slice(bytes.as_slice())?;
            push_step(steps, at, count, StepSource::Own { offset })?;
            Ok(count)
        }
        Content::File {
            file,
            offset,
            count,
        } => {
            let (file, offset) = (*file, *offset);
            push_step(steps, at, *count, StepSource::File { file, offset })?;
            Ok(*count)
        }
        Content::Block { file, segments } => {
            push_block_steps(steps, at, *file, segments.as_slice())
        }
    }
}

/// Appends the steps of a part, and what it holds itself.
fn push_part_steps<A: Allocator, B: Allocator>(
    steps: &mut Vec<Step, A>,
    own: &mut Vec<u8, A>,
    part: &PlannedPart<B>,
) -> Result<(), AllocError>
    requires { CanBeTold part.now }
    ensures steps { IfOk result (λ _. steps.new.items
        ≡ steps.old.items ++ part_steps (length own.old.items) part.now) }
    ensures own { OnOk result (own.new.items ≡ own.old.items ++ own_of part.now.content) }
{
    let (address, length) = (part.place.address, part.place.length);
    let count = push_content_steps(steps, own, address, &part.content)?;
    push_step(steps, address + count, length - count, StepSource::Zeros)
}

/// The steps of these parts, and what they hold themselves.
fn steps_of<A: Allocator + Copy, B: Allocator>(
    alloc: A,
    parts: &[PlannedPart<B>],
) -> Result<Steps<A>, AllocError>
    requires { All CanBeTold parts.now }
    ensures { IfOk result (λ told. AreStepsOf parts.now told) }
{
    let mut steps = Vec::new(alloc);
    let mut own = Vec::new(alloc);
    for part in parts {
        push_part_steps(&mut steps, &mut own, part)?;
    }
    Ok(Steps {
        steps,
        own: Bytes::from(own),
    })
}

impl<A: Allocator> Plan<A> {
    ghost use Rattle.std.specs.Prelude.{◌≡◌, ℕ, ◌≤◌, List, length, IfOk, sum_by, All, AllPairs};
    ghost use Rattle.bl_load.specs.Handover.{overwrite_parts};
    ghost use Rattle.bl_load.specs.Loadable.{lengths_of, IsLoadable};
    ghost use Rattle.bl_load.specs.PlanContents.{handover_by};
    ghost use Rattle.bl_load.specs.PlanSteps.{own_bytes, steps_from};
    ghost use Rattle.bl_load.specs.Steps.{carry_out, IsStep, StepsAscend, CanBeLoaded};

    /// The plan as steps. Whoever carries them out does what `load` does, without a `PhysMem` and
    /// without lending the files: it may read them from descriptors straight into a guest's memory,
    /// or skip zeros where memory is zero.
    ///
    /// The steps are the same for all files of these lengths. They ascend, and none is empty, so
    /// each byte of a part is written once. It fails only where memory for the steps is refused.
    pub fn steps<B: Allocator + Copy>(&self, alloc: B) -> Result<Steps<B>, AllocError>
        requires { CanBeLoaded self.now }

        // Carried out over memory with any bytes, they write the plan's parts and nothing else,
        // whatever bytes the files have.
        ensures carried_out { IfOk result (λ told. (texts : List (List ℕ)) (size : ℕ)
            (memory : List ℕ) → IsLoadable (lengths_of texts) size self.now
            → size ≤ length memory → carry_out told.steps.items told.own texts memory
            ≡ overwrite_parts (handover_by texts self.now).parts memory) }
        ensures sound { IfOk result (λ told. (lengths : List ℕ) (size : ℕ)
            → IsLoadable lengths size self.now
            → All (IsStep lengths (length told.own) size) told.steps.items) }
        ensures ascending { IfOk result (λ told. AllPairs StepsAscend told.steps.items) }
        ensures whole { IfOk result (λ told. sum_by (λ step. step.length) told.steps.items
            ≡ sum_by (λ part. part.place.length) self.now.parts.items) }

        // Which steps these are: the plan alone decides it.
        ensures steps { IfOk result (λ told. told.steps.items ≡ steps_from 0 self.now.parts.items) }
        ensures own { IfOk result (λ told. told.own ≡ own_bytes self.now.parts.items) }
    {
        steps_of(alloc, self.parts.as_slice())
    }
}
