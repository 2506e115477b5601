//! The submissions that are to be answered, in any order.
ghost use Rattle.std.specs.Prelude.{◌≡◌, ◌+◌, ◌<◌, ◌≤◌, [], ◌∷◌, ◌++◌, length, slice_get};
ghost use Rattle.std.specs.Prelude.{slice_index_or, vec_len, OnOk, OnErr, IsOk, IfSome, IfNone};
ghost use Rattle.bl_store.specs.Stores.{without_index};
ghost use Rattle.bl_store.specs.internal.SubmissionRanges.{runs_listed, listed_without};
ghost use Rattle.bl_store.specs.internal.SubmissionRanges.{IsPlaceInRun};

use crate::submission::Submission;
use crate::submission_range::SubmissionRange;
use std::alloc::{AllocError, Allocator};
use std::marker::Model;

/// Submissions, from the first to the last, and how many they are.
///
/// A boot submits a file's pieces one after the other, so the runs are as few as its files, and
/// stay so few while the first or the last submission is answered. An answer between them cuts a
/// run in two. So a store that answers in no order can have half as many runs as there were
/// submissions: then each answer goes over them, and the list takes about as much room as one of
/// each submission by itself.
#[derive(Drop)]
pub(crate) struct Pending<A: Allocator> {
    runs: Vec<SubmissionRange, A>,
    count: usize,
}

impl<A: Allocator> Model for Pending<A> {
    ghost use Rattle.std.specs.Prelude.{◌≡◌, List, length};
    ghost use Rattle.bl_store.specs.declared.submission.Submission.{Submission};
    ghost use Rattle.bl_store.specs.internal.SubmissionRanges.{runs_listed};

    ghost Value = { List Submission };

    ghost view = { λ pending. runs_listed pending.runs.items };

    ghost invariant = { λ pending. pending.count ≡ length (runs_listed pending.runs.items) };
}

impl<A: Allocator> Pending<A> {
    /// No submission.
    pub(crate) fn new(alloc: A) -> Pending<A>
        ensures { result ≡ [] }
    {
        Pending {
            runs: Vec::new(alloc),
            count: 0,
        }
    }

    pub(crate) fn len(&self) -> usize
        ensures { result ≡ length self.now }
    {
        self.count
    }

    /// The one at a place, if there is one.
    pub(crate) fn at(&self, place: usize) -> Option<Submission>
        ensures { result ≡ slice_get self.now place }
    {
        let (index, at) = find(&self.runs, self.count, place)?;
        self.runs[index].at(at)
    }

    /// One more, after the others.
    pub(crate) fn push(&mut self, submission: Submission) -> Result<(), AllocError>
        ensures ok { OnOk result (self.new ≡ self.old ++ submission ∷ []) }
        ensures err { OnErr result (self.new ≡ self.old) }
    {
        // So many `len` cannot tell. A list of each by itself would long have been refused memory.
        let Some(count) = self.count.checked_add(1) else {
            return Err(AllocError);
        };
        add(&mut self.runs, submission)?;
        self.count = count;
        Ok(())
    }

    /// Leaves out the one at a place, if there is one. The first and the last one take no memory.
    pub(crate) fn remove(&mut self, place: usize) -> Result<(), AllocError>
        ensures ok { OnOk result (self.new ≡ without_index self.old place) }
        ensures err { OnErr result (self.new ≡ self.old) }
        ensures first { place ≡ 0 → IsOk result }
        ensures last { place + 1 ≡ length self.old → IsOk result }
    {
        let Some((index, at)) = find(&self.runs, self.count, place) else {
            return Ok(());
        };
        leave_out(&mut self.runs, index, at)?;
        self.count -= 1;
        Ok(())
    }
}

/// Where the submission at a place is, of so many: the index of its run, and its place there. None
/// if there is no such place.
fn find(runs: &[SubmissionRange], count: usize, place: usize) -> Option<(usize, usize)>
    requires { count ≡ length (runs_listed runs.now) }
    ensures some { IfSome result (λ found. IsPlaceInRun runs.now place found.0 found.1) }
    ensures none { IfNone result (count ≤ place) }
{
    if count <= place {
        return None;
    }
    // The last run needs no walk over the others.
    let last = runs.len() - 1;
    let before = count - runs[last].len();
    if before <= place {
        return Some((last, place - before));
    }
    let mut left = place;
    for (index, run) in runs.iter().enumerate() {
        let len = run.len();
        if left < len {
            return Some((index, left));
        }
        left -= len;
    }
    None
}

/// One more, after the others: in the last run if it goes on with that, else in a run of its own.
fn add<A: Allocator>(
    runs: &mut Vec<SubmissionRange, A>,
    submission: Submission,
) -> Result<(), AllocError>
    ensures ok { OnOk result
        (runs_listed runs.new.items ≡ runs_listed runs.old.items ++ submission ∷ []) }
    ensures err { OnErr result (runs.new.items ≡ runs.old.items) }
{
    let count = runs.len();
    if count > 0 && runs[count - 1].extend(&submission) {
        return Ok(());
    }
    runs.push(SubmissionRange::new(submission))?;
    Ok(())
}

/// Leaves out one of a run. Only where others of its run are on both sides does that take memory,
/// for a run more.
fn leave_out<A: Allocator>(
    runs: &mut Vec<SubmissionRange, A>,
    index: usize,
    at: usize,
) -> Result<(), AllocError>
    requires run { index < vec_len runs.old }
    requires at { at < length (slice_index_or runs.old.items index []) }
    ensures ok { OnOk result (runs_listed runs.new.items ≡ listed_without runs.old.items index at) }
    ensures err { OnErr result (runs.new.items ≡ runs.old.items) }
    ensures first { at ≡ 0 → IsOk result }
    ensures last { at + 1 ≡ length (slice_index_or runs.old.items index []) → IsOk result }
{
    let count = runs[index].len();
    if count == 1 {
        runs.remove(index);
        return Ok(());
    }
    if at == 0 {
        runs[index] = runs[index].from(1);
        return Ok(());
    }
    if at + 1 == count {
        runs[index].truncate(at);
        return Ok(());
    }
    let rest = runs[index].from(at + 1);
    runs.insert(index + 1, rest)?;
    runs[index].truncate(at);
    Ok(())
}
