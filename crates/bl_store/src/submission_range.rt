//! Submissions of neighbouring pieces, kept as one.
ghost use Rattle.std.specs.Prelude.{◌≡◌, ◌↔◌, ◌+◌, ◌^◌, ◌<◌, ◌≤◌, [], ◌∷◌, ◌++◌, length};
ghost use Rattle.std.specs.Prelude.{take, drop, slice_get, if◌then◌else◌, IsTrue};
ghost use Rattle.bl_store.specs.internal.SubmissionRanges.{submission_for_piece, GoesOn};

use crate::submission::Submission;
use crate::ticket::Ticket;
use std::marker::Model;

/// One or more submissions for a file under an attempt: the first, and one of each piece that
/// follows. However many they are, they take the room of one and a half.
#[derive(Drop)]
pub(crate) struct SubmissionRange {
    first: Submission,
    count: usize,
}

impl Model for SubmissionRange {
    ghost use Rattle.std.specs.Prelude.{◌+◌, ◌^◌, ◌<◌, ◌≤◌, List};
    ghost use Rattle.bl_store.specs.declared.submission.Submission.{Submission};
    ghost use Rattle.bl_store.specs.internal.SubmissionRanges.{submissions_from};

    ghost Value = { List Submission };

    ghost view = { λ run. submissions_from run.first run.count };

    ghost invariant = { λ run. (0 < run.count)
        × (run.first.ticket.piece + run.count ≤ 2 ^ 32) };
}

impl SubmissionRange {
    /// This one alone.
    pub(crate) fn new(first: Submission) -> SubmissionRange
        ensures { result ≡ first ∷ [] }
    {
        SubmissionRange { first, count: 1 }
    }

    pub(crate) fn len(&self) -> usize
        ensures { result ≡ length self.now }
    {
        self.count
    }

    /// The one at a place, if there is one.
    pub(crate) fn at(&self, place: usize) -> Option<Submission>
        ensures { result ≡ slice_get self.now place }
    {
        if place < self.count {
            Some(later(&self.first, place as u32))
        } else {
            None
        }
    }

    /// Takes in one more, exactly if it goes on with the run; else the answer is no.
    pub(crate) fn extend(&mut self, submission: &Submission) -> bool
        ensures goes_on { IsTrue result ↔ GoesOn self.old submission.now }
        ensures after { self.new ≡ (if result then self.old ++ submission.now ∷ [] else self.old) }
    {
        if !is_later(submission, &self.first, self.count) {
            return false;
        }
        self.count += 1;
        true
    }

    /// Keeps so many, from the first on.
    pub(crate) fn truncate(&mut self, count: usize)
        requires { 0 < count }
        ensures { self.new ≡ take count self.old }
    {
        if count < self.count {
            self.count = count;
        }
    }

    /// Those from a place on.
    pub(crate) fn from(&self, place: usize) -> SubmissionRange
        requires { place < length self.now }
        ensures { result ≡ drop place self.now }
    {
        SubmissionRange {
            first: later(&self.first, place as u32),
            count: self.count - place,
        }
    }
}

/// The same submission, of a piece so many further on.
fn later(first: &Submission, pieces: u32) -> Submission
    requires { first.now.ticket.piece + pieces < 2 ^ 32 }
    ensures { result ≡ submission_for_piece first.now (first.now.ticket.piece + pieces) }
{
    let Submission { file, ticket } = *first;
    Submission {
        file,
        ticket: Ticket {
            piece: ticket.piece + pieces,
            ..ticket
        },
    }
}

/// Whether it is the same submission as the first, of a piece so many further on.
fn is_later(submission: &Submission, first: &Submission, pieces: usize) -> bool
    requires { pieces ≤ 2 ^ 32 }
    ensures later { IsTrue result
        ↔ (submission.now ≡ submission_for_piece first.now (first.now.ticket.piece + pieces)) }
    ensures fits { IsTrue result → first.now.ticket.piece + pieces < 2 ^ 32 }
{
    let Ticket {
        attempt,
        file,
        piece,
    } = first.ticket;
    if submission.ticket.piece as usize != piece as usize + pieces {
        return false;
    }
    submission.file == first.file
        && submission.ticket.attempt == attempt
        && submission.ticket.file == file
}
