//! What an attempt asks a store for.
ghost use Rattle.std.specs.Prelude.{◌≡◌, ℕ, List, length};
ghost use Rattle.bl_stage.specs.PieceStates.{piece_states};
ghost use Rattle.bl_session.specs.menu.Menu.{files_of};
ghost use Rattle.bl_session.specs.session.Submissions.{piece_submissions, submissions_for_files};
ghost use Rattle.bl_session.specs.internal.attempt.MissingPieces.{HasCountablePieces};
ghost use Rattle.bl_session.specs.internal.session.Submitted.{AreSubmitted};

use crate::attempt::missing_pieces::pieces_of;
use crate::menu::entry_files::file_at;
use bl_load::Entry;
use bl_stage::Stage;
use bl_store::{Store, Ticket};
use std::alloc::{AllocError, Allocator};

/// Asks for a file, one piece after the other.
fn submit_file<S: Store>(
    store: &mut S,
    attempt: u32,
    place: u32,
    file: u32,
    count: u32,
) -> Result<(), AllocError>
    ensures asked { AreSubmitted result (piece_submissions attempt place file count)
        (S.given store.old) (S.given store.new) }
    ensures files { S.files store.new ≡ S.files store.old }
{
    for piece in 0..count {
        store.submit(
            file,
            Ticket {
                attempt,
                file: place,
                piece,
            },
        )?;
    }
    Ok(())
}

/// Asks for each piece of an attempt's files: files ascending, and in each of them pieces
/// ascending.
pub fn submit_files<S: Store, A: Allocator>(
    store: &mut S,
    attempt: u32,
    entry: &Entry<A>,
    stage: &Stage<A>,
) -> Result<(), AllocError>
    requires files { length stage.now.sizes ≡ length (files_of entry.now) }
    requires countable { HasCountablePieces stage.now }
    ensures asked { (bytes : List ℕ) → AreSubmitted result
        (submissions_for_files attempt 0 (files_of entry.now) (piece_states bytes stage.now))
        (S.given store.old) (S.given store.new) }
    ensures files { S.files store.new ≡ S.files store.old }
{
    for place in 0..stage.files() {
        let file = file_at(entry, place);
        submit_file(store, attempt, place as u32, file, pieces_of(stage, place))?;
    }
    Ok(())
}
