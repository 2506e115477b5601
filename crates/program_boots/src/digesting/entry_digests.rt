//! The digests of an entry's image, by its plan.
ghost use Rattle.std.specs.Prelude.{◌≡◌, IfOk};
ghost use Rattle.bl_digest.specs.Digests.{digests_of};
ghost use Rattle.bl_digest.specs.PlanInSteps.{CanBeLoadedFrom};
ghost use Rattle.bl_load.specs.Loadable.{lengths_of};
ghost use Rattle.bl_load.specs.PlanContents.{handover_by};
ghost use Rattle.bl_stage.specs.Files.{stored_files};
ghost use Rattle.bl_session.specs.menu.Menu.{files_of};
ghost use Rattle.program_boots.specs.EntryPlans.{file_texts};

use crate::digesting::entry_files::{file_texts, indices_of};
use bl_digest::{Digests, digest_plan};
use bl_load::{Entry, Plan};
use bl_session::Fetched;
use std::alloc::{AllocError, Allocator};

/// The digests of the image of an entry with these files, by its plan.
pub fn digest_entry<A: Allocator + Copy>(
    alloc: A,
    entry: &Entry<A>,
    files: &[Fetched<A>],
    plan: &Plan<A>,
) -> Result<Digests<A>, AllocError>
    requires { CanBeLoadedFrom
        (lengths_of (file_texts (stored_files files.now) (files_of entry.now))) plan.now }
    ensures { IfOk result (λ digests. digests ≡ digests_of
        (handover_by (file_texts (stored_files files.now) (files_of entry.now)) plan.now)) }
{
    let indices = indices_of(alloc, entry)?;
    let texts = file_texts(alloc, files, &indices)?;
    digest_plan(alloc, plan, &texts)
}
