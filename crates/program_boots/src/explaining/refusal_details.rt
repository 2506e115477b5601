//! Finds the details of refusals, which are told in lines of their own.
ghost use Rattle.std.specs.Prelude.{◌≡◌, All, IfOk, slice_get, true};
ghost use Rattle.bl_load.specs.Parts.{IsRefusal};
ghost use Rattle.program_boots.specs.explaining.Details.{AreToldRefusals, IsRefusalDetail};
ghost use Rattle.program_boots.specs.explaining.Details.{value_sought, IsRefusalDetailOrNothing};
ghost use Rattle.program_boots.specs.explaining.AttemptedEntries.{HasPlaceRefusal, is_placing};
ghost use Rattle.program_desc.specs.Views.{entry_view, view};

use crate::described::DescribedBoot;
use crate::explaining::placing_details::{frames_detail, place_detail};
use bl_load::Refusal;
use bl_map::Machine;
use bl_session::RefusedEntry;
use program_desc::EntryRow;
use program_say::{RefusalDetail, Sought, ToldRefusal, entry_at};
use std::alloc::{AllocError, Allocator};

/// What is told of the refusal of an entry.
fn detail_of<A: Allocator + Copy>(
    alloc: A,
    machine: &Machine<A>,
    sought: &Sought<'_, A>,
    row: &EntryRow<A>,
    refusal: Refusal,
) -> Result<RefusalDetail, AllocError>
    requires { is_placing refusal ≡ true
        → IsRefusal machine.now (value_sought sought.now (entry_view row.now)) refusal }
    ensures { IfOk result
        (IsRefusalDetail machine.now (value_sought sought.now (entry_view row.now)) refusal) }
{
    match refusal {
        Refusal::NotUsable => place_detail(alloc, machine, sought, row),
        Refusal::NoRoom => place_detail(alloc, machine, sought, row),
        Refusal::NoPool => frames_detail(alloc, machine, sought, row),
        _ => Ok(RefusalDetail::Nothing),
    }
}

/// What is told of a refusal of a boot.
fn detail_at<A: Allocator + Copy>(
    alloc: A,
    boot: &DescribedBoot<'_, A>,
    sought: &Sought<'_, A>,
    refused: &RefusedEntry,
) -> Result<RefusalDetail, AllocError>
    requires { HasPlaceRefusal boot.now.machine.now (view boot.now.description.now).entries
        sought.now refused.now }
    ensures { IfOk result (IsRefusalDetailOrNothing boot.now.machine.now sought.now
        (slice_get (view boot.now.description.now).entries refused.now.entry)
        refused.now.refusal) }
{
    match entry_at(boot.description, refused.entry) {
        Some(row) => detail_of(alloc, boot.machine, sought, row, refused.refusal),
        None => Ok(RefusalDetail::Nothing),
    }
}

/// The refusals of a boot, each with what is told of it.
pub fn find_details<A: Allocator + Copy>(
    alloc: A,
    boot: &DescribedBoot<'_, A>,
    sought: &Sought<'_, A>,
    refused: &[RefusedEntry],
) -> Result<Vec<ToldRefusal, A>, AllocError>
    requires { All (HasPlaceRefusal boot.now.machine.now (view boot.now.description.now).entries
        sought.now) refused.now }
    ensures { IfOk result (λ told. AreToldRefusals boot.now.machine.now
        (view boot.now.description.now).entries sought.now refused.now told.items) }
{
    let mut told = Vec::new(alloc);
    for attempt in refused {
        let detail = detail_at(alloc, boot, sought, attempt)?;
        told.push(ToldRefusal {
            refused: *attempt,
            detail,
        })?;
    }
    Ok(told)
}
