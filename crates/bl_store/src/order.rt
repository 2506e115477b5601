//! Which of its submissions a store answers next.
ghost use Rattle.std.specs.Prelude.{◌≡◌};
ghost use Rattle.bl_store.specs.Stores.{next_place};

use crate::ledger::Ledger;
use crate::stored_files::StoredFiles;
use std::alloc::Allocator;

/// Which ticket a store answers next: the one submitted first, or the one submitted last.
#[derive(Clone, Copy, Debug, PartialEq, Eq)]
pub enum Order {
    Forward,
    Reverse,
}

/// The place of the submission that is answered next of these.
pub(crate) fn place_in<F: StoredFiles, A: Allocator + Copy>(
    order: Order,
    ledger: &Ledger<F, A>,
) -> usize
    ensures { result ≡ next_place order ledger.now.pending }
{
    match order {
        Order::Forward => 0,
        Order::Reverse => ledger.len().saturating_sub(1),
    }
}
