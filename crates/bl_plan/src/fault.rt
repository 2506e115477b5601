//! Why there is no place.
ghost use Rattle.std.specs.Prelude.{◌≡◌};
ghost use Rattle.bl_plan.specs.declared.fault.PlanFault.TheVariants.{NoMemory};

use std::alloc::{AllocError, AllocFailed};
use thiserror::Error;

/// Why there is no place. Memory may run out at any growth.
#[derive(Clone, Copy, Debug, PartialEq, Eq, Error)]
pub enum PlanFault {
    #[error("a byte of a fixed range is not usable, or is avoided")]
    NotUsable,
    #[error("a fixed range meets an earlier part")]
    Overlap,
    #[error("no address is permitted")]
    NoRoom,
    #[error("no memory")]
    NoMemory,
}

impl From<AllocError> for PlanFault {
    ghost from_gives = { λ _ fault. fault ≡ NoMemory };

    fn from(_: AllocError) -> PlanFault {
        PlanFault::NoMemory
    }
}

impl<T: Drop> From<AllocFailed<T>> for PlanFault {
    ghost from_gives = { λ _ fault. fault ≡ NoMemory };

    fn from(_: AllocFailed<T>) -> PlanFault {
        PlanFault::NoMemory
    }
}
