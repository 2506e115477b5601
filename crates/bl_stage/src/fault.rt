//! Why files are not staged.
ghost use Rattle.std.specs.Prelude.{◌≡◌};
ghost use Rattle.bl_stage.specs.declared.fault.StageFault.TheVariants.{NoMemory};

use std::alloc::{AllocError, AllocFailed};
use thiserror::Error;

/// Why files are not staged, or can't make way. Only a stage that is begun takes memory.
#[derive(Clone, Copy, Debug, PartialEq, Eq, Error)]
pub enum StageFault {
    #[error("the pool has too few frames")]
    NoPool,
    #[error("no memory")]
    NoMemory,
}

impl From<AllocError> for StageFault {
    ghost from_gives = { λ _ fault. fault ≡ NoMemory };

    fn from(_: AllocError) -> StageFault {
        StageFault::NoMemory
    }
}

impl<T: Drop> From<AllocFailed<T>> for StageFault {
    ghost from_gives = { λ _ fault. fault ≡ NoMemory };

    fn from(_: AllocFailed<T>) -> StageFault {
        StageFault::NoMemory
    }
}
