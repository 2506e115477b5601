//! Why a description is refused.
ghost use Rattle.std.specs.Prelude.{◌≡◌};
ghost use Rattle.program_desc.specs.declared.fault.DescFault.TheVariants.{NoMemory};

use std::alloc::AllocError;
use thiserror::Error;

/// Why a description is refused: it breaks a rule of its form, or memory ran out while it was read.
#[derive(Clone, Copy, Debug, PartialEq, Eq, Error)]
pub enum DescFault {
    #[error("bad description")]
    BadDescription,
    #[error("no memory")]
    NoMemory,
}

impl From<AllocError> for DescFault {
    ghost from_gives = { λ _ fault. fault ≡ NoMemory };

    fn from(_: AllocError) -> DescFault {
        DescFault::NoMemory
    }
}
