//! Why a command line gives no job.
ghost use Rattle.std.specs.Prelude.{◌≡◌};
ghost use Rattle.program_line.specs.declared.fault.LineFault.TheVariants.{NoMemory};

use std::alloc::AllocError;
use thiserror::Error;

/// Why a command line gives no job: help was asked for, the words are no command of the program, or
/// memory ran out.
#[derive(Clone, Copy, Debug, PartialEq, Eq, Error)]
pub enum LineFault {
    #[error("help")]
    Help,
    #[error("bad command line")]
    Refused,
    #[error("no memory")]
    NoMemory,
}

impl From<AllocError> for LineFault {
    ghost from_gives = { λ _ fault. fault ≡ NoMemory };

    fn from(_: AllocError) -> LineFault {
        LineFault::NoMemory
    }
}
