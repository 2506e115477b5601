//! Why boot parameters are refused.
ghost use Rattle.std.specs.Prelude.{◌≡◌};
ghost use Rattle.bl_params.specs.declared.fault.ParamFault.TheVariants.{NoMemory};

use std::alloc::{AllocError, AllocFailed};
use thiserror::Error;

/// Why boot parameters are refused.
///
/// - `WrongLength`: there are not 4096 bytes.
/// - `BadParams(offset)`: the least offset of a byte or field that breaks the form. A field counts
///   by its first byte, and an end of the header that is too low by the byte at 0x201 which tells
///   it.
/// - `NoMemory`: memory ran out. This says nothing of the bytes, and may come at any growth.
#[derive(Clone, Copy, Debug, PartialEq, Eq, Error)]
pub enum ParamFault {
    #[error("wrong length")]
    WrongLength,
    #[error("bad parameters at {0}")]
    BadParams(u64),
    #[error("no memory")]
    NoMemory,
}

impl ParamFault {
    ghost use Rattle.bl_params.specs.Faults.{param_fault_number};

    /// The fault's number, 66 to 68.
    pub fn number(self) -> u32
        ensures { result ≡ param_fault_number self }
    {
        match self {
            // >>> tools/refusals: numbers of ParamFault
            ParamFault::WrongLength => 66,
            ParamFault::BadParams(_) => 67,
            ParamFault::NoMemory => 68,
            // <<<
        }
    }
}

impl From<AllocError> for ParamFault {
    ghost from_gives = { λ _ fault. fault ≡ NoMemory };

    fn from(_: AllocError) -> ParamFault {
        ParamFault::NoMemory
    }
}

impl<T: Drop> From<AllocFailed<T>> for ParamFault {
    ghost from_gives = { λ _ fault. fault ≡ NoMemory };

    fn from(_: AllocFailed<T>) -> ParamFault {
        ParamFault::NoMemory
    }
}
