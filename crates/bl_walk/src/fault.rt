//! Why an image shows a kernel nothing.
ghost use Rattle.std.specs.Prelude.{◌≡◌};
ghost use Rattle.bl_walk.specs.declared.fault.WalkFault.TheVariants as faults;

use bl_mbi::InfoFault;
use bl_params::ParamFault;
use std::alloc::{AllocError, AllocFailed};
use thiserror::Error;

/// Why an image shows a kernel nothing.
///
/// - `OutsideImage`: the kernel is entered outside of its parts, or a range of at least one byte
///   that it follows does not lie in one part.
/// - `BadInfo`: the boot information or the boot parameters are none, or no zero ends the line.
/// - `BadState`: a register that does not hold an address has another number than its protocol
///   gives it; or a Linux kernel is handed other descriptors, or by its 64-bit entry page tables
///   that do not translate each address below 4 GiB to itself.
/// - `NoMemory`: memory ran out. This says nothing of the image, and may come at any growth.
///
/// Of several faults that stand any may be answered.
#[derive(Clone, Copy, Debug, PartialEq, Eq, Error)]
pub enum WalkFault {
    #[error("outside the image")]
    OutsideImage,
    #[error("bad information")]
    BadInfo,
    #[error("bad state")]
    BadState,
    #[error("no memory")]
    NoMemory,
}

impl WalkFault {
    ghost use Rattle.bl_walk.specs.Faults.{walk_fault_number};

    /// The fault's number, 81 to 84.
    pub fn number(self) -> u32
        ensures { result ≡ walk_fault_number self }
    {
        match self {
            // >>> tools/refusals: numbers of WalkFault
            WalkFault::OutsideImage => 81,
            WalkFault::BadInfo => 82,
            WalkFault::BadState => 83,
            WalkFault::NoMemory => 84,
            // <<<
        }
    }
}

impl From<AllocError> for WalkFault {
    ghost from_gives = { λ _ fault. fault ≡ faults.NoMemory };

    fn from(_: AllocError) -> WalkFault {
        WalkFault::NoMemory
    }
}

impl<T: Drop> From<AllocFailed<T>> for WalkFault {
    ghost from_gives = { λ _ fault. fault ≡ faults.NoMemory };

    fn from(_: AllocFailed<T>) -> WalkFault {
        WalkFault::NoMemory
    }
}

impl From<InfoFault> for WalkFault {
    ghost use Rattle.bl_walk.specs.internal.Walking.{information_refusal};

    ghost from_gives = { λ fault walk. walk ≡ information_refusal fault };

    fn from(fault: InfoFault) -> WalkFault {
        match fault {
            InfoFault::WrongLength
            | InfoFault::BadReserved
            | InfoFault::BadTag(_)
            | InfoFault::BadOrder(_) => WalkFault::BadInfo,
            InfoFault::NoMemory => WalkFault::NoMemory,
        }
    }
}

impl From<ParamFault> for WalkFault {
    ghost use Rattle.bl_walk.specs.internal.Walking.{parameters_refusal};

    ghost from_gives = { λ fault walk. walk ≡ parameters_refusal fault };

    fn from(fault: ParamFault) -> WalkFault {
        match fault {
            ParamFault::WrongLength | ParamFault::BadParams(_) => WalkFault::BadInfo,
            ParamFault::NoMemory => WalkFault::NoMemory,
        }
    }
}
