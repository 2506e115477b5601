//! How a boot ends, or a part of one.
ghost use Rattle.std.specs.Prelude.{◌≡◌};
ghost use Rattle.program_commands.specs.declared.boot_end.EndFault.TheVariants as ends;
ghost use Rattle.program_commands.specs.internal.CallEnds.{end_fault_of_desc_fault};

use program_desc::DescFault;
use std::alloc::{AllocError, AllocFailed};

/// How a boot ends that nothing stopped.
#[derive(Clone, Copy)]
pub enum End {
    /// An entry was handed over.
    Booted,

    /// Each entry was refused.
    NoEntryLeft,
}

/// Why a boot, its explanation, its digest or a map is not told to its end: the description breaks
/// a rule of its form or one of machines, the sink had a fault, or memory ran out.
#[derive(Clone, Copy)]
pub enum EndFault {
    BadDescription,
    Device,
    NoMemory,
}

impl From<DescFault> for EndFault {
    ghost from_gives = { λ fault result. result ≡ end_fault_of_desc_fault fault };

    fn from(fault: DescFault) -> EndFault {
        match fault {
            DescFault::BadDescription => EndFault::BadDescription,
            DescFault::NoMemory => EndFault::NoMemory,
        }
    }
}

impl From<AllocError> for EndFault {
    ghost from_gives = { λ _ fault. fault ≡ ends.NoMemory };

    fn from(_: AllocError) -> EndFault {
        EndFault::NoMemory
    }
}

impl<T: Drop> From<AllocFailed<T>> for EndFault {
    ghost from_gives = { λ _ fault. fault ≡ ends.NoMemory };

    fn from(_: AllocFailed<T>) -> EndFault {
        EndFault::NoMemory
    }
}
