//! Why an entry is not loaded.
ghost use Rattle.std.specs.Prelude.{◌≡◌};
ghost use Rattle.c_records.specs.declared.load_fault.LoadFault.TheVariants.{NoMemory, Misused};
ghost use Rattle.c_records.specs.EntryFaults.{load_fault_of_given, load_fault_of_prep};

use crate::given_fault::GivenFault;
use crate::misuse::Misuse;
use bl_load::{PrepFault, Refusal};
use std::alloc::AllocError;

/// Why an entry is not loaded: its caller broke a condition, or the entry is refused, or memory ran
/// out, or a part would begin below the memory that is given.
#[derive(Clone, Copy)]
pub enum LoadFault {
    Misused(Misuse),
    Refused(Refusal),
    NoMemory,
    /// A part begins below the memory that is given.
    Outside,
}

impl From<Misuse> for LoadFault {
    ghost from_gives = { λ misuse fault. fault ≡ Misused misuse };

    fn from(misuse: Misuse) -> LoadFault {
        LoadFault::Misused(misuse)
    }
}

impl From<AllocError> for LoadFault {
    ghost from_gives = { λ _ fault. fault ≡ NoMemory };

    fn from(_: AllocError) -> LoadFault {
        LoadFault::NoMemory
    }
}

impl From<GivenFault> for LoadFault {
    ghost from_gives = { λ given fault. fault ≡ load_fault_of_given given };

    fn from(given: GivenFault) -> LoadFault {
        load_fault_of_given(given)
    }
}

impl From<PrepFault> for LoadFault {
    ghost from_gives = { λ prepared fault. fault ≡ load_fault_of_prep prepared };

    fn from(prepared: PrepFault) -> LoadFault {
        load_fault_of_prep(prepared)
    }
}

/// The fault of a preparation, as one of a load.
pub fn load_fault_of_prep(fault: PrepFault) -> LoadFault
    ensures { result ≡ load_fault_of_prep fault }
{
    match fault {
        PrepFault::Refused(refusal) => LoadFault::Refused(refusal),
        PrepFault::NoMemory => LoadFault::NoMemory,
    }
}

/// The fault of what is given, as one of a load.
pub fn load_fault_of_given(fault: GivenFault) -> LoadFault
    ensures { result ≡ load_fault_of_given fault }
{
    match fault {
        GivenFault::Misused(misuse) => LoadFault::Misused(misuse),
        GivenFault::NoMemory => LoadFault::NoMemory,
    }
}
