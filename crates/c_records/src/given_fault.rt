//! Why what C gives is not taken.
ghost use Rattle.std.specs.Prelude.{◌≡◌};
ghost use Rattle.c_records.specs.declared.given_fault.GivenFault.TheVariants.{Misused, NoMemory};

use crate::misuse::Misuse;
use std::alloc::AllocError;

/// Why what C gives is not taken: its caller broke a condition, or memory ran out.
#[derive(Clone, Copy)]
pub enum GivenFault {
    Misused(Misuse),
    NoMemory,
}

impl From<Misuse> for GivenFault {
    ghost from_gives = { λ misuse fault. fault ≡ Misused misuse };

    fn from(misuse: Misuse) -> GivenFault {
        GivenFault::Misused(misuse)
    }
}

impl From<AllocError> for GivenFault {
    ghost from_gives = { λ _ fault. fault ≡ NoMemory };

    fn from(_: AllocError) -> GivenFault {
        GivenFault::NoMemory
    }
}
