//! Why a machine is refused.
ghost use Rattle.std.specs.Prelude.{◌≡◌};
ghost use Rattle.bl_map.specs.declared.fault.MapFault.TheVariants.{NoMemory};

use std::alloc::{AllocError, AllocFailed};
use thiserror::Error;

/// Why a machine is refused: the first fault in the order size, number of regions, regions, pool;
/// then what firmware tells: screen, root pointer of ACPI, UEFI, SMBIOS, ranges to avoid. Memory
/// may run out at any growth.
#[derive(Clone, Copy, Debug, PartialEq, Eq, Error)]
pub enum MapFault {
    #[error("bad size")]
    BadSize,
    #[error("bad region {0}")]
    BadRegion(usize),
    #[error("too many regions")]
    TooManyRegions,
    #[error("bad pool")]
    BadPool,
    #[error("no memory")]
    NoMemory,
    #[error("bad screen size")]
    BadScreenSize,
    #[error("bad screen depth")]
    BadScreenDepth,
    #[error("bad screen color")]
    BadScreenColor,
    #[error("bad screen pitch")]
    BadScreenPitch,
    #[error("bad screen place")]
    BadScreenPlace,
    #[error("bad rsdp")]
    BadRsdp,
    #[error("bad system table")]
    BadSystemTable,
    #[error("bad descriptors")]
    BadDescriptors,
    #[error("bad efi map size")]
    BadEfiMapSize,
    #[error("bad efi map place")]
    BadEfiMapPlace,
    #[error("bad smbios size")]
    BadSmbiosSize,
    #[error("too many avoided ranges")]
    TooManyAvoided,
    #[error("bad avoided range {0}")]
    BadAvoided(usize),
    #[error("pool is avoided")]
    PoolAvoided,
}

impl MapFault {
    ghost use Rattle.bl_map.specs.Faults.{map_fault_number};

    /// The fault's number, 1 to 19.
    pub fn number(self) -> u32
        ensures { result ≡ map_fault_number self }
    {
        match self {
            // >>> tools/refusals: numbers of MapFault
            MapFault::BadSize => 1,
            MapFault::BadRegion(_) => 2,
            MapFault::TooManyRegions => 3,
            MapFault::BadPool => 4,
            MapFault::NoMemory => 5,
            MapFault::BadScreenSize => 6,
            MapFault::BadScreenDepth => 7,
            MapFault::BadScreenColor => 8,
            MapFault::BadScreenPitch => 9,
            MapFault::BadScreenPlace => 10,
            MapFault::BadRsdp => 11,
            MapFault::BadSystemTable => 12,
            MapFault::BadDescriptors => 13,
            MapFault::BadEfiMapSize => 14,
            MapFault::BadEfiMapPlace => 15,
            MapFault::BadSmbiosSize => 16,
            MapFault::TooManyAvoided => 17,
            MapFault::BadAvoided(_) => 18,
            MapFault::PoolAvoided => 19,
            // <<<
        }
    }
}

impl From<AllocError> for MapFault {
    ghost from_gives = { λ _ fault. fault ≡ NoMemory };

    fn from(_: AllocError) -> MapFault {
        MapFault::NoMemory
    }
}

impl<T: Drop> From<AllocFailed<T>> for MapFault {
    ghost from_gives = { λ _ fault. fault ≡ NoMemory };

    fn from(_: AllocFailed<T>) -> MapFault {
        MapFault::NoMemory
    }
}
