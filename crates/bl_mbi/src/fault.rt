//! Why boot information is refused.
ghost use Rattle.std.specs.Prelude.{◌≡◌};
ghost use Rattle.bl_mbi.specs.declared.fault.InfoFault.TheVariants.{NoMemory};

use std::alloc::{AllocError, AllocFailed};
use thiserror::Error;

/// Why boot information is refused: the first fault (Multiboot2 3.6 "Boot information format"; the
/// order of tags and of faults is own). The length comes first, then the reserved word, then one
/// tag after the other. At one tag `BadOrder` comes before `BadTag`, for a type out of order is
/// found before anything else of the tag is looked at. Offsets are in bytes from the first byte of
/// the information, where `total_size` stands.
#[derive(Clone, Copy, Debug, PartialEq, Eq, Error)]
pub enum InfoFault {
    /// Fewer than 16 bytes, or another number of bytes than `total_size`.
    #[error("wrong length")]
    WrongLength,

    /// The word after `total_size`, which is reserved, is not 0.
    #[error("bad reserved word")]
    BadReserved,

    /// The tag that begins at this offset has the type that stands next, and is none of this type:
    /// its size is below 8, passes the end or does not fit the type; its padding is not zero; or
    /// its body is not one: a text without its one zero at its end, `mod_end` below `mod_start`,
    /// `mem_lower` above 640, an entry size other than 24, a version or a reserved word other than
    /// 0, a kind outside 1 to 5, a run that ends above 2^52, a screen, a system table, a memory map
    /// of UEFI or tables of SMBIOS outside their limits. So too where only 1 to 7 bytes are left
    /// for a tag.
    #[error("bad tag at {0}")]
    BadTag(u64),

    /// At this offset another tag should begin than does: its type is unknown, out of order or
    /// repeated, or one that must stand is missing; also where no byte is left for it. UEFI's
    /// memory map must stand where its system table is told, and only there. Bytes after the end
    /// tag are in no order either: the offset is that of the first of them.
    #[error("bad order at {0}")]
    BadOrder(u64),

    /// A growth was refused before any fault was found.
    #[error("no memory")]
    NoMemory,
}

impl InfoFault {
    ghost use Rattle.bl_mbi.specs.Faults.{info_fault_number};

    /// The fault's number, 61 to 65.
    pub fn number(self) -> u32
        ensures { result ≡ info_fault_number self }
    {
        match self {
            // >>> tools/refusals: numbers of InfoFault
            InfoFault::WrongLength => 61,
            InfoFault::BadReserved => 62,
            InfoFault::BadTag(_) => 63,
            InfoFault::BadOrder(_) => 64,
            InfoFault::NoMemory => 65,
            // <<<
        }
    }
}

impl From<AllocError> for InfoFault {
    ghost from_gives = { λ _ fault. fault ≡ NoMemory };

    fn from(_: AllocError) -> InfoFault {
        InfoFault::NoMemory
    }
}

impl<T: Drop> From<AllocFailed<T>> for InfoFault {
    ghost from_gives = { λ _ fault. fault ≡ NoMemory };

    fn from(_: AllocFailed<T>) -> InfoFault {
        InfoFault::NoMemory
    }
}
