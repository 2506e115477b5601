//! Why an entry is not booted.
ghost use Rattle.std.specs.Prelude.{◌≡◌};
ghost use Rattle.bl_load.specs.RefusalNumbers as numbers;
ghost use Rattle.bl_load.specs.declared.refusal.PrepFault.TheVariants.{Refused, NoMemory};

use std::alloc::{AllocError, AllocFailed};
use std::fmt;
use thiserror::Error;

/// Why an entry is refused: the first refusal in the order of the checks. A file is told by its
/// place in the entry, the kernel being 0.
#[derive(Clone, Copy, Debug, PartialEq, Eq, Error)]
pub enum Refusal {
    // >>> tools/refusals: variants of Refusal
    NoFile(u32),
    FileFault(u32),
    FileTooLong(u32),
    NoHeader,
    HeaderCut,
    BadArchitecture,
    BadTag(u64),
    UnsupportedTag(u16),
    UnsupportedRequest(u32),
    NoConsole,
    NotElf,
    BadElf,
    SegmentCut(u32),
    AddressTooHigh(u32),
    SegmentsOverlap(u32, u32),
    NoEntry,
    EntryOutside,
    BadAlign,
    NotUsable,
    NoRoom,
    NoPool,
    NotBzImage,
    OldProtocol,
    NotHigh,
    SetupCut,
    BadPreferred,
    LineTooLong,
    LineHasNul,
    MapTooLong,
    No64Entry,
    // <<<
}

impl Refusal {
    /// The refusal's number.
    pub fn number(self) -> u32
        ensures { result ≡ numbers.refusal_number self }
    {
        match self {
            // >>> tools/refusals: numbers of Refusal
            Refusal::NoFile(_) => 1,
            Refusal::FileFault(_) => 2,
            Refusal::FileTooLong(_) => 3,
            Refusal::NoHeader => 4,
            Refusal::HeaderCut => 5,
            Refusal::BadArchitecture => 6,
            Refusal::BadTag(_) => 7,
            Refusal::UnsupportedTag(_) => 8,
            Refusal::UnsupportedRequest(_) => 9,
            Refusal::NoConsole => 10,
            Refusal::NotElf => 11,
            Refusal::BadElf => 12,
            Refusal::SegmentCut(_) => 13,
            Refusal::AddressTooHigh(_) => 14,
            Refusal::SegmentsOverlap(_, _) => 15,
            Refusal::NoEntry => 16,
            Refusal::EntryOutside => 17,
            Refusal::BadAlign => 18,
            Refusal::NotUsable => 19,
            Refusal::NoRoom => 20,
            Refusal::NoPool => 21,
            Refusal::NotBzImage => 22,
            Refusal::OldProtocol => 23,
            Refusal::NotHigh => 24,
            Refusal::SetupCut => 25,
            Refusal::BadPreferred => 26,
            Refusal::LineTooLong => 27,
            Refusal::LineHasNul => 28,
            Refusal::MapTooLong => 29,
            Refusal::No64Entry => 30,
            // <<<
        }
    }
}

/// As its number: what it means is a text of the program, which a loader has no need of.
impl fmt::Display for Refusal {
    fn fmt<W: fmt::Write>(&self, f: &mut fmt::Formatter<W>) -> fmt::Result {
        write!(f, "refusal {}", self.number())
    }
}

/// Why an entry is not prepared: its first refusal, or want of memory.
#[derive(Clone, Copy, Debug, PartialEq, Eq, Error)]
pub enum PrepFault {
    #[error("{0}")]
    Refused(Refusal),
    #[error("no memory")]
    NoMemory,
}

impl PrepFault {
    /// The number of the refusal, 1 to 30, or 41 when memory ran out, as of a boot.
    pub fn number(self) -> u32
        ensures { result ≡ numbers.prep_fault_number self }
    {
        match self {
            PrepFault::Refused(refusal) => refusal.number(),
            PrepFault::NoMemory => 41,
        }
    }
}

impl From<Refusal> for PrepFault {
    ghost from_gives = { λ refusal fault. fault ≡ Refused refusal };

    fn from(refusal: Refusal) -> PrepFault {
        PrepFault::Refused(refusal)
    }
}

impl From<AllocError> for PrepFault {
    ghost from_gives = { λ _ fault. fault ≡ NoMemory };

    fn from(_: AllocError) -> PrepFault {
        PrepFault::NoMemory
    }
}

impl<T: Drop> From<AllocFailed<T>> for PrepFault {
    ghost from_gives = { λ _ fault. fault ≡ NoMemory };

    fn from(_: AllocFailed<T>) -> PrepFault {
        PrepFault::NoMemory
    }
}
