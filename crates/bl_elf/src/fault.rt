//! Why a file is refused.
ghost use Rattle.std.specs.Prelude.{◌≡◌};
ghost use Rattle.bl_elf.specs.declared.fault.ElfFault.TheVariants.{NoMemory};

use std::alloc::{AllocError, AllocFailed};
use thiserror::Error;

/// Why a file is refused: its first fault, in the order of the checks (System V gABI, "ELF Header"
/// and "Program Header"). First come those of the ELF header, then those of the program headers,
/// one header after the other, each with its checks in order, and then overlaps. Only program
/// headers of type `PT_LOAD` whose `p_memsz` is above 0 are judged. An index is that of a program
/// header in the file's table, from 0, and counts all headers.
#[derive(Clone, Copy, Debug, PartialEq, Eq, Error)]
pub enum ElfFault {
    /// The file has fewer than 16 bytes, or does not begin with 7F 45 4C 46 ("ELF Identification").
    #[error("not an ELF file")]
    NotElf,
    /// No header of an executable that can be read here ("ELF Identification", "ELF Header"): its
    /// class is neither 32-bit nor 64-bit, it is not little-endian, or a version is not 1; the file
    /// is shorter than the header; `e_type` is neither `ET_EXEC` nor `ET_DYN`, or `e_machine` is
    /// not that of its class; it has more than 128 program headers (own), or they are too short, or
    /// their table passes the file's end.
    ///
    /// Or the `p_filesz` of a program header is above its `p_memsz` ("Program Header"), which comes
    /// at that header's turn.
    #[error("bad ELF file")]
    BadElf,
    /// The bytes of the program header with this index, of which there is one at least, pass the
    /// file's end ("Program Header": `p_offset`, `p_filesz`).
    #[error("segment {0} is cut")]
    SegmentCut(u32),
    /// The memory of the program header with this index ends above 2^32 ("Program Header":
    /// `p_paddr`, `p_memsz`; the limit is own).
    #[error("segment {0} ends too high")]
    AddressTooHigh(u32),
    /// The program headers with these two indices share a physical byte (own). The first is the
    /// least index that shares one with a later header, and the second, which is above it, the
    /// least of those. It comes after all program headers were judged.
    #[error("segments {0} and {1} overlap")]
    SegmentsOverlap(u32, u32),
    /// No segment holds `e_entry` ("ELF Header"). Only `Elf::entry` answers this, for a file that
    /// was read.
    #[error("no entry")]
    NoEntry,
    /// Memory ran out. This says nothing of the file, and comes only where a growth was refused.
    #[error("no memory")]
    NoMemory,
}

impl From<AllocError> for ElfFault {
    ghost from_gives = { λ _ fault. fault ≡ NoMemory };

    fn from(_: AllocError) -> ElfFault {
        ElfFault::NoMemory
    }
}

impl<T: Drop> From<AllocFailed<T>> for ElfFault {
    ghost from_gives = { λ _ fault. fault ≡ NoMemory };

    fn from(_: AllocFailed<T>) -> ElfFault {
        ElfFault::NoMemory
    }
}
