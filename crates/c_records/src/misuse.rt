//! What C gave that it may not give.
ghost use Rattle.std.specs.Prelude.{◌≡◌};
ghost use Rattle.c_records.specs.Status.{misuse_status};

use bl_map::MapFault;

/// A condition of a call that its caller broke, found before any memory was changed. Of several the
/// first in this order is told.
#[derive(Clone, Copy)]
pub enum Misuse {
    /// An array has too little room.
    SmallRoom,
    /// A region's kind is none.
    BadKind,
    /// The machine's size is a bad one.
    BadSize,
    /// There are too many regions.
    TooManyRegions,
    /// A region ends too high.
    BadRegion,
    /// The pool is a bad one.
    BadPool,
    /// Memory does not cover the machine.
    BadMemory,
    /// There is no such protocol.
    BadProtocol,
    /// There are too many entries.
    TooManyEntries,
    /// There are too many modules in an entry.
    TooManyModules,
    /// A copy of the RSDP is too long.
    LongRsdp,
    /// There is no such entry.
    BadIndex,
    /// UEFI has neither 32 nor 64 bits.
    BadEfiBits,
    /// There is no such state of secure boot.
    BadSecureBoot,
    /// What firmware tells has this fault.
    BadFirmware(MapFault),
}

/// What the status of a fault of firmware has beside the fault's number, which is 6 to 19.
const FIRMWARE_STATUS: u32 = 115;

impl Misuse {
    /// The status that tells of it. No refusal and no fault has such a number.
    pub fn status(self) -> u32
        ensures { result ≡ misuse_status self }
    {
        match self {
            Misuse::SmallRoom => 104,
            Misuse::BadKind => 105,
            Misuse::BadSize => 106,
            Misuse::TooManyRegions => 107,
            Misuse::BadRegion => 108,
            Misuse::BadPool => 109,
            Misuse::BadMemory => 110,
            Misuse::BadProtocol => 111,
            Misuse::TooManyEntries => 112,
            Misuse::TooManyModules => 113,
            Misuse::LongRsdp => 114,
            Misuse::BadIndex => 115,
            Misuse::BadEfiBits => 119,
            Misuse::BadSecureBoot => 120,
            Misuse::BadFirmware(fault) => FIRMWARE_STATUS + fault.number(),
        }
    }
}
