//! Why an image is not written, or not read.
ghost use Rattle.std.specs.Prelude.{◌≡◌};
ghost use Rattle.bl_image.specs.declared.fault.ImageFault.TheVariants as faults;
ghost use Rattle.bl_image.specs.FaultNumbers.{image_fault_number};

use crate::sink::DeviceFault;
use std::alloc::{AllocError, AllocFailed};
use thiserror::Error;

/// Why an image is not read: the first fault in the order of reading, found as soon as the field
/// that shows it came. To write one has but a fault of the device.
#[derive(Clone, Copy, Debug, PartialEq, Eq, Error)]
pub enum ImageFault {
    /// The first 8 bytes are not `BLIMAGE` and a zero byte.
    #[error("bad magic")]
    BadMagic,

    /// The version is neither 1 nor 2.
    #[error("bad version")]
    BadVersion,

    /// The protocol is none of the version, which has 1 and 2, and in version 2 also 3; in version
    /// 2 under protocol 1 or 2, a register that the protocol does not give is not 0, or another one
    /// is 2^32 or more; there are more than 256 parts; or the word after their number is not 0.
    #[error("bad header")]
    BadHeader,

    /// The record with this number, from 0, has a role outside 1 to 7 (under protocol 3, outside 1
    /// to 8), an address below the end of the part before, a length of 0, or an end above 2^32.
    #[error("bad part {0}")]
    BadPart(u32),

    /// The input ends before the image does, perhaps inside a field, or it goes on after it.
    #[error("wrong length")]
    WrongLength,

    /// The sink or the source had a fault.
    #[error("device fault")]
    DeviceFault,

    /// A growth was refused before any fault was found.
    #[error("no memory")]
    NoMemory,
}

impl ImageFault {
    /// The fault's number, 71 to 77.
    pub fn number(self) -> u32
        ensures { result ≡ image_fault_number self }
    {
        match self {
            // >>> tools/refusals: numbers of ImageFault
            ImageFault::BadMagic => 71,
            ImageFault::BadVersion => 72,
            ImageFault::BadHeader => 73,
            ImageFault::BadPart(_) => 74,
            ImageFault::WrongLength => 75,
            ImageFault::DeviceFault => 76,
            ImageFault::NoMemory => 77,
            // <<<
        }
    }
}

impl From<DeviceFault> for ImageFault {
    ghost from_gives = { λ _ fault. fault ≡ faults.DeviceFault };

    fn from(_: DeviceFault) -> ImageFault {
        ImageFault::DeviceFault
    }
}

impl From<AllocError> for ImageFault {
    ghost from_gives = { λ _ fault. fault ≡ faults.NoMemory };

    fn from(_: AllocError) -> ImageFault {
        ImageFault::NoMemory
    }
}

impl<T: Drop> From<AllocFailed<T>> for ImageFault {
    ghost from_gives = { λ _ fault. fault ≡ faults.NoMemory };

    fn from(_: AllocFailed<T>) -> ImageFault {
        ImageFault::NoMemory
    }
}
