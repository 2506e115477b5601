//! Why a walk is not told to its end.
ghost use Rattle.std.specs.Prelude.{◌≡◌};
ghost use Rattle.program_commands.specs.declared.image_walk.walk_end.WalkEnd.TheVariants as ends;
ghost use Rattle.program_commands.specs.internal.WalkEnds.{end_of_image_fault, end_of_walk_fault};

use bl_image::ImageFault;
use bl_walk::WalkFault;
use std::alloc::{AllocError, AllocFailed};

/// Why a walk is not told to its end: the image is refused, with a number; the source had a fault;
/// or memory ran out.
#[derive(Clone, Copy)]
pub enum WalkEnd {
    BadImage(u32),
    Device,
    NoMemory,
}

impl From<ImageFault> for WalkEnd {
    ghost from_gives = { λ fault end. end ≡ end_of_image_fault fault };

    fn from(fault: ImageFault) -> WalkEnd {
        match fault {
            ImageFault::BadMagic
            | ImageFault::BadVersion
            | ImageFault::BadHeader
            | ImageFault::BadPart(_)
            | ImageFault::WrongLength => WalkEnd::BadImage(fault.number()),
            ImageFault::DeviceFault => WalkEnd::Device,
            ImageFault::NoMemory => WalkEnd::NoMemory,
        }
    }
}

impl From<WalkFault> for WalkEnd {
    ghost from_gives = { λ fault end. end ≡ end_of_walk_fault fault };

    fn from(fault: WalkFault) -> WalkEnd {
        match fault {
            WalkFault::OutsideImage | WalkFault::BadInfo | WalkFault::BadState => {
                WalkEnd::BadImage(fault.number())
            }
            WalkFault::NoMemory => WalkEnd::NoMemory,
        }
    }
}

impl From<AllocError> for WalkEnd {
    ghost from_gives = { λ _ end. end ≡ ends.NoMemory };

    fn from(_: AllocError) -> WalkEnd {
        WalkEnd::NoMemory
    }
}

impl<T: Drop> From<AllocFailed<T>> for WalkEnd {
    ghost from_gives = { λ _ end. end ≡ ends.NoMemory };

    fn from(_: AllocFailed<T>) -> WalkEnd {
        WalkEnd::NoMemory
    }
}
