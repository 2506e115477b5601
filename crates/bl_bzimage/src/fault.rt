//! Why a kernel's file is refused.
use thiserror::Error;

/// Why a file is refused: its first fault, in the order of these lines.
///
/// - `NotBzImage`: fewer than 1024 bytes, `boot_flag` is not 0xAA55, or the bytes `HdrS` do not
///   stand at 0x202.
/// - `OldProtocol`: `version` is below 2.10.
/// - `NotHigh`: bit 0 of `loadflags` (`LOADED_HIGH`) is clear: a zImage, whose payload is loaded at
///   0x10000.
/// - `SetupCut`: the header ends before `init_size` does, or the file ends with its setup, so that
///   there is no payload.
/// - `BadAlign`: the kernel is relocatable, and `kernel_alignment` is no power of two (own: the
///   boot protocol does not ask for one).
/// - `BadPreferred`: the kernel is not relocatable, and `pref_address` is below 1 MiB or above 32
///   bits.
#[derive(Clone, Copy, Debug, PartialEq, Eq, Error)]
pub enum SetupFault {
    #[error("not a bzImage")]
    NotBzImage,
    #[error("old boot protocol")]
    OldProtocol,
    #[error("not loaded high")]
    NotHigh,
    #[error("setup is cut")]
    SetupCut,
    #[error("bad alignment")]
    BadAlign,
    #[error("bad preferred address")]
    BadPreferred,
}
