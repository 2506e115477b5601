//! The versions of the format.
ghost use Rattle.std.specs.Prelude.{◌≡◌};
ghost use Rattle.bl_image.specs.Versions.{version_number};

/// A version of the format of images. An image tells its own by its number; version 2 is the one
/// that is written, and both are read.
#[derive(Clone, Copy, Debug, PartialEq, Eq)]
pub enum Version {
    /// Version 1, with 20 registers of 32 bits.
    One,

    /// Version 2, with 31 registers of 64 bits.
    Two,
}

impl Version {
    /// The version's number in an image.
    pub(crate) fn number(self) -> u32
        ensures { result ≡ version_number self }
    {
        match self {
            Version::One => 1,
            Version::Two => 2,
        }
    }
}
