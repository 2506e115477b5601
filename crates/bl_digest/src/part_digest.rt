//! The digest of a part.
use bl_plan::Place;

/// Where a part lies, and the SHA-256 of its bytes.
#[derive(Clone, Copy, Debug, PartialEq, Eq)]
pub struct PartDigest {
    pub place: Place,
    pub sha256: [u8; 32],
}
