//! The digests of an image and of its front.

/// The length and SHA-256 of an image, and of its front: what stands before the parts' bytes, which
/// is the head, and the record of each part.
#[derive(Clone, Copy, Debug, PartialEq, Eq)]
pub struct ImageDigest {
    pub length: u64,
    pub sha256: [u8; 32],
    pub front_length: u64,
    pub front_sha256: [u8; 32],
}
