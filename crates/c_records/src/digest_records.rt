//! What C is told of digests, as plain records. A word that is `reserved` is 0.
use crate::end_records::PlaceRecord;

/// Bytes of a file: `length` of them from `offset` on, of the entry's file with this place.
#[repr(C)]
#[derive(Clone, Copy)]
pub struct FileRangeRecord {
    pub file: u64,
    pub offset: u64,
    pub length: u64,
    pub reserved: u64,
}

/// A part, and the SHA-256 of its bytes.
#[repr(C)]
#[derive(Clone, Copy)]
pub struct PartDigestRecord {
    pub place: PlaceRecord,
    pub sha256: [u8; 32],
    pub reserved: u64,
}

/// How long an image is, and what stands before its parts; the SHA-256 of both; how many parts it
/// has.
#[repr(C)]
#[derive(Clone, Copy)]
pub struct DigestsRecord {
    pub image_length: u64,
    pub head_length: u64,
    pub image_sha256: [u8; 32],
    pub head_sha256: [u8; 32],
    pub parts: u64,
    pub reserved: [u64; 4],
}
