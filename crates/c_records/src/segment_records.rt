//! What C is told of segment registers, as a plain record.

/// A segment register whole: its selector, and the fields of its descriptor, with `type` as
/// `segment_type`. `limit` is the offset of its last byte, in bytes. A flag is 1 if it is set.
#[repr(C)]
#[derive(Clone, Copy)]
pub struct SegmentRecord {
    pub base: u64,
    pub limit: u32,
    pub selector: u16,
    pub segment_type: u8,
    pub s: u8,
    pub dpl: u8,
    pub p: u8,
    pub avl: u8,
    pub l: u8,
    pub db: u8,
    pub g: u8,
    pub reserved: u16,
}
