//! What C is told of a part that finds no place.

/// A part that finds no place: the number of its role, its index among those of its role, its
/// length, and how its address is chosen. `choice` is 1, `address` alone; 2, the least permitted
/// address; 3, the greatest; 4, `address` if it is permitted, and else the least. An address is
/// permitted that is a multiple of `alignment` from `low` on, if the part ends at most at `high`.
/// What the choice says nothing of is 0. A length above 4 GiB is told as 2^64 - 1. If each part has
/// its place, all is 0. `reserved` is 0.
#[repr(C)]
#[derive(Clone, Copy)]
pub struct UnplacedRecord {
    pub role: u32,
    pub index: u32,
    pub length: u64,
    pub alignment: u64,
    pub low: u64,
    pub high: u64,
    pub address: u64,
    pub choice: u32,
    pub reserved: u32,
}
