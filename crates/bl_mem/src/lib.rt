//! Where bytes come from and where they go: memory by address, and files by offset.
#![tactic(auto)]

mod byte_view;
mod byte_writer;
mod bytes;
mod file_set;
mod flat;
mod frame_room;
mod frame_state;
mod little_endian;
mod memory;
mod segment;
mod slice_memory;
mod sparse;
mod sparse_frames;

pub use byte_view::{ByteView, SliceView};
pub use byte_writer::{put_bytes, put_u32, put_u64, write_u32s, write_u64s};
pub use bytes::Bytes;
pub use file_set::{FileSet, Views};
pub use flat::Flat;
pub use little_endian::{u8_at, u16_at, u32_at, u64_at};
pub use memory::PhysMem;
pub use segment::Segment;
pub use slice_memory::SliceMemory;
pub use sparse::Sparse;
