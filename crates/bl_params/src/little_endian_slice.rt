//! Numbers in a slice, the lowest byte first.
ghost use Rattle.std.specs.Prelude.{◌≡◌, ◌≤◌, ◌+◌, length};
ghost use Rattle.bl_mem.specs.LittleEndian as little_endian;

use bl_mem::{SliceView, u16_at, u32_at, u64_at};

/// The number in the 2 bytes from offset `at` on.
pub fn u16_in(bytes: &[u8], at: usize) -> u16
    requires { at + 2 ≤ length bytes.now }
    ensures { result ≡ little_endian.u16_at bytes.now at }
{
    u16_at(&SliceView::new(bytes), at as u64)
}

/// The number in the 4 bytes from offset `at` on.
pub fn u32_in(bytes: &[u8], at: usize) -> u32
    requires { at + 4 ≤ length bytes.now }
    ensures { result ≡ little_endian.u32_at bytes.now at }
{
    u32_at(&SliceView::new(bytes), at as u64)
}

/// The number in the 8 bytes from offset `at` on.
pub fn u64_in(bytes: &[u8], at: usize) -> u64
    requires { at + 8 ≤ length bytes.now }
    ensures { result ≡ little_endian.u64_at bytes.now at }
{
    u64_at(&SliceView::new(bytes), at as u64)
}
