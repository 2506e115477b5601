//! Numbers in a file, as the machines that are booted write them: the lowest byte first.
ghost use Rattle.std.specs.Prelude.{◌≡◌, ◌≤◌, ◌+◌, length, slice_index};
ghost use Rattle.bl_mem.specs.LittleEndian as little_endian;

use crate::byte_view::ByteView;
use byteorder::{ByteOrder, LittleEndian};

/// The byte at offset `at`.
pub fn u8_at<V: ByteView>(view: &V, at: u64) -> u8
    requires { at + 1 ≤ length (V.bytes view.now) }
    ensures { result ≡ slice_index (V.bytes view.now) at }
{
    let mut field = [0u8; 1];
    view.read(at, &mut field);
    field[0]
}

/// The number in the 2 bytes from offset `at` on, the lowest first.
pub fn u16_at<V: ByteView>(view: &V, at: u64) -> u16
    requires { at + 2 ≤ length (V.bytes view.now) }
    ensures { result ≡ little_endian.u16_at (V.bytes view.now) at }
{
    let mut field = [0u8; 2];
    view.read(at, &mut field);
    LittleEndian::read_u16(&field)
}

/// The number in the 4 bytes from offset `at` on, the lowest first.
pub fn u32_at<V: ByteView>(view: &V, at: u64) -> u32
    requires { at + 4 ≤ length (V.bytes view.now) }
    ensures { result ≡ little_endian.u32_at (V.bytes view.now) at }
{
    let mut field = [0u8; 4];
    view.read(at, &mut field);
    LittleEndian::read_u32(&field)
}

/// The number in the 8 bytes from offset `at` on, the lowest first.
pub fn u64_at<V: ByteView>(view: &V, at: u64) -> u64
    requires { at + 8 ≤ length (V.bytes view.now) }
    ensures { result ≡ little_endian.u64_at (V.bytes view.now) at }
{
    let mut field = [0u8; 8];
    view.read(at, &mut field);
    LittleEndian::read_u64(&field)
}
