//! Bytes and numbers put down, the lowest byte of each number first.
ghost use Rattle.std.specs.Prelude.{◌≡◌, ◌≤◌, ◌<◌, ◌+◌, ◌*◌, ◌^◌, ◌++◌, length, All, vec_len};
ghost use Rattle.std.specs.Prelude.{vec_capacity};
ghost use Rattle.std.specs.List.{flat_map};
ghost use Rattle.bl_mem.specs.Memory.{overwrite};
ghost use Rattle.bl_mem.specs.LittleEndian.{u32_bytes, u64_bytes};

use byteorder::{ByteOrder, LittleEndian};
use std::alloc::Allocator;

/// Appends bytes to a vector that has room for them, and takes no memory.
pub fn put_bytes<A: Allocator>(out: &mut Vec<u8, A>, bytes: &[u8])
    requires { vec_len out.old + length bytes.now ≤ vec_capacity out.old }
    ensures items { out.new.items ≡ out.old.items ++ bytes.now }
    ensures len { vec_len out.new ≡ vec_len out.old + length bytes.now }
    ensures capacity { vec_capacity out.old ≤ vec_capacity out.new }
{
    out.extend_from_slice(bytes).unwrap();
}

/// Puts bytes over those of a vector from `start` on.
pub(crate) fn put_at<A: Allocator>(out: &mut Vec<u8, A>, start: usize, bytes: &[u8])
    requires { start + length bytes.now ≤ vec_len out.old }
    ensures items { out.new.items ≡ overwrite out.old.items start bytes.now }
    ensures len { vec_len out.new ≡ vec_len out.old }
    ensures capacity { vec_capacity out.new ≡ vec_capacity out.old }
{
    out[start..start + bytes.len()].copy_from_slice(bytes);
}

/// Appends the 4 bytes of a number to a vector that has room for them, and takes no memory.
#[tactic(auto, unfolding(crate::specs::LittleEndian::u32_bytes))]
pub fn put_u32<A: Allocator>(out: &mut Vec<u8, A>, n: u32)
    requires { vec_len out.old + 4 ≤ vec_capacity out.old }
    ensures items { out.new.items ≡ out.old.items ++ u32_bytes n }
    ensures len { vec_len out.new ≡ vec_len out.old + 4 }
    ensures capacity { vec_capacity out.old ≤ vec_capacity out.new }
{
    put_bytes(out, &n.to_le_bytes());
}

/// Appends the 8 bytes of a number to a vector that has room for them, and takes no memory.
#[tactic(auto, unfolding(crate::specs::LittleEndian::u64_bytes))]
pub fn put_u64<A: Allocator>(out: &mut Vec<u8, A>, n: u64)
    requires { vec_len out.old + 8 ≤ vec_capacity out.old }
    ensures items { out.new.items ≡ out.old.items ++ u64_bytes n }
    ensures len { vec_len out.new ≡ vec_len out.old + 8 }
    ensures capacity { vec_capacity out.old ≤ vec_capacity out.new }
{
    put_bytes(out, &n.to_le_bytes());
}

/// Fills a slice with the bytes of numbers, 4 for each.
#[tactic(auto, unfolding(crate::specs::LittleEndian::u32_bytes))]
pub fn write_u32s(numbers: &[u32], out: &mut [u8])
    requires { length out.old ≡ 4 * length numbers.now }
    ensures bytes { out.new ≡ flat_map u32_bytes numbers.now }
    ensures fit { All (λ n. n < 2 ^ 32) numbers.now }
{
    LittleEndian::write_u32_into(numbers, out);
}

/// Fills a slice with the bytes of numbers, 8 for each.
#[tactic(auto, unfolding(crate::specs::LittleEndian::u64_bytes))]
pub fn write_u64s(numbers: &[u64], out: &mut [u8])
    requires { length out.old ≡ 8 * length numbers.now }
    ensures bytes { out.new ≡ flat_map u64_bytes numbers.now }
    ensures fit { All (λ n. n < 2 ^ 64) numbers.now }
{
    LittleEndian::write_u64_into(numbers, out);
}
