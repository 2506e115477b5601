//! Fields written at their offsets.
ghost use Rattle.std.specs.Prelude.{◌≤◌, ◌+◌, length};
ghost use Rattle.bl_params.specs.FieldBytes.{number_bytes};
ghost use Rattle.bl_params.specs.internal.FieldWriting.{IsWrittenAt};
ghost use Rattle.bl_params.specs.SizesAndOffsets.{params_size};

use byteorder::{ByteOrder, LittleEndian};

/// Writes a field at an offset.
#[tactic(auto, unfolding(crate::specs::FieldBytes::byte_over))]
pub fn write_field(out: &mut [u8; 4096], at: usize, field: &[u8])
    requires { at + length field.now ≤ params_size }
    ensures { IsWrittenAt at field.now out.old out.new }
{
    out[at..at + field.len()].copy_from_slice(field);
}

/// Writes a number of 2 bytes at an offset.
#[tactic(auto, unfolding(crate::specs::FieldBytes::number_bytes))]
pub fn write_u16(out: &mut [u8; 4096], at: usize, n: u16)
    requires { at + 2 ≤ params_size }
    ensures { IsWrittenAt at (number_bytes 2 n) out.old out.new }
{
    let mut field = [0u8; 2];
    LittleEndian::write_u16(&mut field, n);
    write_field(out, at, &field);
}

/// Writes a number of 4 bytes at an offset.
#[tactic(auto, unfolding(crate::specs::FieldBytes::number_bytes))]
pub fn write_u32(out: &mut [u8; 4096], at: usize, n: u32)
    requires { at + 4 ≤ params_size }
    ensures { IsWrittenAt at (number_bytes 4 n) out.old out.new }
{
    let mut field = [0u8; 4];
    LittleEndian::write_u32(&mut field, n);
    write_field(out, at, &field);
}

/// Writes a number of 8 bytes at an offset.
#[tactic(auto, unfolding(crate::specs::FieldBytes::number_bytes))]
pub fn write_u64(out: &mut [u8; 4096], at: usize, n: u64)
    requires { at + 8 ≤ params_size }
    ensures { IsWrittenAt at (number_bytes 8 n) out.old out.new }
{
    let mut field = [0u8; 8];
    LittleEndian::write_u64(&mut field, n);
    write_field(out, at, &field);
}
