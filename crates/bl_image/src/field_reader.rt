//! Fields of an image, read one after the other.
ghost use Rattle.std.specs.Prelude.{◌≡◌, ◌*◌, ◌<◌, ◌^◌, length, All, IfOk, OnOk};
ghost use Rattle.std.specs.List.{flat_map};
ghost use Rattle.bl_mem.specs.LittleEndian.{u32_bytes, u64_bytes};
ghost use Rattle.bl_image.specs.internal.SourceReading.{ReadsBytes};

use crate::fault::ImageFault;
use crate::source::{Source, fill};

/// Fills `out`; an input that ends before has the wrong length.
pub(crate) fn read_exact<S: Source>(source: &mut S, out: &mut [u8]) -> Result<(), ImageFault>
    requires { S.faults source.old < 2 ^ 63 }
    ensures { ReadsBytes S.input S.faults source.old source.new (length out.new)
        (λ _. out.new) result }
{
    if fill(source, out)? < out.len() {
        return Err(ImageFault::WrongLength);
    }
    Ok(())
}

/// The number that these bytes spell, the lowest first.
#[tactic(auto, unfolding(bl_mem::specs::LittleEndian::u32_bytes))]
fn u32_of(field: [u8; 4]) -> u32
    ensures { u32_bytes result ≡ field }
{
    u32::from_le_bytes(field)
}

/// The number that these bytes spell, the lowest first.
#[tactic(auto, unfolding(bl_mem::specs::LittleEndian::u64_bytes))]
fn u64_of(field: [u8; 8]) -> u64
    ensures { u64_bytes result ≡ field }
{
    u64::from_le_bytes(field)
}

/// Reads a number of 32 bits.
pub(crate) fn read_u32<S: Source>(source: &mut S) -> Result<u32, ImageFault>
    requires { S.faults source.old < 2 ^ 63 }
    ensures read { ReadsBytes S.input S.faults source.old source.new 4 u32_bytes result }
    ensures fits { IfOk result (λ n. n < 2 ^ 32) }
{
    let mut field = [0u8; 4];
    read_exact(source, &mut field)?;
    Ok(u32_of(field))
}

/// Reads a number of 64 bits.
pub(crate) fn read_u64<S: Source>(source: &mut S) -> Result<u64, ImageFault>
    requires { S.faults source.old < 2 ^ 63 }
    ensures read { ReadsBytes S.input S.faults source.old source.new 8 u64_bytes result }
    ensures fits { IfOk result (λ n. n < 2 ^ 64) }
{
    let mut field = [0u8; 8];
    read_exact(source, &mut field)?;
    Ok(u64_of(field))
}

/// Reads as many numbers of 32 bits as `out` holds.
pub(crate) fn read_u32s<S: Source>(source: &mut S, out: &mut [u32]) -> Result<(), ImageFault>
    requires { S.faults source.old < 2 ^ 63 }
    ensures read { ReadsBytes S.input S.faults source.old source.new (4 * length out.new)
        (λ _. flat_map u32_bytes out.new) result }
    ensures fit { OnOk result (All (λ n. n < 2 ^ 32) out.new) }
{
    for i in 0..out.len() {
        out[i] = read_u32(source)?;
    }
    Ok(())
}

/// Reads as many numbers of 64 bits as `out` holds.
pub(crate) fn read_u64s<S: Source>(source: &mut S, out: &mut [u64]) -> Result<(), ImageFault>
    requires { S.faults source.old < 2 ^ 63 }
    ensures read { ReadsBytes S.input S.faults source.old source.new (8 * length out.new)
        (λ _. flat_map u64_bytes out.new) result }
    ensures fit { OnOk result (All (λ n. n < 2 ^ 64) out.new) }
{
    for i in 0..out.len() {
        out[i] = read_u64(source)?;
    }
    Ok(())
}
