//! The checks of a setup header, one small function each.
ghost use Rattle.std.specs.Prelude.{◌≡◌, ◌≤◌, length};
ghost use Rattle.bl_bzimage.specs.Setup as spec;

use crate::fields::{
    BOOT_FLAG, BOOT_FLAG_MAGIC, DEFAULT_SETUP_SECTS, HEADER, HEADER_MAGIC, JUMP_DISPLACEMENT,
    KERNEL_ALIGNMENT, LOADED_HIGH, LOADFLAGS, MAX_END, MAX_PREF_ADDRESS, MIN_END, MIN_FILE,
    MIN_PREF_ADDRESS, PREF_ADDRESS, RELOCATABLE_KERNEL, SECTOR, SETUP_SECTS,
};
use bl_mem::{ByteView, u8_at, u16_at, u32_at, u64_at};

/// Where the header ends.
pub fn end_of_header<V: ByteView>(view: &V) -> u64
    requires { MIN_FILE ≤ length (V.bytes view.now) }
    ensures { result ≡ spec.header_end (V.bytes view.now) }
{
    (HEADER + u8_at(view, JUMP_DISPLACEMENT) as u64).min(MAX_END)
}

/// Where the payload begins.
pub fn start_of_payload<V: ByteView>(view: &V) -> u64
    requires { MIN_FILE ≤ length (V.bytes view.now) }
    ensures { result ≡ spec.payload_at (V.bytes view.now) }
{
    let setup_sects = u8_at(view, SETUP_SECTS);
    let sectors = if setup_sects == 0 {
        DEFAULT_SETUP_SECTS
    } else {
        setup_sects
    };
    (sectors as u64 + 1) * SECTOR
}

/// Whether a file is long enough for a header, and has its two magic numbers.
pub fn is_bz_image<V: ByteView>(view: &V) -> bool
    ensures { result ≡ spec.is_bz_image (V.bytes view.now) }
{
    if view.len() < MIN_FILE {
        return false;
    }
    if u16_at(view, BOOT_FLAG) != BOOT_FLAG_MAGIC {
        return false;
    }
    u32_at(view, HEADER) == HEADER_MAGIC
}

/// Whether the payload is loaded at 1 MiB or above.
pub fn is_loaded_high<V: ByteView>(view: &V) -> bool
    requires { MIN_FILE ≤ length (V.bytes view.now) }
    ensures { result ≡ spec.is_loaded_high (V.bytes view.now) }
{
    u8_at(view, LOADFLAGS) & LOADED_HIGH != 0
}

/// Whether the header has each field, and the payload a byte.
pub fn is_whole<V: ByteView>(view: &V) -> bool
    requires { MIN_FILE ≤ length (V.bytes view.now) }
    ensures { result ≡ spec.is_whole (V.bytes view.now) }
{
    if end_of_header(view) < MIN_END {
        return false;
    }
    start_of_payload(view) < view.len()
}

fn is_relocatable<V: ByteView>(view: &V) -> bool
    requires { MIN_FILE ≤ length (V.bytes view.now) }
    ensures { result ≡ spec.is_relocatable (V.bytes view.now) }
{
    u8_at(view, RELOCATABLE_KERNEL) != 0
}

/// Whether the alignment of a relocatable kernel is a power of two. The boot protocol does not say
/// that it is; no other one is taken.
pub fn has_sound_alignment<V: ByteView>(view: &V) -> bool
    requires { MIN_FILE ≤ length (V.bytes view.now) }
    ensures { result ≡ spec.has_sound_alignment (V.bytes view.now) }
{
    if !is_relocatable(view) {
        return true;
    }
    u32_at(view, KERNEL_ALIGNMENT).is_power_of_two()
}

/// Whether a kernel that is not relocatable has an address that it can run at.
pub fn has_sound_pref_address<V: ByteView>(view: &V) -> bool
    requires { MIN_FILE ≤ length (V.bytes view.now) }
    ensures { result ≡ spec.has_sound_pref_address (V.bytes view.now) }
{
    if is_relocatable(view) {
        return true;
    }
    let pref_address = u64_at(view, PREF_ADDRESS);
    MIN_PREF_ADDRESS <= pref_address && pref_address <= MAX_PREF_ADDRESS
}
