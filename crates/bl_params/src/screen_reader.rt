//! The screen in boot parameters: its form, and what is told.
ghost use Rattle.std.specs.Prelude.{◌≡◌, ◌<◌, ◌*◌, ◌+◌, ◌&&◌, nat_le, nat_lt, length, slice_index};
ghost use Rattle.bl_mem.specs.LittleEndian as little_endian;
ghost use Rattle.bl_map.specs.FirmwareLimits as limits;
ghost use Rattle.bl_params.specs.FieldBytes.{is_nonzero_at};
ghost use Rattle.bl_params.specs.ScreenInfo as spec;
ghost use Rattle.bl_params.specs.SizesAndOffsets.{params_size};

use crate::little_endian_slice::{u16_in, u32_in};
use crate::number_bytes::{HALF, product};
use crate::screen_fields::{
    BLUE_POS, BLUE_SIZE, CAPABILITIES, EXT_LFB_BASE, GREEN_POS, GREEN_SIZE, LFB_BASE, LFB_DEPTH,
    LFB_HEIGHT, LFB_LINELENGTH, LFB_SIZE, LFB_WIDTH, ONE_PAGE, ORIG_VIDEO_IS_VGA, PAGES, RED_POS,
    RED_SIZE, VIDEO_TYPE_EFI,
};
use crate::screen_writer::capabilities;
use bl_map::{ColorField, MAX_REGION_END, Screen};

fn is_told(number: u16) -> bool
    ensures { result ≡ limits.is_told_u16 number }
{
    let number = number as u32;
    1 <= number && number <= 0xFFFF
}

fn is_depth(depth: u16) -> bool
    ensures { result ≡ limits.is_depth depth }
{
    depth == 15 || depth == 16 || depth == 24 || depth == 32
}

/// Whether a line's pixels fit into its bytes, of which there are some.
fn has_pitch(pitch: u16, width: u16, depth: u16) -> bool
    ensures { result ≡ (limits.is_told_u16 pitch
        && nat_le (width * limits.pixel_bytes depth) pitch) }
{
    if !is_told(pitch) {
        return false;
    }
    product(width as u32, (depth as u32 + 7) / 8) <= pitch as u64
}

/// Whether a colour's bits lie in the pixel.
fn fits_depth(depth: u16, position: u8, size: u8) -> bool
    ensures { result ≡ nat_le (position + size) depth }
{
    position as u16 + size as u16 <= depth
}

fn base_in(bytes: &[u8]) -> u64
    requires { length bytes.now ≡ params_size }
    ensures { result ≡ (spec.screen_in bytes.now).base }
{
    u32_in(bytes, LFB_BASE) as u64 + HALF * u32_in(bytes, EXT_LFB_BASE) as u64
}

/// Whether the screen's memory has an address, and ends at 2^52 at most.
fn is_placed(bytes: &[u8]) -> bool
    requires { length bytes.now ≡ params_size }
    ensures { result ≡ limits.is_screen_placed (spec.screen_in bytes.now) }
{
    let base = base_in(bytes);
    let pitch = u16_in(bytes, LFB_LINELENGTH) as u32;
    let size = product(pitch, u16_in(bytes, LFB_HEIGHT) as u32);
    1 <= base && base as u128 + size as u128 <= MAX_REGION_END as u128
}

/// Whether an offset is a byte of the fields that are not told.
fn is_untold(at: usize) -> bool
    ensures { result ≡ spec.is_untold_in_screen at }
{
    at < 0x0F
        || (0x10 <= at && at < 0x12)
        || (0x20 <= at && at < 0x24)
        || (0x2C <= at && at < 0x32)
        || (0x34 <= at && at < 0x36)
        || 0x3E <= at
}

/// Whether a byte of the fields that are not told is not 0.
fn breaks_untold(bytes: &[u8], at: usize) -> bool
    requires { at < length bytes.now }
    ensures { result ≡ (spec.is_untold_in_screen at && is_nonzero_at bytes.now at) }
{
    if !is_untold(at) {
        return false;
    }
    bytes[at] != 0
}

/// Whether what stands at an offset breaks the limits of the screen that is told.
fn breaks_screen(bytes: &[u8], at: usize) -> bool
    requires whole { length bytes.now ≡ params_size }
    requires within { at < 0x40 }
    ensures { result ≡ spec.breaks_screen (spec.screen_in bytes.now) bytes.now at }
{
    let depth = u16_in(bytes, LFB_DEPTH);
    match at {
        LFB_WIDTH => !is_told(u16_in(bytes, LFB_WIDTH)),
        LFB_HEIGHT => !is_told(u16_in(bytes, LFB_HEIGHT)),
        LFB_DEPTH => !is_depth(depth),
        LFB_SIZE => {
            let pitch = u16_in(bytes, LFB_LINELENGTH) as u32;
            let size = product(pitch, u16_in(bytes, LFB_HEIGHT) as u32);
            u32_in(bytes, LFB_SIZE) as u64 != size
        }
        LFB_LINELENGTH => {
            let pitch = u16_in(bytes, LFB_LINELENGTH);
            !has_pitch(pitch, u16_in(bytes, LFB_WIDTH), depth)
        }
        RED_POS => !fits_depth(depth, bytes[RED_POS], bytes[RED_SIZE]),
        GREEN_POS => !fits_depth(depth, bytes[GREEN_POS], bytes[GREEN_SIZE]),
        BLUE_POS => !fits_depth(depth, bytes[BLUE_POS], bytes[BLUE_SIZE]),
        PAGES => u16_in(bytes, PAGES) != ONE_PAGE,
        CAPABILITIES => {
            let ext_lfb_base = u32_in(bytes, EXT_LFB_BASE) as u64;
            u32_in(bytes, CAPABILITIES) as u64 != capabilities(ext_lfb_base)
        }
        EXT_LFB_BASE => !is_placed(bytes),
        _ => breaks_untold(bytes, at),
    }
}

/// Whether what stands at an offset of the struct breaks its form.
#[tactic(auto, unfolding(crate::specs::ScreenInfo::breaks_screen_info))]
pub fn breaks_screen_info(bytes: &[u8], at: usize) -> bool
    requires whole { length bytes.now ≡ params_size }
    requires within { at < 0x40 }
    ensures { result ≡ spec.breaks_screen_info bytes.now at }
{
    if bytes[ORIG_VIDEO_IS_VGA] == VIDEO_TYPE_EFI {
        return breaks_screen(bytes, at);
    }
    bytes[at] != 0
}

fn color_in(bytes: &[u8], position: usize, size: usize) -> ColorField
    requires position_in { position < length bytes.now }
    requires size_in { size < length bytes.now }
    ensures position { result.position ≡ slice_index bytes.now position }
    ensures size { result.size ≡ slice_index bytes.now size }
{
    ColorField {
        position: bytes[position],
        size: bytes[size],
    }
}

/// The screen that is told.
#[tactic(auto, unfolding(crate::specs::ScreenInfo::screen_of))]
pub fn screen_of(bytes: &[u8]) -> Option<Screen>
    requires whole { length bytes.now ≡ params_size }
    requires shallow { slice_index bytes.now 0x0F ≡ 0x70
        → little_endian.u16_at bytes.now 0x16 < 256 }
    ensures { result ≡ spec.screen_of bytes.now }
{
    if bytes[ORIG_VIDEO_IS_VGA] != VIDEO_TYPE_EFI {
        return None;
    }
    Some(Screen {
        base: base_in(bytes),
        pitch: u16_in(bytes, LFB_LINELENGTH) as u32,
        width: u16_in(bytes, LFB_WIDTH) as u32,
        height: u16_in(bytes, LFB_HEIGHT) as u32,
        depth: u16_in(bytes, LFB_DEPTH) as u8,
        red: color_in(bytes, RED_POS, RED_SIZE),
        green: color_in(bytes, GREEN_POS, GREEN_SIZE),
        blue: color_in(bytes, BLUE_POS, BLUE_SIZE),
    })
}
