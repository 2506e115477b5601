//! A screen that a kernel can draw on.
ghost use Rattle.std.specs.Prelude.{◌≡◌};
ghost use Rattle.bl_map.specs.FirmwareLimits as limits;

use crate::fault::MapFault;
use crate::limits::MAX_REGION_END;

/// Where a colour's bits lie in a pixel: the lowest one, counted from the pixel's lowest bit, and
/// how many they are.
#[derive(Clone, Copy, Debug, PartialEq, Eq)]
pub struct ColorField {
    pub position: u8,
    pub size: u8,
}

/// A frame buffer with pixels of direct colour.
///
/// - `base`: its address, not 0. It ends at 2^52 at most.
/// - `pitch`, `width`, `height`: bytes of a line, pixels of a line, lines; 1 to 65535 each. A
///   line's pixels fit into its bytes.
/// - `depth`: bits of a pixel: 15, 16, 24 or 32.
/// - `red`, `green`, `blue`: their bits lie within the depth.
#[derive(Clone, Copy, Debug, PartialEq, Eq)]
pub struct Screen {
    pub base: u64,
    pub pitch: u32,
    pub width: u32,
    pub height: u32,
    pub depth: u8,
    pub red: ColorField,
    pub green: ColorField,
    pub blue: ColorField,
}

/// Whether the number is told in 16 bits, and is not 0.
fn is_told_u16(n: u32) -> bool
    ensures { result ≡ limits.is_told_u16 n }
{
    1 <= n && n <= 0xFFFF
}

/// Whether a colour's bits lie in a pixel of so many.
fn fits_depth(depth: u8, color: ColorField) -> bool
    ensures { result ≡ limits.fits_depth depth color }
{
    u16::from(color.position) + u16::from(color.size) <= u16::from(depth)
}

/// How many bytes a pixel of so many bits takes.
fn pixel_bytes(depth: u8) -> u64
    ensures { result ≡ limits.pixel_bytes depth }
{
    (u64::from(depth) + 7) / 8
}

impl Screen {
    ghost use Rattle.std.specs.Prelude.{◌≡◌, ◌-◌, ◌*◌, ◌^◌, min};
    ghost use Rattle.bl_map.specs.FirmwareLimits as limits;

    fn has_size(&self) -> bool
        ensures { result ≡ limits.has_screen_size self.now }
    {
        let width = is_told_u16(self.width);
        let height = is_told_u16(self.height);
        let pitch = is_told_u16(self.pitch);
        width && height && pitch
    }

    fn has_depth(&self) -> bool
        ensures { result ≡ limits.is_depth self.now.depth }
    {
        self.depth == 15 || self.depth == 16 || self.depth == 24 || self.depth == 32
    }

    fn has_colors(&self) -> bool
        ensures { result ≡ limits.has_colors self.now }
    {
        let red = fits_depth(self.depth, self.red);
        let green = fits_depth(self.depth, self.green);
        let blue = fits_depth(self.depth, self.blue);
        red && green && blue
    }

    fn has_pitch(&self) -> bool
        ensures { result ≡ limits.has_pitch self.now }
    {
        u64::from(self.width).saturating_mul(pixel_bytes(self.depth)) <= u64::from(self.pitch)
    }

    /// How many bytes its lines have together.
    pub(crate) fn size(&self) -> u64
        ensures { result ≡ min (self.now.pitch * self.now.height) (2 ^ 64 - 1) }
    {
        u64::from(self.pitch).saturating_mul(u64::from(self.height))
    }

    fn is_placed(&self) -> bool
        ensures { result ≡ limits.is_screen_placed self.now }
    {
        1 <= self.base && self.base.saturating_add(self.size()) <= MAX_REGION_END
    }

    /// The first of these limits that is broken, if one is.
    /// - `BadScreenSize`: the width, the height or the pitch is not 1 to 65535.
    /// - `BadScreenDepth`: the depth is not 15, 16, 24 or 32.
    /// - `BadScreenColor`: a colour's bits do not lie within the depth.
    /// - `BadScreenPitch`: a line's pixels do not fit into its bytes.
    /// - `BadScreenPlace`: the base is 0, or the screen ends above 2^52.
    #[tactic(auto, unfolding(crate::specs::FirmwareLimits::screen_fault))]
    pub fn fault(&self) -> Option<MapFault>
        ensures { result ≡ limits.screen_fault self.now }
    {
        if !self.has_size() {
            return Some(MapFault::BadScreenSize);
        }
        if !self.has_depth() {
            return Some(MapFault::BadScreenDepth);
        }
        if !self.has_colors() {
            return Some(MapFault::BadScreenColor);
        }
        if !self.has_pitch() {
            return Some(MapFault::BadScreenPitch);
        }
        if !self.is_placed() {
            return Some(MapFault::BadScreenPlace);
        }
        None
    }
}
