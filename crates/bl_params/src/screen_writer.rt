//! The screen in boot parameters, as bytes.
ghost use Rattle.std.specs.Prelude.{◌≡◌};
ghost use Rattle.bl_params.specs.ScreenInfo as spec;

use crate::number_bytes::{HALF, four_bytes, product, two_bytes};
use crate::screen_fields::{BASE_64BIT, SKIP_QUIRKS, VIDEO_TYPE_EFI};
use bl_map::Screen;

/// The capabilities of a frame buffer whose address has this high half.
pub fn capabilities(ext_lfb_base: u64) -> u64
    ensures { result ≡ spec.capabilities ext_lfb_base }
{
    if ext_lfb_base == 0 {
        return SKIP_QUIRKS;
    }
    SKIP_QUIRKS + BASE_64BIT
}

/// The struct of a screen.
fn told_screen_info(screen: &Screen) -> [u8; 64]
    ensures { result ≡ spec.screen_info (Some screen.now) }
{
    let width = two_bytes(screen.width);
    let height = two_bytes(screen.height);
    let depth = two_bytes(screen.depth as u32);
    let base = four_bytes(screen.base % HALF);
    let size = four_bytes(product(screen.pitch, screen.height));
    let line = two_bytes(screen.pitch);
    let high = screen.base / HALF;
    let able = four_bytes(capabilities(high));
    let ext = four_bytes(high);
    let red = screen.red;
    let green = screen.green;
    let blue = screen.blue;
    [
        // orig_x to orig_video_lines
        0,
        0,
        0,
        0,
        0,
        0,
        0,
        0,
        0,
        0,
        0,
        0,
        0,
        0,
        0,
        // orig_video_isVGA
        VIDEO_TYPE_EFI,
        // orig_video_points
        0,
        0,
        // lfb_width
        width[0],
        width[1],
        // lfb_height
        height[0],
        height[1],
        // lfb_depth
        depth[0],
        depth[1],
        // lfb_base
        base[0],
        base[1],
        base[2],
        base[3],
        // lfb_size
        size[0],
        size[1],
        size[2],
        size[3],
        // cl_magic, cl_offset
        0,
        0,
        0,
        0,
        // lfb_linelength
        line[0],
        line[1],
        // red_size, red_pos
        red.size,
        red.position,
        // green_size, green_pos
        green.size,
        green.position,
        // blue_size, blue_pos
        blue.size,
        blue.position,
        // rsvd_size, rsvd_pos, vesapm_seg, vesapm_off
        0,
        0,
        0,
        0,
        0,
        0,
        // pages
        1,
        0,
        // vesa_attributes
        0,
        0,
        // capabilities
        able[0],
        able[1],
        able[2],
        able[3],
        // ext_lfb_base
        ext[0],
        ext[1],
        ext[2],
        ext[3],
        // _reserved
        0,
        0,
    ]
}

/// The `struct screen_info` of a screen, or of none (linux/screen_info.h).
#[tactic(auto, unfolding(crate::specs::ScreenInfo::screen_info))]
pub fn screen_info(screen: Option<Screen>) -> [u8; 64]
    ensures { result ≡ spec.screen_info screen }
{
    match screen {
        None => [0; 64],
        Some(screen) => told_screen_info(&screen),
    }
}
