//! The fields of a `struct screen_info` (linux/screen_info.h) that tell a screen. It is the front
//! of boot parameters, so that its offsets are theirs.

/// Where the struct begins.
pub const SCREEN_INFO: usize = 0x000;

/// How many bytes the struct takes.
pub const SCREEN_INFO_SIZE: usize = 0x40;

/// `orig_video_isVGA`: what kind of screen the struct tells of, 0 for none.
pub const ORIG_VIDEO_IS_VGA: usize = 0x0F;

/// `VIDEO_TYPE_EFI`: a frame buffer with an address, and no BIOS.
pub const VIDEO_TYPE_EFI: u8 = 0x70;

/// `lfb_width`: pixels of a line.
pub const LFB_WIDTH: usize = 0x12;

/// `lfb_height`: lines.
pub const LFB_HEIGHT: usize = 0x14;

/// `lfb_depth`: bits of a pixel.
pub const LFB_DEPTH: usize = 0x16;

/// `lfb_base`: the low half of the address.
pub const LFB_BASE: usize = 0x18;

/// `lfb_size`: bytes of all lines.
pub const LFB_SIZE: usize = 0x1C;

/// `lfb_linelength`: bytes of a line.
pub const LFB_LINELENGTH: usize = 0x24;

/// `red_size`: how many bits red has.
pub const RED_SIZE: usize = 0x26;

/// `red_pos`: the lowest bit of red.
pub const RED_POS: usize = 0x27;

/// `green_size`.
pub const GREEN_SIZE: usize = 0x28;

/// `green_pos`.
pub const GREEN_POS: usize = 0x29;

/// `blue_size`.
pub const BLUE_SIZE: usize = 0x2A;

/// `blue_pos`.
pub const BLUE_POS: usize = 0x2B;

/// `pages`: how many screens the memory holds.
pub const PAGES: usize = 0x32;

/// The `pages` of a frame buffer.
pub const ONE_PAGE: u16 = 1;

/// `capabilities`.
pub const CAPABILITIES: usize = 0x36;

/// `VIDEO_CAPABILITY_SKIP_QUIRKS`.
pub const SKIP_QUIRKS: u64 = 1;

/// `VIDEO_CAPABILITY_64BIT_BASE`: the address has a high half.
pub const BASE_64BIT: u64 = 2;

/// `ext_lfb_base`: the high half of the address.
pub const EXT_LFB_BASE: usize = 0x3A;
