//! What C is told of a walk. A word that is reserved is 0.
use bl_image::ImageFault;
use bl_walk::WalkFault;

/// Bytes of a text, from an offset on.
#[repr(C)]
#[derive(Clone, Copy)]
pub struct ByteRange {
    pub offset: u64,
    pub length: u64,
}

/// The offset of a copy of an RSDP that is not there.
pub const MISSING: u64 = u64::MAX;

/// What a kernel sees in an image: the number of its protocol, how many parts the kernel has, how
/// many modules and runs of memory it is told of, where it is entered, how long its line is, and
/// where its initial ramdisk lies, with a length of 0 for none.
///
/// Its text is its line, the modules' lines in order, the old copy of the RSDP and the new one, one
/// after the other: how long it is, and which range of it each copy is. Of a copy that is not there
/// the offset is `MISSING`, and the length 0.
#[repr(C)]
#[derive(Clone, Copy)]
pub struct SeenRecord {
    pub protocol: u32,
    pub reserved32: u32,
    pub kernel_parts: u64,
    pub modules: u64,
    pub runs: u64,
    pub entry: u64,
    pub line_length: u64,
    pub initrd: u64,
    pub initrd_length: u64,
    pub text_length: u64,
    pub rsdp_old: ByteRange,
    pub rsdp_new: ByteRange,
    pub reserved: [u64; 4],
}

/// A part of the kernel that is seen: the address of its first byte, and its length.
#[repr(C)]
#[derive(Clone, Copy)]
pub struct SeenPartRecord {
    pub address: u64,
    pub length: u64,
    pub reserved: u64,
}

/// A module that is seen: the address of its first byte, its length, and its line as a range of the
/// text.
#[repr(C)]
#[derive(Clone, Copy)]
pub struct SeenModuleRecord {
    pub address: u64,
    pub length: u64,
    pub line: ByteRange,
    pub reserved: u64,
}

/// Why nothing is seen: the bytes are no image, or a kernel can't be entered with it.
#[derive(Clone, Copy)]
pub enum WalkStop {
    NoImage(ImageFault),
    NotWalked(WalkFault),
}
