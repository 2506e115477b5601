//! What is read of a kernel's file.
ghost use Rattle.std.specs.Prelude.{◌≡◌, ◌≤◌, ◌<◌, ◌-◌, Some, length, IfOk, IfErr};
ghost use Rattle.bl_bzimage.specs.Setup.{IsSetup, payload_at, setup_fault, setup_of};

use crate::checks::{
    end_of_header, has_sound_alignment, has_sound_pref_address, is_bz_image, is_loaded_high,
    is_whole, start_of_payload,
};
use crate::fault::SetupFault;
use crate::fields::{
    CMDLINE_SIZE, INIT_SIZE, INITRD_ADDR_MAX, KERNEL_ALIGNMENT, LOADFLAGS, MIN_VERSION,
    PREF_ADDRESS, RELOCATABLE_KERNEL, SETUP_SECTS, VERSION, XLOADFLAGS,
};
use crate::setup_header_bytes::{SetupHeaderBytes, header_upto};
use bl_mem::{ByteView, u8_at, u16_at, u32_at, u64_at};

/// The fields of a setup header that loading needs, by the boot protocol's names (Linux/x86 Boot
/// Protocol, "Details of Header Fields"), the header's bytes, which are copied for the kernel, and
/// where the payload is in the file.
///
/// - `setup_sects`: sectors of 512 bytes, as it stands in the file, where 0 means 4.
/// - `version`: the major number times 256 and the minor, from 0x20A on.
/// - `initrd_addr_max`: the highest address that a byte of an initrd may have.
/// - `kernel_alignment`: in bytes, a power of two where `relocatable_kernel` is not 0.
/// - `xloadflags`: has a meaning from version 2.12 on.
/// - `cmdline_size`: the bytes of the longest line, its zero byte not counted.
/// - `pref_address`: where the kernel runs unless it lies elsewhere, from 0x100000 to 0xFFFFFFFF
///   where `relocatable_kernel` is 0.
/// - `init_size`: how many bytes the kernel needs from the address on at which it runs.
/// - `payload_offset`, `payload_size`: the bytes of the file that are loaded, at least one, up to
///   the file's end.
#[derive(Drop)]
pub struct Setup {
    pub setup_sects: u8,
    pub version: u16,
    pub loadflags: u8,
    pub initrd_addr_max: u32,
    pub kernel_alignment: u32,
    pub relocatable_kernel: u8,
    pub xloadflags: u16,
    pub cmdline_size: u32,
    pub pref_address: u64,
    pub init_size: u32,
    pub header: SetupHeaderBytes,
    pub payload_offset: u64,
    pub payload_size: u64,
}

#[tactic(auto, unfolding(crate::specs::Setup::setup_of))]
fn setup_of<V: ByteView>(view: &V) -> Setup
    requires long { 1024 ≤ length (V.bytes view.now) }
    requires whole { payload_at (V.bytes view.now) < length (V.bytes view.now) }
    ensures { result ≡ setup_of (V.bytes view.now) }
{
    let payload_offset = start_of_payload(view);
    Setup {
        setup_sects: u8_at(view, SETUP_SECTS),
        version: u16_at(view, VERSION),
        loadflags: u8_at(view, LOADFLAGS),
        initrd_addr_max: u32_at(view, INITRD_ADDR_MAX),
        kernel_alignment: u32_at(view, KERNEL_ALIGNMENT),
        relocatable_kernel: u8_at(view, RELOCATABLE_KERNEL),
        xloadflags: u16_at(view, XLOADFLAGS),
        cmdline_size: u32_at(view, CMDLINE_SIZE),
        pref_address: u64_at(view, PREF_ADDRESS),
        init_size: u32_at(view, INIT_SIZE),
        header: header_upto(view, end_of_header(view)),
        payload_offset,
        payload_size: view.len() - payload_offset,
    }
}

/// Reads the setup header of a kernel's file (Linux/x86 Boot Protocol, versions 2.10 to 2.12; a
/// later one is read as 2.12), or answers the first fault in the order of the checks. Takes no
/// memory.
#[tactic(auto, unfolding(crate::specs::Setup::setup_fault))]
pub fn read_setup<V: ByteView>(view: &V) -> Result<Setup, SetupFault>
    ensures ok { IfOk result (IsSetup (V.bytes view.now)) }
    ensures first_fault { IfErr result (λ fault. setup_fault (V.bytes view.now) ≡ Some fault) }
{
    if !is_bz_image(view) {
        return Err(SetupFault::NotBzImage);
    }
    if u16_at(view, VERSION) < MIN_VERSION {
        return Err(SetupFault::OldProtocol);
    }
    if !is_loaded_high(view) {
        return Err(SetupFault::NotHigh);
    }
    if !is_whole(view) {
        return Err(SetupFault::SetupCut);
    }
    if !has_sound_alignment(view) {
        return Err(SetupFault::BadAlign);
    }
    if !has_sound_pref_address(view) {
        return Err(SetupFault::BadPreferred);
    }
    Ok(setup_of(view))
}
