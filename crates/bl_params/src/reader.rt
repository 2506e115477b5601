//! Boot parameters, read back.
ghost use Rattle.std.specs.Prelude.{◌+◌, ◌*◌, IfOk, IfErr};
ghost use Rattle.bl_params.specs.Reading.{IsParams, HasFirstParamFault};

use crate::efi_reader::efi_of;
use crate::fault::ParamFault;
use crate::fields::{
    CMD_LINE_PTR, CMDLINE_SIZE, CODE32_START, E820_ENTRIES, E820_TABLE, ENTRY_SIZE, INIT_SIZE,
    INITRD_ADDR_MAX, KERNEL_ALIGNMENT, LOADFLAGS, PARAMS_SIZE, PREF_ADDRESS, RAMDISK_IMAGE,
    RAMDISK_SIZE, RELOCATABLE_KERNEL, VERSION, XLOADFLAGS,
};
use crate::form_checks::{end_of_header, pass_before_header, pass_header, pass_zeros};
use crate::front_reader::rsdp_of;
use crate::little_endian_slice::{u16_in, u32_in, u64_in};
use crate::map_reader::entries;
use crate::params::Params;
use crate::screen_reader::screen_of;
use std::alloc::Allocator;

/// Reads boot parameters of the form that `write_params` gives, or answers why the bytes have not
/// that form: it accepts nothing else, and names the least offset at which they break it.
pub fn read_params<A: Allocator + Copy>(alloc: A, bytes: &[u8]) -> Result<Params<A>, ParamFault>
    ensures read { IfOk result (λ params. IsParams bytes.now params) }
    ensures first_fault { IfErr result (λ fault. HasFirstParamFault bytes.now fault) }
{
    if bytes.len() != PARAMS_SIZE {
        return Err(ParamFault::WrongLength);
    }
    pass_before_header(bytes)?;
    pass_header(bytes)?;
    pass_zeros(bytes, end_of_header(bytes), E820_TABLE)?;
    let runs = entries(alloc, bytes)?;
    let count = bytes[E820_ENTRIES] as usize;
    pass_zeros(bytes, E820_TABLE + ENTRY_SIZE * count, PARAMS_SIZE)?;
    Ok(Params {
        version: u16_in(bytes, VERSION),
        loadflags: bytes[LOADFLAGS],
        code32_start: u32_in(bytes, CODE32_START),
        ramdisk_image: u32_in(bytes, RAMDISK_IMAGE),
        ramdisk_size: u32_in(bytes, RAMDISK_SIZE),
        cmd_line_ptr: u32_in(bytes, CMD_LINE_PTR),
        initrd_addr_max: u32_in(bytes, INITRD_ADDR_MAX),
        kernel_alignment: u32_in(bytes, KERNEL_ALIGNMENT),
        relocatable_kernel: bytes[RELOCATABLE_KERNEL],
        xloadflags: u16_in(bytes, XLOADFLAGS),
        cmdline_size: u32_in(bytes, CMDLINE_SIZE),
        pref_address: u64_in(bytes, PREF_ADDRESS),
        init_size: u32_in(bytes, INIT_SIZE),
        runs,
        screen: screen_of(bytes),
        rsdp: rsdp_of(bytes),
        efi: efi_of(bytes),
    })
}
