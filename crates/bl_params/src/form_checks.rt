//! Checks of the form of boot parameters, from the first offset to where the header ends.
ghost use Rattle.std.specs.Prelude.{◌≡◌, ◌≤◌, ◌<◌, ◌+◌, ℕ, false, length};
ghost use Rattle.std.specs.Prelude.{MatchResult};
ghost use Rattle.bl_bzimage.specs.Setup.{header_end};
ghost use Rattle.bl_params.specs.BootParamsForm.{breaks_at, e820_entry_count};
ghost use Rattle.bl_params.specs.FieldBytes.{is_nonzero_at};
ghost use Rattle.bl_params.specs.Reading.{HasFirstParamFault};
ghost use Rattle.bl_params.specs.ParamsToWriteFacts.{max_e820_entries};
ghost use Rattle.bl_params.specs.internal.CheckedForm.{HasFormBelow, HasFormBetween, GoesOnTo};
ghost use Rattle.bl_params.specs.SizesAndOffsets.{params_size, e820_entries_at};

use crate::efi_fields::SECURE_BOOT;
use crate::efi_reader::breaks_secure_boot;
use crate::fault::ParamFault;
use crate::fields::{
    BOOT_FLAG, BOOT_FLAG_MAGIC, E820_ENTRIES, HEADER, HEADER_MAGIC, HEADER_START,
    JUMP_DISPLACEMENT, LOADER_UNDEFINED, MAX_E820_ENTRIES, MAX_END, MIN_END, MIN_VERSION,
    SETUP_DATA, TYPE_OF_LOADER, VERSION, VID_MODE, VID_MODE_NORMAL,
};
use crate::front_reader::breaks_front;
use crate::little_endian_slice::{u16_in, u32_in, u64_in};

/// Goes on from `at` to `next`, unless what stands at `at` breaks the form.
pub fn check_field(bytes: &[u8], at: usize, next: usize, is_broken: bool) -> Result<(), ParamFault>
    requires whole { length bytes.now ≡ params_size }
    requires within { at < params_size }
    requires upto { HasFormBelow bytes.now at }
    requires here { is_broken ≡ breaks_at bytes.now at }
    requires quiet { HasFormBetween bytes.now (at + 1) next }
    ensures { GoesOnTo bytes.now next (is_broken ≡ false) result }
{
    if is_broken {
        return Err(ParamFault::BadParams(at as u64));
    }
    Ok(())
}

/// Goes on from `start` to `end`, where each byte must be 0.
pub fn pass_zeros(bytes: &[u8], start: usize, end: usize) -> Result<(), ParamFault>
    requires whole { length bytes.now ≡ params_size }
    requires within { end ≤ params_size }
    requires forward { start ≤ end }
    requires upto { HasFormBelow bytes.now start }
    requires plain { (k : ℕ) → start ≤ k → k < end
        → breaks_at bytes.now k ≡ is_nonzero_at bytes.now k }
    ensures { MatchResult result (λ _. HasFormBelow bytes.now end) (HasFirstParamFault bytes.now) }
{
    for at in start..end {
        check_field(bytes, at, at + 1, bytes[at] != 0)?;
    }
    Ok(())
}

/// The bytes in front of `e820_entries`.
fn pass_front(bytes: &[u8]) -> Result<(), ParamFault>
    requires { length bytes.now ≡ params_size }
    ensures { MatchResult result
        (λ _. HasFormBelow bytes.now e820_entries_at) (HasFirstParamFault bytes.now) }
{
    for at in 0..E820_ENTRIES {
        check_field(bytes, at, at + 1, breaks_front(bytes, at))?;
    }
    Ok(())
}

/// Where the header ends.
pub fn end_of_header(bytes: &[u8]) -> usize
    requires { length bytes.now ≡ params_size }
    ensures exact { result ≡ header_end bytes.now }
    ensures from { 0x202 ≤ result }
    ensures within { result ≤ 0x290 }
{
    (HEADER + bytes[JUMP_DISPLACEMENT] as usize).min(MAX_END)
}

/// The bytes before the header.
pub fn pass_before_header(bytes: &[u8]) -> Result<(), ParamFault>
    requires { length bytes.now ≡ params_size }
    ensures { GoesOnTo bytes.now 0x1F1 (e820_entry_count bytes.now ≤ max_e820_entries) result }
{
    pass_front(bytes)?;
    check_field(
        bytes,
        E820_ENTRIES,
        E820_ENTRIES + 1,
        bytes[E820_ENTRIES] > MAX_E820_ENTRIES,
    )?;
    pass_zeros(bytes, E820_ENTRIES + 1, SECURE_BOOT)?;
    check_field(
        bytes,
        SECURE_BOOT,
        SECURE_BOOT + 1,
        breaks_secure_boot(bytes),
    )?;
    pass_zeros(bytes, SECURE_BOOT + 1, HEADER_START)?;
    Ok(())
}

/// The fields of the header that precede its version.
fn pass_before_version(bytes: &[u8]) -> Result<(), ParamFault>
    requires whole { length bytes.now ≡ params_size }
    requires upto { HasFormBelow bytes.now 0x1F1 }
    ensures { GoesOnTo bytes.now 0x206 (0x264 ≤ header_end bytes.now) result }
{
    check_field(
        bytes,
        VID_MODE,
        BOOT_FLAG,
        u16_in(bytes, VID_MODE) != VID_MODE_NORMAL,
    )?;
    check_field(
        bytes,
        BOOT_FLAG,
        JUMP_DISPLACEMENT,
        u16_in(bytes, BOOT_FLAG) != BOOT_FLAG_MAGIC,
    )?;
    check_field(
        bytes,
        JUMP_DISPLACEMENT,
        HEADER,
        end_of_header(bytes) < MIN_END,
    )?;
    check_field(
        bytes,
        HEADER,
        VERSION,
        u32_in(bytes, HEADER) != HEADER_MAGIC,
    )?;
    Ok(())
}

/// The fields of the header from its version on.
fn pass_from_version(bytes: &[u8]) -> Result<(), ParamFault>
    requires whole { length bytes.now ≡ params_size }
    requires long { 0x264 ≤ header_end bytes.now }
    requires upto { HasFormBelow bytes.now 0x206 }
    ensures { MatchResult result
        (λ _. HasFormBelow bytes.now (header_end bytes.now))
        (HasFirstParamFault bytes.now) }
{
    let end = end_of_header(bytes);
    check_field(
        bytes,
        VERSION,
        TYPE_OF_LOADER,
        u16_in(bytes, VERSION) < MIN_VERSION,
    )?;
    check_field(
        bytes,
        TYPE_OF_LOADER,
        SETUP_DATA,
        bytes[TYPE_OF_LOADER] != LOADER_UNDEFINED,
    )?;
    check_field(bytes, SETUP_DATA, end, u64_in(bytes, SETUP_DATA) != 0)
}

/// The header.
pub fn pass_header(bytes: &[u8]) -> Result<(), ParamFault>
    requires whole { length bytes.now ≡ params_size }
    requires upto { HasFormBelow bytes.now 0x1F1 }
    ensures { GoesOnTo bytes.now (header_end bytes.now) (0x264 ≤ header_end bytes.now) result }
{
    pass_before_version(bytes)?;
    pass_from_version(bytes)?;
    Ok(())
}
