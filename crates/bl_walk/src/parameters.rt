//! What boot parameters show a Linux kernel.
ghost use Rattle.std.specs.Prelude.{◌≡◌, ◌-◌, true};
ghost use Rattle.bl_load.specs.Protocols.{has_params};
ghost use Rattle.bl_walk.specs.Seen.{HasParameters, IsLine, IsInitrd, IsSeen};
ghost use Rattle.bl_walk.specs.internal.Walking.{FindsOrFaults};

use crate::fault::WalkFault;
use crate::followed_bytes::{follow, text_to_zero};
use crate::part_bytes::rest_at;
use crate::seen::{Seen, SeenFile};
use crate::seen_firmware::SeenFirmware;
use bl_image::Image;
use bl_mem::Bytes;
use bl_params::{PARAMS_SIZE, Params, read_params};
use std::alloc::Allocator;

/// What the boot parameters say.
fn parameters<A: Allocator + Copy>(alloc: A, image: &Image<A>) -> Result<Params<A>, WalkFault>
    requires { has_params image.now.protocol ≡ true }
    ensures { FindsOrFaults image.now (HasParameters image.now) result }
{
    let bytes = follow(image, image.registers().params(), PARAMS_SIZE as u32)?;
    Ok(read_params(alloc, bytes)?)
}

/// The line, up to its zero.
fn line<A: Allocator + Copy>(
    alloc: A,
    image: &Image<A>,
    params: &Params<A>,
) -> Result<Bytes<A>, WalkFault>
    requires { HasParameters image.now params.now }
    ensures { FindsOrFaults image.now (IsLine image.now.parts params.now.cmd_line_ptr) result }
{
    let Some(rest) = rest_at(image, params.cmd_line_ptr as u64) else {
        return Err(WalkFault::OutsideImage);
    };
    match text_to_zero(rest) {
        Some(text) => Ok(Bytes::copy(alloc, text)?),
        None => Err(WalkFault::BadInfo),
    }
}

/// The initial ramdisk, if it has a byte.
fn initrd<'a, A: Allocator>(
    image: &'a Image<A>,
    params: &Params<A>,
) -> Result<Option<SeenFile<'a>>, WalkFault>
    requires { HasParameters image.now params.now }
    ensures { FindsOrFaults image.now (IsInitrd image.now.parts params.now) result }
{
    if params.ramdisk_size == 0 {
        return Ok(None);
    }
    let bytes = follow(image, params.ramdisk_image as u64, params.ramdisk_size)?;
    Ok(Some(SeenFile {
        address: params.ramdisk_image,
        bytes,
    }))
}

/// What the boot parameters show.
pub(crate) fn shown_by_parameters<'a, A: Allocator + Copy>(
    alloc: A,
    image: &'a Image<A>,
) -> Result<Seen<'a, A>, WalkFault>
    requires { has_params image.now.protocol ≡ true }
    ensures { FindsOrFaults image.now (IsSeen image.now) result }
{
    let params = parameters(alloc, image)?;
    let line = line(alloc, image, &params)?;
    let initrd = initrd(image, &params)?;
    let firmware = SeenFirmware {
        screen: params.screen,
        rsdp: params.rsdp,
        efi_info: params.efi,
        efi_tables: None,
        smbios: None,
    };
    let mut seen = Seen::new(alloc, image, line, params.runs, firmware)?;
    seen.initrd = initrd;
    Ok(seen)
}
