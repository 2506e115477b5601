//! What boot information shows a Multiboot2 kernel.
ghost use Rattle.std.specs.Prelude.{◌≡◌, ◌-◌, ◌≤◌, IfOk};
ghost use Rattle.bl_plan.specs.declared.protocol.Protocol.TheVariants as protocol;
ghost use Rattle.bl_walk.specs.Seen.{HasTotalSize, HasInformation, IsSeen};
ghost use Rattle.bl_walk.specs.internal.Walking.{FindsOrFaults};
ghost use Rattle.bl_mbi.specs.Size.{min_info_size};

use crate::fault::WalkFault;
use crate::followed_bytes::follow;
use crate::seen::Seen;
use crate::seen_firmware::SeenFirmware;
use crate::seen_modules::modules_at;
use bl_image::Image;
use bl_mbi::{Info, MIN_INFO_SIZE, read_info};
use bl_mem::{SliceView, u32_at};
use std::alloc::Allocator;

/// How many bytes total_size takes (Multiboot2 3.6 "Boot information format").
const SIZE_WORD: u32 = 4;

/// The total_size.
fn total_size<A: Allocator>(image: &Image<A>) -> Result<u32, WalkFault>
    requires { image.now.protocol ≡ protocol.Multiboot2 }
    ensures size { FindsOrFaults image.now (HasTotalSize image.now) result }
    ensures least { IfOk result (λ size. min_info_size ≤ size) }
{
    let word = follow(image, image.registers().information(), SIZE_WORD)?;
    let size = u32_at(&SliceView::new(word), 0);
    if size < MIN_INFO_SIZE {
        return Err(WalkFault::BadInfo);
    }
    Ok(size)
}

/// What the information says.
fn information<A: Allocator + Copy>(alloc: A, image: &Image<A>) -> Result<Info<A>, WalkFault>
    requires { image.now.protocol ≡ protocol.Multiboot2 }
    ensures { FindsOrFaults image.now (HasInformation image.now) result }
{
    let size = total_size(image)?;
    let bytes = follow(image, image.registers().information(), size)?;
    Ok(read_info(alloc, bytes)?)
}

/// What the information shows.
pub(crate) fn shown_by_information<'a, A: Allocator + Copy>(
    alloc: A,
    image: &'a Image<A>,
) -> Result<Seen<'a, A>, WalkFault>
    requires { image.now.protocol ≡ protocol.Multiboot2 }
    ensures { FindsOrFaults image.now (IsSeen image.now) result }
{
    let info = information(alloc, image)?;
    let modules = modules_at(alloc, image, info.modules.as_slice())?;
    let firmware = SeenFirmware {
        screen: info.screen,
        rsdp: None,
        efi_info: None,
        efi_tables: info.efi,
        smbios: info.smbios,
    };
    let mut seen = Seen::new(alloc, image, info.line, info.runs, firmware)?;
    seen.modules = modules;
    seen.rsdp_old = info.rsdp_old;
    seen.rsdp_new = info.rsdp_new;
    Ok(seen)
}
