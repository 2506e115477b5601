//! What a kernel sees in an image.
use crate::kernel_parts::kernel_of;
use crate::seen_firmware::SeenFirmware;
use bl_image::Image;
use bl_load::Protocol;
use bl_map::Region;
use bl_mem::Bytes;
use std::alloc::{AllocError, Allocator};
use std::marker::Model;

/// A part of the kernel in an image: the physical address of its first byte, and its length in
/// bytes.
#[derive(Clone, Copy, Debug, PartialEq, Eq)]
pub struct SeenPart {
    pub address: u64,
    pub length: u64,
}

/// A module (Multiboot2 3.6.6 "Modules"): the physical address of its first byte, its bytes up to
/// `mod_end` as the image holds them, its line without a zero at its end. An empty module has an
/// address too, and no byte.
#[derive(Drop)]
pub struct SeenModule<'a, A: Allocator> {
    pub mod_start: u32,
    pub bytes: &'a [u8],
    pub line: Bytes<A>,
}

impl<'a, A: Allocator> Model for SeenModule<'a, A> {
    ghost use Rattle.bl_walk.specs.SeenFacts.{SeenModuleFacts};

    ghost Value = { SeenModuleFacts };

    ghost view = { λ m. record {
      mod_start = m.mod_start;
      bytes = m.bytes.now;
      line = m.line;
    } };
}

/// An initial ramdisk (Linux/x86 boot protocol: "ramdisk_image", "ramdisk_size"): the physical
/// address of its first byte, and its bytes as the image holds them, of which there is one at
/// least.
#[derive(Drop)]
pub struct SeenFile<'a> {
    pub address: u32,
    pub bytes: &'a [u8],
}

impl<'a> Model for SeenFile<'a> {
    ghost use Rattle.bl_walk.specs.SeenFacts.{SeenFileFacts};

    ghost Value = { SeenFileFacts };

    ghost view = { λ f. record { address = f.address; bytes = f.bytes.now } };
}

/// What a kernel sees in an image: how and where it is entered, a physical address, its line, its
/// parts in address order, the modules in order (none under Linux), the initial ramdisk (none under
/// Multiboot2, nor where it has no byte), the memory map's runs, the copies of the Root System
/// Description Pointer (Multiboot2 3.6.16 "ACPI old RSDP", 3.6.17 "ACPI new RSDP"; none under
/// Linux), and what firmware tells. The bytes of files are those of the image, and are not copied.
#[derive(Drop)]
pub struct Seen<'a, A: Allocator> {
    pub protocol: Protocol,
    pub entry: u64,
    pub line: Bytes<A>,
    pub kernel: Vec<SeenPart, A>,
    pub modules: Vec<SeenModule<'a, A>, A>,
    pub initrd: Option<SeenFile<'a>>,
    pub map: Vec<Region, A>,
    pub rsdp_old: Option<Bytes<A>>,
    pub rsdp_new: Option<Bytes<A>>,
    pub firmware: SeenFirmware<A>,
}

impl<'a, A: Allocator> Model for Seen<'a, A> {
    ghost use Rattle.bl_walk.specs.SeenFacts.{SeenFacts};

    ghost Value = { SeenFacts };

    ghost view = { λ s. record {
      protocol = s.protocol;
      entry = s.entry;
      line = s.line;
      kernel = s.kernel.items;
      modules = s.modules.items;
      initrd = s.initrd;
      map = s.map.items;
      rsdp_old = s.rsdp_old;
      rsdp_new = s.rsdp_new;
      firmware = s.firmware;
    } };
}

impl<'a, A: Allocator + Copy> Seen<'a, A> {
    ghost use Rattle.std.specs.Prelude.{◌≡◌, IfOk};
    ghost use Rattle.bl_walk.specs.internal.Walking.{seen_without_files};

    /// What a kernel sees in an image that is told this line, these runs and this of firmware, and
    /// of no file and no copy of an RSDP: what else it is told of is put in its place.
    pub(crate) fn new(
        alloc: A,
        image: &Image<A>,
        line: Bytes<A>,
        map: Vec<Region, A>,
        firmware: SeenFirmware<A>,
    ) -> Result<Seen<'a, A>, AllocError>
        ensures { IfOk result (λ seen.
            seen ≡ seen_without_files image.now line map.items firmware) }
    {
        Ok(Seen {
            protocol: image.protocol(),
            entry: image.registers().entry_point(),
            line,
            kernel: kernel_of(alloc, image)?,
            modules: Vec::new(alloc),
            initrd: None,
            map,
            rsdp_old: None,
            rsdp_new: None,
            firmware,
        })
    }
}
