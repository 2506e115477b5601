//! What C gives, as plain records. Addresses and lengths are in bytes. A slice in a record is a
//! pointer and a length there; no pointer is null.
use crate::firmware_records::FirmwareRecord;
use bl_plan::Protocol;

/// A region of the memory map. `kind` is 1 to 5; `reserved` is not looked at.
#[repr(C)]
#[derive(Clone, Copy)]
pub struct RegionRecord {
    pub base: u64,
    pub length: u64,
    pub kind: u32,
    pub reserved: u32,
}

/// A machine: the size of its memory, the pool that files are staged in, its regions, what firmware
/// tells. All that is told of a machine crosses in it; `reserved` is not looked at.
#[repr(C)]
#[derive(Clone, Copy)]
pub struct MachineRecord<'a> {
    pub size: u64,
    pub pool_base: u64,
    pub pool_length: u64,
    pub regions: &'a [RegionRecord],
    pub firmware: &'a FirmwareRecord<'a>,
    pub reserved: [u64; 3],
}

/// A file. A call that loads, or digests at once, reads its bytes and does not look at `length`; a
/// session reads `length` and does not look at the bytes. A preparation, a plan and a digest that
/// is fed later read of the kernel its bytes alone, and of the other files `length` alone. A menu's
/// file of length `UNREADABLE` can't be read.
#[repr(C)]
#[derive(Clone, Copy)]
pub struct FileRecord<'a> {
    pub bytes: &'a [u8],
    pub length: u64,
}

/// A module: its file and its line.
#[repr(C)]
#[derive(Clone, Copy)]
pub struct ModuleRecord<'a> {
    pub file: FileRecord<'a>,
    pub line: &'a [u8],
}

/// An entry: the number of its protocol, its kernel's file and its line. Of protocol 1 it has
/// modules and copies of the RSDP, of which one without bytes is none. Of protocols 2 and 3 it has
/// an initial ramdisk, unless `has_initrd` is 0. What the protocol has no use for is not looked at.
#[repr(C)]
#[derive(Clone, Copy)]
pub struct EntryRecord<'a> {
    pub protocol: u32,
    pub has_initrd: u32,
    pub kernel: FileRecord<'a>,
    pub line: &'a [u8],
    pub initrd: FileRecord<'a>,
    pub modules: &'a [ModuleRecord<'a>],
    pub rsdp_old: &'a [u8],
    pub rsdp_new: &'a [u8],
}

impl EntryRecord<'_> {
    ghost use Rattle.std.specs.Prelude.{◌≡◌, ◌==◌};
    ghost use Rattle.bl_plan.specs.Protocols.{protocol_number};

    /// Whether its number is that of this protocol.
    pub fn is_of(&self, protocol: Protocol) -> bool
        ensures { result ≡ (self.now.protocol == protocol_number protocol) }
    {
        self.protocol == protocol.number()
    }
}

/// The length of a file that can't be read.
pub const UNREADABLE: u64 = u64::MAX;
