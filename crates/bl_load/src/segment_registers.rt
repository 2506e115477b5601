//! The segment registers as a kernel begins, as a virtual processor takes them.
ghost use Rattle.std.specs.Prelude.{◌≡◌};
ghost use Rattle.bl_load.specs.SegmentRegisters as spec;

use crate::registers::Registers;

/// A segment register whole: its selector, and what a processor keeps beside it (Intel SDM, volume
/// 3A, 3.4.3 "Segment Registers"). The fields are those of a segment descriptor (3.4.5), and those
/// that a virtual machine monitor hands to a virtual processor.
#[derive(Clone, Copy, Debug, PartialEq, Eq)]
pub struct SegmentRegister {
    /// What names the descriptor: its offset in the table of descriptors, with the requested
    /// privilege level in bits 0 and 1, and bit 2 for the local table.
    pub selector: u16,
    /// The address of the segment's first byte.
    pub base: u64,
    /// The offset of its last byte from `base`, in bytes whatever `g` is.
    pub limit: u32,
    /// What the segment is for, 0 to 15; bit 0 of a code or data segment's is set once it was
    /// accessed, and bit 3 is that of code.
    pub segment_type: u8,
    /// It is a code or data segment; else a system segment.
    pub s: bool,
    /// The privilege level of the descriptor, 0 to 3.
    pub dpl: u8,
    /// It is present.
    pub p: bool,
    /// A bit for the system's own use.
    pub avl: bool,
    /// It is code of 64 bits.
    pub l: bool,
    /// Operands and addresses have 32 bits by default; else 16. Clear with `l`.
    pub db: bool,
    /// The descriptor tells the limit in pages of 4 KiB; else in bytes.
    pub g: bool,
}

/// Which segment register.
#[derive(Clone, Copy, Debug, PartialEq, Eq)]
pub enum SegmentName {
    Cs,
    Ds,
    Es,
    Fs,
    Gs,
    Ss,
}

/// Types of segments (3.4.5.1 "Code- and Data-Segment Descriptor Types"): code that may be executed
/// and read, data that may be read and written, both accessed.
const EXECUTE_READ_ACCESSED: u8 = 11;

const READ_WRITE_ACCESSED: u8 = 3;

/// The last byte of 4 GiB.
const FLAT_LIMIT: u32 = 0xFFFF_FFFF;

/// A flat segment of privilege 0.
fn flat(selector: u16, segment_type: u8, l: bool, db: bool) -> SegmentRegister
    ensures { result ≡ spec.flat selector segment_type l db }
{
    SegmentRegister {
        selector,
        base: 0,
        limit: FLAT_LIMIT,
        segment_type,
        s: true,
        dpl: 0,
        p: true,
        avl: false,
        l,
        db,
        g: true,
    }
}

/// The number that the registers hold under this name.
fn number(registers: Registers, name: SegmentName) -> u64
    ensures { result ≡ spec.segment_value registers name }
{
    match registers {
        Registers::Bits32(r) => match name {
            SegmentName::Cs => r.cs as u64,
            SegmentName::Ds => r.ds as u64,
            SegmentName::Es => r.es as u64,
            SegmentName::Fs => r.fs as u64,
            SegmentName::Gs => r.gs as u64,
            SegmentName::Ss => r.ss as u64,
        },
        Registers::Bits64(r) => match name {
            SegmentName::Cs => r.cs,
            SegmentName::Ds => r.ds,
            SegmentName::Es => r.es,
            SegmentName::Fs => r.fs,
            SegmentName::Gs => r.gs,
            SegmentName::Ss => r.ss,
        },
    }
}

/// How many values a selector has.
const SELECTORS: u64 = 0x1_0000;

impl Registers {
    ghost use Rattle.std.specs.Prelude.{◌≡◌};
    ghost use Rattle.bl_load.specs.SegmentRegisters.{segment_in};

    /// A segment register whole (Multiboot2 3.3 "I386 machine state"; Linux/x86 boot protocol,
    /// "32-bit boot protocol", "64-bit boot protocol"): flat code in CS, flat data in each other.
    pub fn segment(self, name: SegmentName) -> SegmentRegister
        ensures { result ≡ segment_in self name }
    {
        let selector = (number(self, name) % SELECTORS) as u16;
        let wide = self.are_wide();
        match name {
            SegmentName::Cs => flat(selector, EXECUTE_READ_ACCESSED, wide, !wide),
            _ => flat(selector, READ_WRITE_ACCESSED, false, true),
        }
    }
}
