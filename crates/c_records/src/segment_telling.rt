//! The segment registers of registers as C was told them.
ghost use Rattle.std.specs.Prelude.{◌≡◌, not, [], ◌∷◌};
ghost use Rattle.bl_load.specs.SegmentRegisters.{flat, segment_in, selector_of};
ghost use Rattle.bl_load.specs.declared.registers.Registers.{Registers};
ghost use Rattle.bl_load.specs.declared.segment_registers.SegmentName.TheVariants.{Cs, Ds, Es};
ghost use Rattle.bl_load.specs.declared.segment_registers.SegmentName.TheVariants.{Fs, Gs, Ss};
ghost use Rattle.c_records.specs.LoadTold.{registers_told};
ghost use Rattle.c_records.specs.SegmentsTold as spec;

use crate::end_records::RegistersRecord;
use crate::segment_records::SegmentRecord;

/// Types of segments (Intel SDM, volume 3A, 3.4.5.1 "Code- and Data-Segment Descriptor Types"):
/// code that may be executed and read, data that may be read and written, both accessed.
const EXECUTE_READ_ACCESSED: u8 = 11;

const READ_WRITE_ACCESSED: u8 = 3;

/// How many values a selector has.
const SELECTORS: u64 = 0x1_0000;

/// A flat segment of 64 bits, or of 32, whose selector is that of a number.
fn flat_told(number: u64, segment_type: u8, wide: bool) -> SegmentRecord
    ensures { result
        ≡ spec.segment_told (flat (selector_of number) segment_type wide (not wide)) }
{
    SegmentRecord {
        base: 0,
        limit: u32::MAX,
        selector: (number % SELECTORS) as u16,
        segment_type,
        s: 1,
        dpl: 0,
        p: 1,
        avl: 0,
        l: wide as u8,
        db: !wide as u8,
        g: 1,
        reserved: 0,
    }
}

fn flat_segments(registers: &RegistersRecord) -> [SegmentRecord; 6]
    ensures { result ≡ spec.segments_told registers.now }
{
    let wide = registers.bits == 64;
    [
        flat_told(registers.cs, EXECUTE_READ_ACCESSED, wide),
        flat_told(registers.ds, READ_WRITE_ACCESSED, false),
        flat_told(registers.es, READ_WRITE_ACCESSED, false),
        flat_told(registers.fs, READ_WRITE_ACCESSED, false),
        flat_told(registers.gs, READ_WRITE_ACCESSED, false),
        flat_told(registers.ss, READ_WRITE_ACCESSED, false),
    ]
}

/// CS, DS, ES, FS, GS and SS whole, as a processor keeps them with these registers.
pub fn segments_told(registers: &RegistersRecord) -> [SegmentRecord; 6]
    ensures exact { result ≡ spec.segments_told registers.now }

    // Where these are registers as they are told, the segments are those of the registers, which
    // `selectors_name_the_segments` says to be those of their descriptors.
    ensures told { (r : Registers) → registers.now ≡ registers_told r
        → result ≡ spec.segment_told (segment_in r Cs) ∷ spec.segment_told (segment_in r Ds)
        ∷ spec.segment_told (segment_in r Es) ∷ spec.segment_told (segment_in r Fs)
        ∷ spec.segment_told (segment_in r Gs) ∷ spec.segment_told (segment_in r Ss) ∷ [] }
{
    flat_segments(registers)
}
