//! Segment registers for C.
ghost use Rattle.std.specs.Prelude.{◌≡◌, ◌≤◌, ◌<◌, ◌++◌, length, drop};
ghost use Rattle.c_records.specs.SegmentsTold as spec;

use c_records::{RegistersRecord, SegmentRecord, put_front, segments_told};

/// The six segment registers of registers that were told, if there is room for them.
#[unsafe(no_mangle)]
pub extern "C" fn bootcore_segments_told(
    registers: &RegistersRecord,
    segments: &mut [SegmentRecord],
)
    ensures told { 6 ≤ length segments.old
        → segments.new ≡ spec.segments_told registers.now ++ drop 6 segments.old }
    ensures small { length segments.old < 6 → segments.new ≡ segments.old }
{
    if segments.len() < 6 {
        return;
    }
    let told = segments_told(registers);
    put_front(&told, segments);
}
