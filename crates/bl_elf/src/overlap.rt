//! Segments that share a physical byte.
ghost use Rattle.std.specs.Prelude.{◌≡◌, ◌<◌, ℕ, true, false, None, MatchOption, MatchResult};
ghost use Rattle.bl_elf.specs.internal.SoundHeader.{IsSoundHeaderOf};
ghost use Rattle.bl_elf.specs.ProgramHeaders.{program_fault_at, segments_overlap_at};
ghost use Rattle.bl_elf.specs.Elf.{IsProgramHeaderIndex, OverlapsNoLater, HasFirstElfFault};

use crate::fault::ElfFault;
use crate::header::Header;
use crate::program_headers::program_header;
use bl_mem::ByteView;

/// The least program header after the `i`-th that shares a physical byte with it.
fn overlap_after<V: ByteView>(view: &V, header: Header, i: u16) -> Option<u16>
    requires header { IsSoundHeaderOf (V.bytes view.now) header }
    requires within { i < header.e_phnum }
    ensures { MatchOption result
        (OverlapsNoLater (V.bytes view.now) i)
        (λ j. (i < j) × IsProgramHeaderIndex (V.bytes view.now) j
        × (segments_overlap_at (V.bytes view.now) i j ≡ true)
        × ((k : ℕ) → i < k → k < j → segments_overlap_at (V.bytes view.now) i k ≡ false)) }
{
    let first = program_header(view, header, i);
    for j in i + 1..header.e_phnum {
        if first.shares_byte(program_header(view, header, j)) {
            return Some(j);
        }
    }
    None
}

/// Refuses a file in which two loadable segments share a physical byte, with the first two.
pub fn check_overlaps<V: ByteView>(view: &V, header: Header) -> Result<(), ElfFault>
    requires header { IsSoundHeaderOf (V.bytes view.now) header }
    requires sound { (i : ℕ) → IsProgramHeaderIndex (V.bytes view.now) i
        → program_fault_at (V.bytes view.now) i
        ≡ None }
    ensures { MatchResult result
        (λ _. (i : ℕ) → IsProgramHeaderIndex (V.bytes view.now) i
        → OverlapsNoLater (V.bytes view.now) i)
        (HasFirstElfFault (V.bytes view.now)) }
{
    for i in 0..header.e_phnum {
        if let Some(j) = overlap_after(view, header, i) {
            return Err(ElfFault::SegmentsOverlap(i as u32, j as u32));
        }
    }
    Ok(())
}
