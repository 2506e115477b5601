//! Where a file is entered.
ghost use Rattle.std.specs.Prelude.{◌≡◌, ◌≤◌, ◌<◌, ◌+◌, ◌-◌, ◌^◌, ℕ, None, IfSome, find};
ghost use Rattle.std.specs.List.{list_any};
ghost use Rattle.bl_elf.specs.internal.SoundHeader.{IsSoundHeaderOf};
ghost use Rattle.bl_elf.specs.ProgramHeaders.{program_headers, segments_of, program_fault_at};
ghost use Rattle.bl_elf.specs.ProgramHeaders.{is_entered};
ghost use Rattle.bl_mem.specs.SegmentContents.{is_in_segment};
ghost use Rattle.bl_elf.specs.Elf.{IsProgramHeaderIndex, physical_entry};

use crate::header::Header;
use crate::program_headers::{ProgramHeader, program_header};
use bl_mem::{ByteView, Segment};

/// The physical address at which a sound file is entered, if some segment holds its entry.
#[tactic(auto, unfolding(crate::specs::Elf::physical_entry))]
pub fn find_entry<V: ByteView>(view: &V, header: Header, segments: &[Segment]) -> Option<u64>
    requires header { IsSoundHeaderOf (V.bytes view.now) header }
    requires sound { (i : ℕ) → IsProgramHeaderIndex (V.bytes view.now) i
        → program_fault_at (V.bytes view.now) i
        ≡ None }
    requires segments { segments.now ≡ segments_of (program_headers (V.bytes view.now)) }
    ensures { result ≡ physical_entry (V.bytes view.now) }
{
    if let Some(program) = first_entered(view, header) {
        return Some(header.e_entry - program.p_vaddr + program.p_paddr);
    }
    if is_held(header.e_entry, segments) {
        return Some(header.e_entry);
    }
    None
}

/// The first loadable program header whose virtual addresses hold the entry.
fn first_entered<V: ByteView>(view: &V, header: Header) -> Option<ProgramHeader>
    requires header { IsSoundHeaderOf (V.bytes view.now) header }
    requires sound { (i : ℕ) → IsProgramHeaderIndex (V.bytes view.now) i
        → program_fault_at (V.bytes view.now) i
        ≡ None }
    ensures first { result ≡ find (is_entered header.e_entry) (program_headers (V.bytes view.now)) }
    ensures inside { IfSome result (λ program. (program.p_vaddr ≤ header.e_entry)
        × (header.e_entry - program.p_vaddr + program.p_paddr < 2 ^ 32)) }
{
    for i in 0..header.e_phnum {
        let program = program_header(view, header, i);
        if program.is_entered(header.e_entry) {
            return Some(program);
        }
    }
    None
}

/// Whether some segment's physical addresses hold `a`.
fn is_held(a: u64, segments: &[Segment]) -> bool
    ensures { result ≡ list_any (is_in_segment a) segments.now }
{
    segments.iter().any(|segment| segment.holds(a))
}
