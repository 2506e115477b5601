//! The loadable segments.
ghost use Rattle.std.specs.Prelude.{◌≡◌, ℕ, None, IfOk, OnOk, IfErr};
ghost use Rattle.bl_elf.specs.internal.SoundHeader.{IsSoundHeaderOf};
ghost use Rattle.bl_elf.specs.ProgramHeaders.{program_headers, segments_of, program_fault_at};
ghost use Rattle.bl_elf.specs.Elf.{IsProgramHeaderIndex, HasFirstElfFault};

use crate::fault::ElfFault;
use crate::header::Header;
use crate::program_headers::program_header;
use bl_mem::{ByteView, Segment};
use std::alloc::Allocator;

/// The segments of the loadable program headers, or the first fault of a program header.
pub fn loadable_segments<A: Allocator + Copy, V: ByteView>(
    alloc: A,
    view: &V,
    header: Header,
) -> Result<Vec<Segment, A>, ElfFault>
    requires { IsSoundHeaderOf (V.bytes view.now) header }
    ensures segments { IfOk result
        (λ segments. segments.items ≡ segments_of (program_headers (V.bytes view.now))) }
    ensures sound { OnOk result
        ((i : ℕ) → IsProgramHeaderIndex (V.bytes view.now) i
        → program_fault_at (V.bytes view.now) i ≡ None) }
    ensures first_fault { IfErr result (HasFirstElfFault (V.bytes view.now)) }
{
    let size = view.len();
    let mut segments = Vec::new(alloc);
    for i in 0..header.e_phnum {
        let program = program_header(view, header, i);
        program.check(size, i as u32)?;
        if program.is_loadable() {
            segments.push(program.segment())?;
        }
    }
    Ok(segments)
}
