//! What is read from a file.
ghost use Rattle.std.specs.Prelude.{◌≡◌, ◌≤◌, Some, None, length, All, AllPairs, MatchResult, IfOk};
ghost use Rattle.std.specs.Prelude.{IfErr};
ghost use Rattle.bl_elf.specs.Elf.{IsElf, HasFirstElfFault, IsSoundSegment, AreApartSegments};
ghost use Rattle.bl_elf.specs.declared.fault.ElfFault.TheVariants.{NoEntry};

use crate::entry::find_entry;
use crate::fault::ElfFault;
use crate::header::read_header;
use crate::overlap::check_overlaps;
use crate::segments::loadable_segments;
use bl_mem::{ByteView, Segment};
use std::alloc::Allocator;
use std::marker::Model;

/// The loadable segments of an executable, in the order of its program headers, and its entry.
#[derive(Drop)]
pub struct Elf<A: Allocator> {
    segments: Vec<Segment, A>,
    entry: Option<u64>,
}

impl<A: Allocator> Model for Elf<A> {
    ghost use Rattle.bl_elf.specs.Elf.{ElfFacts};

    ghost Value = { ElfFacts };

    ghost view = { λ elf. record { segments = elf.segments.items; entry = elf.entry } };
}

impl<A: Allocator> Elf<A> {
    /// The loadable segments, at most 128, in the order of their program headers.
    pub fn segments(&self) -> &[Segment]
        ensures { result.now ≡ self.now.segments }
    {
        self.segments.as_slice()
    }

    /// The physical address at which the executable is entered, or `NoEntry` where no segment holds
    /// `e_entry`.
    pub fn entry(&self) -> Result<u64, ElfFault>
        ensures { MatchResult result
            (λ entry. self.now.entry ≡ Some entry)
            (λ fault. (fault ≡ NoEntry) × (self.now.entry ≡ None)) }
    {
        self.entry.ok_or(ElfFault::NoEntry)
    }
}

/// Reads the executable in a file (System V gABI, "ELF Header" and "Program Header"), or answers
/// the first fault in the order of the checks, which is never `NoEntry`. All that is kept of the
/// file is the list of its loadable segments.
pub fn read_elf<A: Allocator + Copy, V: ByteView>(alloc: A, view: &V) -> Result<Elf<A>, ElfFault>
    ensures read { IfOk result (λ elf. IsElf (V.bytes view.now) elf) }
    ensures first_fault { IfErr result (λ fault. HasFirstElfFault (V.bytes view.now) fault) }

    // What follows from the first clause alone, for callers that place and copy the segments.
    ensures segments { IfOk result (λ elf. All (IsSoundSegment (V.bytes view.now)) elf.segments) }
    ensures few { IfOk result (λ elf. length elf.segments ≤ 128) }
    ensures apart { IfOk result (λ elf. AllPairs AreApartSegments elf.segments) }
{
    let header = read_header(view)?;
    let segments = loadable_segments(alloc, view, header)?;
    check_overlaps(view, header)?;
    let entry = find_entry(view, header, &segments);
    Ok(Elf { segments, entry })
}
