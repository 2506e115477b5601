//! A Multiboot2 kernel's file.
ghost use Rattle.std.specs.Prelude.{◌≡◌, Some, None, IfOk};
ghost use Rattle.std.specs.Prelude.{IfErr, MatchResult};
ghost use Rattle.std.specs.List.{list_any};
ghost use Rattle.bl_load.specs.Multiboot2Kernel as kernel;
ghost use Rattle.bl_mem.specs.SegmentContents.{is_in_segment};
ghost use Rattle.bl_load.specs.Multiboot2Kernel.{IsLoadedBy, entry_point_fault};
ghost use Rattle.bl_load.specs.internal.ReadMultiboot2Kernels.{IsElfFault, IsElfRefusal};
ghost use Rattle.bl_load.specs.internal.ReadMultiboot2Kernels.{IsMultiboot2Fault, IsKernelOf};
ghost use Rattle.bl_load.specs.internal.ReadMultiboot2Kernels.{executable_facts, kernel_by};
ghost use Rattle.bl_load.specs.declared.refusal.PrepFault.TheVariants.{Refused};

use crate::refusal::{PrepFault, Refusal};
use bl_elf::{Elf, ElfFault, read_elf};
use bl_mb2head::{HeadFault, Relocation, find_header_for};
use bl_mem::{ByteView, Segment};
use std::alloc::Allocator;

/// What the file gives to load: one segment by the header's address tag, or an ELF executable.
#[derive(Drop)]
pub enum Executable<A: Allocator> {
    AddressTag([Segment; 1]),
    Elf(Elf<A>),
}

impl<A: Allocator> Executable<A> {
    /// The segments in their order.
    pub fn segments(&self) -> &[Segment]
        ensures { result.now ≡ (executable_facts self.now).segments }
    {
        match self {
            Executable::AddressTag(one) => one.as_slice(),
            Executable::Elf(elf) => elf.segments(),
        }
    }

    /// The entry that the file names itself.
    fn entry(&self) -> Option<u64>
        ensures { result ≡ (executable_facts self.now).entry }
    {
        match self {
            Executable::AddressTag(_) => None,
            Executable::Elf(elf) => elf.entry().ok(),
        }
    }
}

/// What is read of a kernel's file.
#[derive(Drop)]
pub struct Kernel<A: Allocator> {
    pub executable: Executable<A>,
    pub entry: u64,
    pub relocation: Option<Relocation>,
}

/// A header's fault as a refusal.
fn head_refusal(fault: HeadFault) -> Refusal
    ensures { result ≡ kernel.head_refusal fault }
{
    match fault {
        HeadFault::NoHeader => Refusal::NoHeader,
        HeadFault::HeaderCut => Refusal::HeaderCut,
        HeadFault::BadArchitecture => Refusal::BadArchitecture,
        HeadFault::BadTag(offset) => Refusal::BadTag(offset),
        HeadFault::UnsupportedTag(kind) => Refusal::UnsupportedTag(kind),
        HeadFault::UnsupportedRequest(kind) => Refusal::UnsupportedRequest(kind),
        HeadFault::NoConsole => Refusal::NoConsole,
    }
}

impl From<HeadFault> for PrepFault {
    ghost from_gives = { λ fault prep. prep ≡ Refused (kernel.head_refusal fault) };

    fn from(fault: HeadFault) -> PrepFault {
        PrepFault::Refused(head_refusal(fault))
    }
}

impl From<ElfFault> for PrepFault {
    ghost from_gives = { IsElfFault };

    fn from(fault: ElfFault) -> PrepFault {
        match fault {
            ElfFault::NotElf => PrepFault::Refused(Refusal::NotElf),
            ElfFault::BadElf => PrepFault::Refused(Refusal::BadElf),
            ElfFault::SegmentCut(i) => PrepFault::Refused(Refusal::SegmentCut(i)),
            ElfFault::AddressTooHigh(i) => PrepFault::Refused(Refusal::AddressTooHigh(i)),
            ElfFault::SegmentsOverlap(i, j) => PrepFault::Refused(Refusal::SegmentsOverlap(i, j)),
            ElfFault::NoEntry => PrepFault::Refused(Refusal::NoEntry),
            ElfFault::NoMemory => PrepFault::NoMemory,
        }
    }
}

/// What the file gives to load, where its header has this segment of an address tag.
fn read_executable<A: Allocator + Copy, V: ByteView>(
    alloc: A,
    file: &V,
    segment: Option<Segment>,
) -> Result<Executable<A>, PrepFault>
    ensures loaded { IfOk result (λ executable. IsLoadedBy (V.bytes file.now) segment
        (executable_facts executable)) }
    ensures fault { IfErr result (λ fault. IsElfRefusal (V.bytes file.now) segment fault) }
{
    match segment {
        Some(segment) => Ok(Executable::AddressTag([segment])),
        None => {
            let elf = read_elf(alloc, file)?;
            Ok(Executable::Elf(elf))
        }
    }
}

/// Whether one of the segments holds an address.
fn is_held(segments: &[Segment], a: u64) -> bool
    ensures { result ≡ list_any (is_in_segment a) segments.now }
{
    segments.iter().any(|segment| segment.holds(a))
}

/// The entry that counts, where it lies in a segment.
fn check_entry_point(segments: &[Segment], entry: Option<u64>) -> Result<u64, Refusal>
    ensures { MatchResult result
        (λ a. (entry ≡ Some a) × (entry_point_fault segments.now entry ≡ None))
        (λ refusal. entry_point_fault segments.now entry ≡ Some refusal) }
{
    let Some(a) = entry else {
        return Err(Refusal::NoEntry);
    };
    if is_held(segments, a) {
        Ok(a)
    } else {
        Err(Refusal::EntryOutside)
    }
}

/// What is read of a kernel's file, or its first fault, on a machine that has a screen or none.
pub fn read_kernel<A: Allocator + Copy, V: ByteView>(
    alloc: A,
    file: &V,
    has_screen: bool,
) -> Result<Kernel<A>, PrepFault>
    ensures ok { IfOk result (λ kernel. IsKernelOf has_screen (V.bytes file.now)
        (kernel_by kernel)) }
    ensures fault { IfErr result (IsMultiboot2Fault has_screen (V.bytes file.now)) }
{
    // For the proof: the file's length, and so that of the tag's segment, is below 2^64.
    let _len = file.len();
    let header = find_header_for(file, has_screen)?;
    let executable = read_executable(alloc, file, header.segment)?;
    let counted = header.entry.or(executable.entry());
    let entry = check_entry_point(executable.segments(), counted)?;
    Ok(Kernel {
        executable,
        entry,
        relocation: header.relocation,
    })
}
