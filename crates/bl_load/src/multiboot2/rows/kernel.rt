//! The rows of a Multiboot2 kernel: one for each segment, or one for the block.
ghost use Rattle.std.specs.Prelude.{◌≡◌, ◌≤◌, ◌<◌, ◌+◌, ◌^◌, ◌++◌, length, IfOk};
ghost use Rattle.bl_load.specs.KernelBlock as blocks;
ghost use Rattle.bl_load.specs.Rows as table;
ghost use Rattle.bl_load.specs.internal.ReadMultiboot2Kernels.{kernel_by, max_segments};

use crate::multiboot2::kernel::Kernel;
use bl_mb2head::Relocation;
use bl_mem::Segment;
use bl_plan::{Choice, Role, Row};
use std::alloc::{AllocError, Allocator};

/// The preference for the lowest place (Multiboot2 3.1.13 "Relocatable header tag").
const PREFER_LOWEST: u32 = 1;

/// The preference for the highest place.
const PREFER_HIGHEST: u32 = 2;

/// The least address of segments.
pub fn low_of(segments: &[Segment]) -> u64
    ensures { result ≡ blocks.low_of segments.now }
{
    match segments {
        [] => 0,
        [segment] => segment.address,
        [segment, rest @ ..] => segment.address.min(low_of(rest)),
    }
}

/// The address after the last byte of segments, which may lie above 2^64.
fn high_of(segments: &[Segment]) -> u128
    ensures value { result ≡ blocks.high_of segments.now }
    ensures small { result < 2 ^ 65 }
{
    match segments {
        [] => 0,
        [segment, rest @ ..] => {
            let end = segment.address as u128 + segment.memsz as u128;
            end.max(high_of(rest))
        }
    }
}

/// The length of the block from the least to the greatest address of segments.
fn span_of(segments: &[Segment]) -> u64
    requires { blocks.span_of segments.now < 2 ^ 64 }
    ensures { result ≡ blocks.span_of segments.now }
{
    high_of(segments).saturating_sub(low_of(segments) as u128) as u64
}

/// A relocatable header tag's alignment; 0 is read as 1.
fn align_of(relocation: &Relocation) -> u64
    ensures value { result ≡ table.align_of relocation.now }
    ensures some { 1 ≤ result }
{
    (relocation.align as u64).max(1)
}

/// How a block that is linked at an address is placed.
fn block_choice(relocation: &Relocation, linked: u64) -> Choice
    ensures { result ≡ table.block_choice relocation.now linked }
{
    let align = align_of(relocation);
    let low = relocation.min_addr as u64;
    let high = relocation.max_addr as u64;
    match relocation.preference {
        PREFER_LOWEST => Choice::Lowest { align, low, high },
        PREFER_HIGHEST => Choice::Highest { align, low, high },
        _ => Choice::Preferred {
            at: linked,
            align,
            low,
            high,
        },
    }
}

/// Appends a row for each segment at its own address.
fn push_segment_rows<A: Allocator>(
    rows: &mut Vec<Row, A>,
    segments: &[Segment],
) -> Result<(), AllocError>
    requires { length segments.now ≤ max_segments }
    ensures { IfOk result (λ _. rows.new.items ≡ rows.old.items ++ table.segment_rows 0
        segments.now) }
{
    for (index, segment) in segments.iter().enumerate() {
        rows.push(Row {
            role: Role::Kernel,
            index: index as u32,
            length: segment.memsz,
            choice: Choice::Fixed(segment.address),
        })?;
    }
    Ok(())
}

/// Appends the kernel's rows: one for each segment, or one for the block.
pub(crate) fn push_kernel_rows<A: Allocator, B: Allocator>(
    rows: &mut Vec<Row, A>,
    kernel: &Kernel<B>,
) -> Result<(), AllocError>
    requires few { length (kernel_by kernel.now).segments ≤ max_segments }
    requires span { blocks.span_of (kernel_by kernel.now).segments < 2 ^ 64 }
    ensures { IfOk result (λ _. rows.new.items ≡ rows.old.items ++ table.kernel_rows
        (kernel_by kernel.now).segments kernel.now.relocation) }
{
    let segments = kernel.executable.segments();
    match &kernel.relocation {
        None => push_segment_rows(rows, segments),
        Some(relocation) => {
            rows.push(Row {
                role: Role::Kernel,
                index: 0,
                length: span_of(segments),
                choice: block_choice(relocation, low_of(segments)),
            })?;
            Ok(())
        }
    }
}
