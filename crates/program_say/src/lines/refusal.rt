//! A refusal, told by its number, its name and its meaning.

use crate::lines::refusal_words::{refusal_meaning, refusal_name};
use crate::say;
use bl_load::Refusal;
use std::alloc::{AllocError, Allocator};

/// Appends what a refusal carries, in brackets: the place of a file in its entry, the offset of a
/// tag in the kernel's file, the type of a tag, or the indices of program headers.
fn say_carried<A: Allocator + Copy>(
    out: &mut Vec<u8, A>,
    refusal: Refusal,
) -> Result<(), AllocError> {
    match refusal {
        // >>> tools/refusals: brackets of Refusal
        Refusal::NoFile(n)
        | Refusal::FileFault(n)
        | Refusal::FileTooLong(n)
        | Refusal::UnsupportedRequest(n)
        | Refusal::SegmentCut(n)
        | Refusal::AddressTooHigh(n) => say!(out, "({n})"),
        Refusal::UnsupportedTag(n) => say!(out, "({n})"),
        Refusal::BadTag(offset) => say!(out, "(0x{offset:x})"),
        Refusal::SegmentsOverlap(i, j) => say!(out, "({i}, {j})"),
        // <<<
        _ => Ok(()),
    }
}

/// Appends the line of a refusal.
pub fn say_explained_refusal<A: Allocator + Copy>(
    out: &mut Vec<u8, A>,
    refusal: Refusal,
) -> Result<(), AllocError> {
    say!(
        out,
        "refused {} {}",
        refusal.number(),
        refusal_name(refusal)
    )?;
    say_carried(out, refusal)?;
    say!(out, ": {}\n", refusal_meaning(refusal))
}
