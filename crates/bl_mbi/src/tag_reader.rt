//! Each tag of boot information that always stands, read where it stands.
ghost use Rattle.std.specs.Prelude.{◌≡◌, ◌≤◌, ◌+◌, length, IfOk};
ghost use Rattle.bl_mbi.specs.ReadingSteps.{MatchesReading};
ghost use Rattle.bl_mbi.specs.internal.BytesLeft.{rest_facts, with_rest};
ghost use Rattle.bl_mbi.specs.Bodies as bodies;
ghost use Rattle.bl_mbi.specs.ReadingSteps as fields;
ghost use Rattle.bl_mbi.specs.Reading as spec;

use crate::body_reader::{are_zeros, map_of, memory_of, module_of, text_of, word};
use crate::fault::InfoFault;
use crate::module::Module;
use crate::rest::{Rest, behind, first};
use crate::tag_types::{TAG_BASIC_MEMORY, TAG_END, TAG_MEMORY_MAP, TAG_MODULE};
use bl_map::Region;
use bl_mem::Bytes;
use std::alloc::Allocator;

/// Whether a tag of this type begins there.
pub(crate) fn is_next(kind: u32, rest: Rest) -> bool
    ensures { result ≡ fields.is_next kind (rest_facts rest.entry) }
{
    rest.bytes.len() >= 8 && word(rest.bytes) == kind
}

/// The body of the tag there, which must be of this type, and what is left after it.
#[tactic(auto, unfolding(crate::specs::ReadingSteps::next_info_tag))]
pub(crate) fn tag_at<'a>(kind: u32, rest: Rest<'a>) -> Result<(&'a [u8], Rest<'a>), InfoFault>
    ensures read { MatchesReading (λ x. (x.0.now, rest_facts x.1)) result
        (fields.next_info_tag kind (rest_facts rest.entry)) }
    ensures shorter { IfOk result (λ x. length x.1.bytes.now + 8 ≤ length rest.entry.bytes.now) }
{
    if rest.bytes.is_empty() {
        return Err(InfoFault::BadOrder(rest.at));
    }
    if rest.bytes.len() < 8 {
        return Err(InfoFault::BadTag(rest.at));
    }
    if word(rest.bytes) != kind {
        return Err(InfoFault::BadOrder(rest.at));
    }
    let size = word(&rest.bytes[4..]) as usize;
    let whole = (size + 7) / 8 * 8;
    if size < 8 {
        return Err(InfoFault::BadTag(rest.at));
    }
    if rest.bytes.len() < size {
        return Err(InfoFault::BadTag(rest.at));
    }
    if !are_zeros(first(behind(rest.bytes, size), whole - size)) {
        return Err(InfoFault::BadTag(rest.at));
    }
    let after = Rest {
        at: rest.at + whole as u64,
        bytes: behind(rest.bytes, whole),
    };
    Ok((&rest.bytes[8..size], after))
}

/// The text in a tag of this type.
#[tactic(auto, unfolding(crate::specs::ReadingSteps::required_at))]
pub(crate) fn text_tag_at<'a, A: Allocator>(
    alloc: A,
    kind: u32,
    rest: Rest<'a>,
) -> Result<(Bytes<A>, Rest<'a>), InfoFault>
    ensures { MatchesReading with_rest result
        (fields.required_at kind bodies.text_of_body (rest_facts rest.entry)) }
{
    let (body, after) = tag_at(kind, rest)?;
    let Some(text) = text_of(body) else {
        return Err(InfoFault::BadTag(rest.at));
    };
    Ok((Bytes::copy(alloc, text)?, after))
}

/// The module in the tag there.
#[tactic(auto, unfolding(crate::specs::ReadingSteps::required_at))]
fn module_at<'a, A: Allocator>(alloc: A, rest: Rest<'a>) -> Result<(Module<A>, Rest<'a>), InfoFault>
    ensures read { MatchesReading with_rest result
        (fields.required_at TAG_MODULE bodies.module_of (rest_facts rest.entry)) }
    ensures shorter { IfOk result (λ x. length x.1.bytes.now + 8 ≤ length rest.entry.bytes.now) }
{
    let (body, after) = tag_at(TAG_MODULE, rest)?;
    Ok((module_of(alloc, rest.at, body)?, after))
}

/// The modules up to the first tag of another type.
pub(crate) fn modules_at<'a, A: Allocator + Copy>(
    alloc: A,
    rest: Rest<'a>,
) -> Result<(Vec<Module<A>, A>, Rest<'a>), InfoFault>
    ensures { MatchesReading (λ x. (x.0.items, rest_facts x.1)) result (spec.modules_at
        (rest_facts rest.entry)) }
{
    let mut modules = Vec::new(alloc);
    let mut left = rest;
    'tags: while is_next(TAG_MODULE, left) {
        let (module, after) = module_at(alloc, left)?;
        modules.push(module)?;
        left = after;
    }
    Ok((modules, left))
}

/// The sizes of memory in the tag there.
#[tactic(auto, unfolding(crate::specs::ReadingSteps::required_at))]
pub(crate) fn memory_at<'a>(rest: Rest<'a>) -> Result<((u32, u32), Rest<'a>), InfoFault>
    ensures { MatchesReading with_rest result
        (fields.required_at TAG_BASIC_MEMORY bodies.memory_of (rest_facts rest.entry)) }
{
    let (body, after) = tag_at(TAG_BASIC_MEMORY, rest)?;
    let Some(sizes) = memory_of(body) else {
        return Err(InfoFault::BadTag(rest.at));
    };
    Ok((sizes, after))
}

/// The memory map in the tag there.
#[tactic(auto, unfolding(crate::specs::ReadingSteps::required_at))]
pub(crate) fn map_at<'a, A: Allocator>(
    alloc: A,
    rest: Rest<'a>,
) -> Result<(Vec<Region, A>, Rest<'a>), InfoFault>
    ensures { MatchesReading (λ x. (x.0.items, rest_facts x.1)) result
        (fields.required_at TAG_MEMORY_MAP bodies.map_of (rest_facts rest.entry)) }
{
    let (body, after) = tag_at(TAG_MEMORY_MAP, rest)?;
    Ok((map_of(alloc, rest.at, body)?, after))
}

/// The tag that ends the information, with nothing after it.
#[tactic(auto, unfolding(crate::specs::Reading::end_at))]
pub(crate) fn end_at(rest: Rest) -> Result<(), InfoFault>
    ensures { MatchesReading (λ end. end) result (spec.end_at (rest_facts rest.entry)) }
{
    let (body, after) = tag_at(TAG_END, rest)?;
    if !body.is_empty() {
        return Err(InfoFault::BadTag(rest.at));
    }
    if !after.bytes.is_empty() {
        return Err(InfoFault::BadOrder(after.at));
    }
    Ok(())
}
