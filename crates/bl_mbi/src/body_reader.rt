//! What the bodies of tags tell.
ghost use Rattle.std.specs.Prelude.{◌≡◌, ◌≤◌, ◌%◌, ◌/◌, ◌==◌, length, option_map};
ghost use Rattle.std.specs.List.{list_all, list_any};
ghost use Rattle.bl_mbi.specs.ReadingSteps.{MatchesReading, or_bad};
ghost use Rattle.bl_mbi.specs.ReadingSteps as fields;
ghost use Rattle.bl_mbi.specs.Bodies as spec;
ghost use Rattle.bl_mbi.specs.Size.{map_entry_size};

use crate::fault::InfoFault;
use crate::module::Module;
use crate::tag_types::ENTRY_SIZE;
use bl_map::{Kind, MAX_LOW_KIB, MAX_REGION_END, Region};
use bl_mem::{Bytes, SliceView, u32_at, u64_at};
use std::alloc::Allocator;

pub(crate) fn word(bytes: &[u8]) -> u32
    requires { 4 ≤ length bytes.now }
    ensures { result ≡ fields.first_u32 bytes.now }
{
    u32_at(&SliceView::new(bytes), 0)
}

pub(crate) fn long(bytes: &[u8]) -> u64
    requires { 8 ≤ length bytes.now }
    ensures { result ≡ fields.first_u64 bytes.now }
{
    u64_at(&SliceView::new(bytes), 0)
}

pub(crate) fn are_zeros(bytes: &[u8]) -> bool
    ensures { result ≡ list_all (λ b. b == 0) bytes.now }
{
    bytes.iter().all(|b| *b == 0)
}

fn has_zero(bytes: &[u8]) -> bool
    ensures { result ≡ list_any (λ b. b == 0) bytes.now }
{
    bytes.iter().any(|b| *b == 0)
}

/// A text that has its one zero after it.
#[tactic(auto, unfolding(crate::specs::Bodies::text_of_body))]
pub(crate) fn text_of(body: &[u8]) -> Option<&[u8]>
    ensures { option_map (λ text. text.now) result ≡ spec.text_of_body body.now }
{
    if body.is_empty() {
        return None;
    }
    let text = &body[..body.len() - 1];
    if body[body.len() - 1] != 0 {
        return None;
    }
    if has_zero(text) {
        return None;
    }
    Some(text)
}

/// The module that a body tells of.
#[tactic(auto, unfolding(crate::specs::Bodies::module_of))]
pub(crate) fn module_of<A: Allocator>(
    alloc: A,
    at: u64,
    body: &[u8],
) -> Result<Module<A>, InfoFault>
    ensures { MatchesReading (λ m. m) result (or_bad at (spec.module_of body.now)) }
{
    if body.len() < 8 {
        return Err(InfoFault::BadTag(at));
    }
    let mod_start = word(body);
    let mod_end = word(&body[4..]);
    if mod_end < mod_start {
        return Err(InfoFault::BadTag(at));
    }
    let Some(line) = text_of(&body[8..]) else {
        return Err(InfoFault::BadTag(at));
    };
    Ok(Module {
        mod_start,
        mod_end,
        line: Bytes::copy(alloc, line)?,
    })
}

/// The sizes of memory in a body.
#[tactic(auto, unfolding(crate::specs::Bodies::memory_of))]
pub(crate) fn memory_of(body: &[u8]) -> Option<(u32, u32)>
    ensures { result ≡ spec.memory_of body.now }
{
    if body.len() != 8 {
        return None;
    }
    let mem_lower = word(body);
    if mem_lower as u64 > MAX_LOW_KIB {
        return None;
    }
    Some((mem_lower, word(&body[4..])))
}

/// The entry of the memory map that bytes begin with.
#[tactic(auto, unfolding(crate::specs::Bodies::run_of))]
fn run_of(bytes: &[u8]) -> Option<Region>
    requires { map_entry_size ≤ length bytes.now }
    ensures { result ≡ spec.run_of bytes.now }
{
    let base = long(bytes);
    let length = long(&bytes[8..]);
    if base as u128 + length as u128 > MAX_REGION_END as u128 {
        return None;
    }
    if word(&bytes[20..]) != 0 {
        return None;
    }
    let kind = Kind::from_number(word(&bytes[16..]))?;
    Some(Region { base, length, kind })
}

/// The entries of a memory map, one after the other.
fn runs_of<A: Allocator>(alloc: A, at: u64, bytes: &[u8]) -> Result<Vec<Region, A>, InfoFault>
    requires { length bytes.now % map_entry_size ≡ 0 }
    ensures { MatchesReading (λ runs. runs.items) result
        (or_bad at (spec.runs_of (length bytes.now / map_entry_size) bytes.now)) }
{
    let mut runs = Vec::new(alloc);
    let count = bytes.len() / ENTRY_SIZE as usize;
    for i in 0..count {
        let Some(run) = run_of(&bytes[ENTRY_SIZE as usize * i..]) else {
            return Err(InfoFault::BadTag(at));
        };
        runs.push(run)?;
    }
    Ok(runs)
}

/// The memory map in a body.
#[tactic(auto, unfolding(crate::specs::Bodies::map_of))]
pub(crate) fn map_of<A: Allocator>(
    alloc: A,
    at: u64,
    body: &[u8],
) -> Result<Vec<Region, A>, InfoFault>
    ensures { MatchesReading (λ runs. runs.items) result (or_bad at (spec.map_of body.now)) }
{
    if body.len() < 8 {
        return Err(InfoFault::BadTag(at));
    }
    if word(body) != ENTRY_SIZE {
        return Err(InfoFault::BadTag(at));
    }
    if word(&body[4..]) != 0 {
        return Err(InfoFault::BadTag(at));
    }
    if (body.len() - 8) % ENTRY_SIZE as usize != 0 {
        return Err(InfoFault::BadTag(at));
    }
    runs_of(alloc, at, &body[8..])
}

/// The load base in a body.
#[tactic(auto, unfolding(crate::specs::Bodies::load_base_of))]
pub(crate) fn load_base_of(body: &[u8]) -> Option<u32>
    ensures { result ≡ spec.load_base_of body.now }
{
    if body.len() != 4 {
        return None;
    }
    Some(word(body))
}
