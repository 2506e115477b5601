//! One tag of a header, and what can be wrong with it.

ghost use Rattle.std.specs.Prelude.{◌≡◌, ◌≤◌, ◌+◌, ◌*◌, ◌==◌, if◌then◌else◌, true, false, Some};
ghost use Rattle.std.specs.Prelude.{None, length, IfOk, IfSome, not, MatchResult, MatchOption};
ghost use Rattle.std.specs.List.{find};
ghost use Rattle.bl_mb2head.specs.Tags as tags;
ghost use Rattle.bl_mb2head.specs.Tags.{tag_at, words_at, can_be_given, is_well_formed};
ghost use Rattle.bl_mb2head.specs.Tags.{tag_fault_at};

use crate::fault::HeadFault;
use crate::fields::{
    ADDRESS_SIZE, ALIGNMENT, BODY, CONSOLE_FLAGS, CONSOLE_REQUIRED, CONSOLE_SIZE, ELF_SYMBOLS,
    END_SIZE, ENTRY_SIZE, FIRST_INFORMATION, FLAGS, LAST_INFORMATION, LAST_TAG, OPTIONAL,
    RELOCATABLE_SIZE, SEARCH_END, SIZE, TAG_ADDRESS, TAG_CONSOLE, TAG_END, TAG_ENTRY,
    TAG_RELOCATABLE, TAG_REQUEST, WORD,
};
use bl_mem::{ByteView, u16_at, u32_at};

/// Where a tag stands, in bytes from the file's start, and its first 8 bytes (Multiboot2 2.0,
/// "3.1.3 General tag structure").
#[derive(Clone, Copy)]
pub struct Tag {
    pub place: u64,
    pub kind: u16,
    pub flags: u16,
    pub size: u32,
}

/// Where the tag after this one stands: padding is not part of its size.
pub fn next_tag_place(tag: Tag) -> u64
    requires in_front { tag.place + tag.size ≤ SEARCH_END }
    ensures { result ≡ tags.next_tag_place tag }
{
    (tag.place + tag.size as u64 + (ALIGNMENT - 1)) / ALIGNMENT * ALIGNMENT
}

/// The least size of a kind of tag.
fn least_size(kind: u16) -> u32
    ensures { result ≡ tags.min_tag_size kind }
{
    match kind {
        TAG_ADDRESS => ADDRESS_SIZE,
        TAG_ENTRY => ENTRY_SIZE,
        TAG_CONSOLE => CONSOLE_SIZE,
        TAG_RELOCATABLE => RELOCATABLE_SIZE,
        _ => END_SIZE,
    }
}

/// Whether information of this type can be given.
fn can_be_given(kind: u32) -> bool
    ensures { result ≡ tags.can_be_given kind }
{
    FIRST_INFORMATION <= kind && kind <= LAST_INFORMATION && kind != ELF_SYMBOLS
}

/// The first of `count` words from `at` on that names information which can't be given.
fn first_unsupported_word<V: ByteView>(view: &V, at: u64, count: u64) -> Option<u32>
    requires in_file { at + WORD * count ≤ length (V.bytes view.now) }
    requires in_front { at + WORD * count ≤ SEARCH_END }
    ensures { result
        ≡ find (λ kind. not (can_be_given kind)) (words_at (V.bytes view.now) at count) }
{
    for i in 0..count {
        let kind = u32_at(view, at + WORD * i);
        if !can_be_given(kind) {
            return Some(kind);
        }
    }
    None
}

/// The tag at a place, where it lies before `end` and has a size of its kind.
#[tactic(auto, unfolding(crate::specs::Tags::is_well_formed))]
pub fn well_formed_tag<V: ByteView>(view: &V, at: u64, end: u64) -> Option<Tag>
    requires in_file { end ≤ length (V.bytes view.now) }
    requires in_front { end ≤ SEARCH_END }
    requires in_reach { at ≤ end + ALIGNMENT }
    ensures fits { IfSome result (λ tag. (tag.place ≡ at) × (END_SIZE ≤ tag.size)
        × (tags.min_tag_size tag.kind ≤ tag.size) × (at + tag.size ≤ end)) }
    ensures exact { MatchOption result
        (is_well_formed (V.bytes view.now) end at ≡ false)
        (λ tag. (tag ≡ tag_at (V.bytes view.now) at)
        × (is_well_formed (V.bytes view.now) end at ≡ true)) }
{
    if at + BODY > end {
        return None;
    }
    let tag = Tag {
        place: at,
        kind: u16_at(view, at),
        flags: u16_at(view, at + FLAGS),
        size: u32_at(view, at + SIZE),
    };
    if at + tag.size as u64 > end || tag.size < least_size(tag.kind) {
        return None;
    }
    if tag.kind == TAG_END && tag.size != END_SIZE {
        return None;
    }
    Some(tag)
}

/// Whether a tag may be ignored.
fn is_optional(tag: Tag) -> bool
    ensures { result ≡ tags.is_optional tag }
{
    tag.flags & OPTIONAL != 0
}

/// What a request names first that can't be given. A tag of another kind requests nothing.
#[tactic(auto, unfolding(crate::specs::Tags::first_unsupported))]
fn unknown_request<V: ByteView>(view: &V, tag: Tag) -> Option<u32>
    requires whole { END_SIZE ≤ tag.size }
    requires in_file { tag.place + tag.size ≤ length (V.bytes view.now) }
    requires in_front { tag.place + tag.size ≤ SEARCH_END }
    ensures { result
        ≡ (if tag.kind == TAG_REQUEST then tags.first_unsupported (V.bytes view.now) tag
        else None) }
{
    if tag.kind != TAG_REQUEST {
        return None;
    }
    first_unsupported_word(view, tag.place + BODY, (tag.size as u64 - BODY) / WORD)
}

/// Whether a tag asks for a console.
fn wants_console<V: ByteView>(view: &V, tag: Tag) -> bool
    requires whole { tags.min_tag_size tag.kind ≤ tag.size }
    requires in_file { tag.place + tag.size ≤ length (V.bytes view.now) }
    requires in_front { tag.place + tag.size ≤ SEARCH_END }
    ensures { result ≡ tags.asks_for_console (V.bytes view.now) tag }
{
    tag.kind == TAG_CONSOLE && u32_at(view, tag.place + CONSOLE_FLAGS) & CONSOLE_REQUIRED != 0
}

/// The tag at a place, or its first fault.
#[tactic(auto, unfolding(crate::specs::Tags::tag_fault_at))]
pub fn checked_tag<V: ByteView>(
    view: &V,
    at: u64,
    end: u64,
    has_console: bool,
) -> Result<Tag, HeadFault>
    requires in_file { end ≤ length (V.bytes view.now) }
    requires in_front { end ≤ SEARCH_END }
    requires in_reach { at ≤ end + ALIGNMENT }
    ensures fits { IfOk result (λ tag. (tag.place ≡ at) × (END_SIZE ≤ tag.size)
        × (tags.min_tag_size tag.kind ≤ tag.size) × (at + tag.size ≤ end)) }
    ensures exact { MatchResult result
        (λ tag. (tag ≡ tag_at (V.bytes view.now) at)
        × (tag_fault_at has_console (V.bytes view.now) end at ≡ None))
        (λ fault. tag_fault_at has_console (V.bytes view.now) end at ≡ Some fault) }
{
    let Some(tag) = well_formed_tag(view, at, end) else {
        return Err(HeadFault::BadTag(at));
    };
    if is_optional(tag) {
        return Ok(tag);
    }
    if tag.kind > LAST_TAG {
        return Err(HeadFault::UnsupportedTag(tag.kind));
    }
    if let Some(kind) = unknown_request(view, tag) {
        return Err(HeadFault::UnsupportedRequest(kind));
    }
    if wants_console(view, tag) && !has_console {
        return Err(HeadFault::NoConsole);
    }
    Ok(tag)
}
