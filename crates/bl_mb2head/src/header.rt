//! The whole header.

ghost use Rattle.std.specs.Prelude.{◌≡◌, ◌+◌, ◌≤◌, ◌<◌, ◌^◌, Bool, false, length, IfOk, IfErr};
ghost use Rattle.std.specs.Prelude.{IfSome};
ghost use Rattle.bl_mb2head.specs.Header as header;
ghost use Rattle.bl_mb2head.specs.Header.{IsHeader, BeginsAt, HasFirstHeadFault, is_cut};
ghost use Rattle.bl_mb2head.specs.Header.{SegmentFitsFile};

use crate::address::address_segment;
use crate::console::has_console;
use crate::fault::HeadFault;
use crate::fields::{
    ARCHITECTURE, ENTRY_ADDR, ENTRY_SIZE, HEADER_LENGTH, I386, MIN_LENGTH, SEARCH_END, TAGS,
};
use crate::header_place::find_header_place;
use crate::last_tags::last_tags;
use crate::relocation::{Relocation, relocation_of};
use crate::tag::Tag;
use bl_mem::{ByteView, Segment, u32_at};

/// What a kernel's header says (Multiboot2 2.0, "3.1 OS image format").
#[derive(Clone, Copy, Debug, PartialEq, Eq)]
pub struct Header {
    /// Where the header stands in the file.
    pub place: u64,
    /// What the last address tag asks to be loaded, which then holds in place of an ELF header.
    pub segment: Option<Segment>,
    /// The physical address of the last entry address tag, below 2^32.
    pub entry: Option<u64>,
    /// Where the image may be moved to, by the last relocatable tag.
    pub relocation: Option<Relocation>,
}

/// Whether the header at a place has no room for its last tag, or does not lie where it must.
fn is_cut<V: ByteView>(view: &V, place: u64) -> bool
    requires in_file { place + TAGS ≤ length (V.bytes view.now) }
    requires in_front { place ≤ SEARCH_END }
    ensures { result ≡ is_cut (V.bytes view.now) place }
{
    let header_length = u32_at(view, place + HEADER_LENGTH) as u64;
    let end = place + header_length;
    header_length < MIN_LENGTH || view.len() < end || SEARCH_END < end
}

/// The place of the file's header, or what is wrong with it before its tags.
fn checked_place<V: ByteView>(view: &V) -> Result<u64, HeadFault>
    ensures begins { IfOk result (BeginsAt (V.bytes view.now)) }
    ensures first_fault { IfErr result (λ fault. (has_screen : Bool)
        → HasFirstHeadFault has_screen (V.bytes view.now) fault) }
{
    let Some(place) = find_header_place(view) else {
        return Err(HeadFault::NoHeader);
    };
    if is_cut(view, place) {
        return Err(HeadFault::HeaderCut);
    }
    if u32_at(view, place + ARCHITECTURE) != I386 {
        return Err(HeadFault::BadArchitecture);
    }
    Ok(place)
}

/// The address of the entry address tag that counts.
fn entry_address_of<V: ByteView>(view: &V, tag: Option<Tag>) -> Option<u64>
    requires in_file { IfSome tag (λ t. t.place + ENTRY_SIZE ≤ length (V.bytes view.now)) }
    requires in_front { IfSome tag (λ t. t.place + ENTRY_SIZE ≤ SEARCH_END) }
    ensures exact { result ≡ header.entry_address_of (V.bytes view.now) tag }
    ensures below { IfSome result (λ entry. entry < 2 ^ 32) }
{
    let tag = tag?;
    Some(u32_at(view, tag.place + ENTRY_ADDR) as u64)
}

/// The header of a file of any length, or the file's first fault (Multiboot2 2.0, "3.1 OS image
/// format"). It takes no memory. Of several address, entry address or relocatable tags the last one
/// counts. What the last address tag asks is judged after all tags: where the file can't give it,
/// the fault is `BadTag` of that tag's offset, and comes only if no tag has a fault of its own.
///
/// If `has_screen`, there is a console for each kernel whose header has a framebuffer tag (3.1.10),
/// as far as its tags can be followed. Else there is none.
pub fn find_header_for<V: ByteView>(view: &V, has_screen: bool) -> Result<Header, HeadFault>
    ensures found { IfOk result (λ header. IsHeader has_screen (V.bytes view.now) header) }
    ensures first_fault { IfErr result (λ fault.
        HasFirstHeadFault has_screen (V.bytes view.now) fault) }
    ensures segment { IfOk result (λ header.
        IfSome header.segment (SegmentFitsFile (V.bytes view.now))) }
    ensures entry { IfOk result (λ header. IfSome header.entry (λ entry. entry < 2 ^ 32)) }
{
    let place = checked_place(view)?;
    let end = place + u32_at(view, place + HEADER_LENGTH) as u64;
    let console = has_console(view, has_screen, place, end);
    let last = last_tags(view, place + TAGS, end, console)?;
    Ok(Header {
        place,
        segment: address_segment(view, place, last.address)?,
        entry: entry_address_of(view, last.entry),
        relocation: relocation_of(view, last.relocation),
    })
}

/// The header of a file of any length, or the file's first fault, where there is no screen and so
/// no console: [`find_header_for`] says more.
pub fn find_header<V: ByteView>(view: &V) -> Result<Header, HeadFault>
    ensures found { IfOk result (λ header. IsHeader false (V.bytes view.now) header) }
    ensures first_fault { IfErr result (λ fault. HasFirstHeadFault false (V.bytes view.now) fault) }
    ensures segment { IfOk result (λ header.
        IfSome header.segment (SegmentFitsFile (V.bytes view.now))) }
    ensures entry { IfOk result (λ header. IfSome header.entry (λ entry. entry < 2 ^ 32)) }
{
    find_header_for(view, false)
}
