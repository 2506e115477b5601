//! The address tag: what it asks to be loaded.

ghost use Rattle.std.specs.Prelude.{◌≡◌, ◌≤◌, ◌<◌, ◌+◌, ◌^◌, max, Some, None, length, true, false};
ghost use Rattle.std.specs.Prelude.{MatchResult, MatchOption, IfOk, IfSome};
ghost use Rattle.bl_mb2head.specs.Address as tags;
ghost use Rattle.bl_mb2head.specs.Address.{address_tag_at, address_fault, address_segment};
ghost use Rattle.bl_mb2head.specs.Header.{SegmentFitsFile};

use crate::fault::HeadFault;
use crate::fields::{
    ADDRESS_SIZE, BSS_END_ADDR, HEADER_ADDR, LOAD_ADDR, LOAD_END_ADDR, SEARCH_END, WHOLE_FILE,
};
use crate::tag::Tag;
use bl_mem::{ByteView, Segment, u32_at};

/// The fields of an address tag (Multiboot2 2.0, "3.1.5 The address tag of Multiboot2 header").
#[derive(Clone, Copy)]
pub struct AddressTag {
    pub header_addr: u32,
    pub load_addr: u32,
    pub load_end_addr: u32,
    pub bss_end_addr: u32,
}

impl AddressTag {
    /// The fields of the tag at a place.
    fn read<V: ByteView>(view: &V, at: u64) -> AddressTag
        requires in_file { at + ADDRESS_SIZE ≤ length (V.bytes view.now) }
        requires in_front { at ≤ SEARCH_END }
        ensures { result ≡ address_tag_at (V.bytes view.now) at }
    {
        AddressTag {
            header_addr: u32_at(view, at + HEADER_ADDR),
            load_addr: u32_at(view, at + LOAD_ADDR),
            load_end_addr: u32_at(view, at + LOAD_END_ADDR),
            bss_end_addr: u32_at(view, at + BSS_END_ADDR),
        }
    }

    /// Whether the file is loaded from its start on.
    fn loads_from_start(self) -> bool
        ensures { result ≡ tags.loads_from_start self }
    {
        self.load_addr == WHOLE_FILE
    }

    /// Whether the file's start, or its first byte that is loaded, would lie below 0.
    fn has_bad_start(self, place: u64) -> bool
        ensures { result ≡ tags.has_bad_start place self }
    {
        if self.loads_from_start() {
            return (self.header_addr as u64) < place;
        }
        self.header_addr < self.load_addr || place < (self.header_addr - self.load_addr) as u64
    }

    /// Where the first byte that is loaded comes to stand.
    fn address(self, place: u64) -> u64
        requires { tags.has_bad_start place self ≡ false }
        ensures { result ≡ tags.load_address_of place self }
    {
        if self.loads_from_start() {
            return self.header_addr as u64 - place;
        }
        self.load_addr as u64
    }

    /// Where the first byte that is loaded stands in the file.
    fn offset(self, place: u64) -> u64
        requires { tags.has_bad_start place self ≡ false }
        ensures { result ≡ tags.offset_of place self }
    {
        if self.loads_from_start() {
            return 0;
        }
        place - (self.header_addr - self.load_addr) as u64
    }

    /// Whether the file's part ends before it begins.
    fn has_bad_load_end(self, place: u64) -> bool
        requires { tags.has_bad_start place self ≡ false }
        ensures { result ≡ tags.has_bad_load_end place self }
    {
        self.load_end_addr != 0 && (self.load_end_addr as u64) < self.address(place)
    }

    /// How many bytes of the file are loaded.
    fn filesz(self, size: u64, place: u64) -> u64
        requires in_file { place ≤ size }
        requires start { tags.has_bad_start place self ≡ false }
        requires load_end { tags.has_bad_load_end place self ≡ false }
        ensures { result ≡ tags.filesz_of size place self }
    {
        if self.load_end_addr == 0 {
            return size - self.offset(place);
        }
        self.load_end_addr as u64 - self.address(place)
    }

    /// What is loaded from a file of `size` bytes with its header at `place`, or nothing where the
    /// file can't give it.
    #[tactic(auto, unfolding(crate::specs::Address::is_bad_address))]
    fn segment(self, size: u64, place: u64) -> Option<Segment>
        requires in_file { place ≤ size }
        ensures exact { MatchOption result
            (tags.is_bad_address size place self ≡ true)
            (λ segment. (tags.is_bad_address size place self ≡ false)
            × (segment ≡ tags.segment_by_tag size place self)) }
        ensures fits { IfSome result (λ segment.
            (segment.filesz ≤ segment.memsz) × (segment.offset + segment.filesz ≤ size)
            × (segment.address < 2 ^ 32) × (segment.memsz ≤ max (2 ^ 32) size)) }
    {
        if self.has_bad_start(place) || self.has_bad_load_end(place) {
            return None;
        }
        let offset = self.offset(place);
        let address = self.address(place);
        let filesz = self.filesz(size, place);
        if size - offset < filesz {
            return None;
        }
        let mut memsz = filesz;
        if self.bss_end_addr != 0 {
            memsz = (self.bss_end_addr as u64).checked_sub(address)?;
        }
        if memsz < filesz {
            return None;
        }
        Some(Segment {
            offset,
            address,
            filesz,
            memsz,
        })
    }
}

/// The segment of the address tag that counts, if there is one, or that tag's fault.
pub fn address_segment<V: ByteView>(
    view: &V,
    place: u64,
    tag: Option<Tag>,
) -> Result<Option<Segment>, HeadFault>
    requires place { place ≤ length (V.bytes view.now) }
    requires in_file { IfSome tag (λ t. t.place + ADDRESS_SIZE ≤ length (V.bytes view.now)) }
    requires in_front { IfSome tag (λ t. t.place + ADDRESS_SIZE ≤ SEARCH_END) }
    ensures exact { MatchResult result
        (λ segment. (address_fault (V.bytes view.now) place tag ≡ None)
        × (segment ≡ address_segment (V.bytes view.now) place tag))
        (λ fault. address_fault (V.bytes view.now) place tag ≡ Some fault) }
    ensures fits { IfOk result (λ segment. IfSome segment (SegmentFitsFile (V.bytes view.now))) }
{
    let Some(tag) = tag else {
        return Ok(None);
    };
    match AddressTag::read(view, tag.place).segment(view.len(), place) {
        Some(segment) => Ok(Some(segment)),
        None => Err(HeadFault::BadTag(tag.place)),
    }
}
