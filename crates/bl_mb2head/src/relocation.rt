//! The relocatable tag: where the image may be moved to.
ghost use Rattle.std.specs.Prelude.{◌≡◌, ◌+◌, ◌≤◌, length, IfSome};
ghost use Rattle.bl_mb2head.specs.Header as header;

use crate::fields::{ALIGN, MAX_ADDR, MIN_ADDR, PREFERENCE, RELOCATABLE_SIZE, SEARCH_END};
use crate::tag::Tag;
use bl_mem::{ByteView, u32_at};

/// The fields of a relocatable tag as they stand in the file (Multiboot2 2.0, "3.1.13 Relocatable
/// header tag"). The first three count bytes of physical memory, and are not judged here.
///
/// The image may be moved to an address `a` that is a multiple of `align` (0 counts as 1), with
/// `min_addr <= a` and `a + length <= max_addr`, the image being `length` bytes long. So `max_addr`
/// is where the moved image has to end at the latest, its end not included. `preference` says which
/// of these addresses to take: 1 is the lowest, 2 the highest, and 0 is no preference. For any
/// other number the specification has no meaning.
#[derive(Clone, Copy, Debug, PartialEq, Eq)]
pub struct Relocation {
    pub min_addr: u32,
    pub max_addr: u32,
    pub align: u32,
    pub preference: u32,
}

/// What the relocatable tag that counts says.
pub fn relocation_of<V: ByteView>(view: &V, tag: Option<Tag>) -> Option<Relocation>
    requires in_file { IfSome tag (λ t. t.place + RELOCATABLE_SIZE ≤ length (V.bytes view.now)) }
    requires in_front { IfSome tag (λ t. t.place + RELOCATABLE_SIZE ≤ SEARCH_END) }
    ensures { result ≡ header.relocation_of (V.bytes view.now) tag }
{
    let tag = tag?;
    Some(Relocation {
        min_addr: u32_at(view, tag.place + MIN_ADDR),
        max_addr: u32_at(view, tag.place + MAX_ADDR),
        align: u32_at(view, tag.place + ALIGN),
        preference: u32_at(view, tag.place + PREFERENCE),
    })
}
