//! Whether a kernel has a console.

ghost use Rattle.std.specs.Prelude.{◌≡◌, ◌≤◌, ◌+◌, length};
ghost use Rattle.bl_mb2head.specs.Header as header;
ghost use Rattle.bl_mb2head.specs.Header.{tags_end};
ghost use Rattle.bl_mb2head.specs.Tags as tags;

use crate::fields::{SEARCH_END, TAG_END, TAG_FRAMEBUFFER, TAGS};
use crate::tag::{next_tag_place, well_formed_tag};
use bl_mem::ByteView;

/// Whether a framebuffer tag is one of the tags from `start` on, as far as they can be followed.
fn has_framebuffer_tag<V: ByteView>(view: &V, start: u64, end: u64) -> bool
    requires in_file { end ≤ length (V.bytes view.now) }
    requires in_front { end ≤ SEARCH_END }
    requires in_order { start ≤ end }
    ensures { result ≡ tags.has_framebuffer_tag (V.bytes view.now) end end start }
{
    let mut at = start;
    loop {
        let Some(tag) = well_formed_tag(view, at, end) else {
            return false;
        };
        if tag.kind == TAG_END {
            return false;
        }
        if tag.kind == TAG_FRAMEBUFFER {
            return true;
        }
        at = next_tag_place(tag);
    }
}

/// Whether the kernel whose header stands at `place`, and ends at `end`, has a console: a screen
/// that is there, and that its header knows of.
pub fn has_console<V: ByteView>(view: &V, has_screen: bool, place: u64, end: u64) -> bool
    requires in_file { end ≤ length (V.bytes view.now) }
    requires in_front { end ≤ SEARCH_END }
    requires in_order { place + TAGS ≤ end }
    requires ends { end ≡ tags_end (V.bytes view.now) place }
    ensures { result ≡ header.has_console has_screen (V.bytes view.now) place }
{
    if !has_screen {
        return false;
    }
    has_framebuffer_tag(view, place + TAGS, end)
}
