//! The tags one after the other: a cursor that keeps the last of each kind that counts.

ghost use Rattle.std.specs.Prelude.{◌≡◌, ◌≤◌, ◌+◌, ◌++◌, ◌∷◌, [], ℕ, List, length, IfOk, IfErr};
ghost use Rattle.bl_mb2head.specs.Tags as tags;
ghost use Rattle.bl_mb2head.specs.Tags.{AreAllTags, IsFirstTagFault};
ghost use Rattle.bl_mb2head.specs.internal.LastTags as kept;
ghost use Rattle.bl_mb2head.specs.internal.LastTags.{LieBefore};
ghost use Rattle.bl_mb2head.specs.declared.tag.Tag.{Tag};

use crate::fault::HeadFault;
use crate::fields::{SEARCH_END, TAG_ADDRESS, TAG_END, TAG_ENTRY, TAG_RELOCATABLE};
use crate::tag::{Tag, checked_tag, next_tag_place};
use bl_mem::ByteView;

/// The last tags of the kinds that count.
#[derive(Clone, Copy)]
pub struct LastTags {
    pub address: Option<Tag>,
    pub entry: Option<Tag>,
    pub relocation: Option<Tag>,
}

impl LastTags {
    /// The last tags after one more.
    fn with(self, tag: Tag) -> LastTags
        ensures last { (ts : List Tag) → self ≡ kept.last_tags ts
            → result ≡ kept.last_tags (ts ++ tag ∷ []) }
        ensures fits { (end : ℕ) → LieBefore end self → tags.min_tag_size tag.kind ≤ tag.size
            → tag.place + tag.size ≤ end → LieBefore end result }
    {
        match tag.kind {
            TAG_ADDRESS => LastTags {
                address: Some(tag),
                ..self
            },
            TAG_ENTRY => LastTags {
                entry: Some(tag),
                ..self
            },
            TAG_RELOCATABLE => LastTags {
                relocation: Some(tag),
                ..self
            },
            _ => self,
        }
    }
}

/// The last tags that count, from `start` to the tag of type 0 before `end`, or the fault of the
/// first tag that has one.
pub fn last_tags<V: ByteView>(
    view: &V,
    start: u64,
    end: u64,
    has_console: bool,
) -> Result<LastTags, HeadFault>
    requires in_file { end ≤ length (V.bytes view.now) }
    requires in_front { end ≤ SEARCH_END }
    requires in_order { start ≤ end }
    ensures fits { IfOk result (LieBefore end) }
    ensures last { IfOk result (λ last.
        (ts : List Tag) × AreAllTags has_console (V.bytes view.now) end start ts
        × (last ≡ kept.last_tags ts)) }
    ensures first_fault { IfErr result (λ fault. IsFirstTagFault has_console
        (V.bytes view.now) end start fault) }
{
    let mut at = start;
    let mut last = LastTags {
        address: None,
        entry: None,
        relocation: None,
    };
    loop {
        let tag = checked_tag(view, at, end, has_console)?;
        if tag.kind == TAG_END {
            return Ok(last);
        }
        last = last.with(tag);
        at = next_tag_place(tag);
    }
}
