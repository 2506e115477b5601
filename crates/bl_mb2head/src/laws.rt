//! Laws of the definitions: a file has one header or one first fault; its numbers fit.

ghost use Rattle.std.specs.Prelude.{◌≡◌, ◌<◌, ◌^◌, ◌⊎◌, ℕ, Bool, List, slice_index, IfSome};
ghost use Rattle.bl_mb2head.specs.declared.fault.HeadFault.{HeadFault};
ghost use Rattle.bl_mb2head.specs.declared.header.Header.{Header};
ghost use Rattle.bl_mb2head.specs.declared.tag.Tag.{Tag};
ghost use Rattle.bl_mb2head.specs.Header.{IsHeader, HasFirstHeadFault, SegmentFitsFile};
ghost use Rattle.bl_mb2head.specs.Tags.{AreAllTags, IsFirstTagFault};

/// Exactly one of these holds of a place, whether there is a console or not: the tags from it on
/// are one list, or one first fault stands among them. This holds for every list of numbers, be
/// they bytes or not.
pub fn tags_are_determined()
    ensures total { (has_console : Bool) (bytes : List ℕ) (end at : ℕ)
        → ((ts : List Tag) × AreAllTags has_console bytes end at ts)
        ⊎ ((fault : HeadFault) × IsFirstTagFault has_console bytes end at fault) }
    ensures one_list { (has_console : Bool) (bytes : List ℕ) (end at : ℕ) (ts us : List Tag)
        → AreAllTags has_console bytes end at ts → AreAllTags has_console bytes end at us
        → ts ≡ us }
    ensures one_fault { (has_console : Bool) (bytes : List ℕ) (end at : ℕ) (f g : HeadFault)
        → IsFirstTagFault has_console bytes end at f → IsFirstTagFault has_console bytes end at g
        → f ≡ g }
    ensures not_both { (has_console : Bool) (bytes : List ℕ) (end at : ℕ) (ts : List Tag)
        (f : HeadFault)
        → AreAllTags has_console bytes end at ts → IsFirstTagFault has_console bytes end at f → ⊥ }
{}

/// A file has exactly one of these, on a machine that has a screen as on one that has none: one
/// header, or one first fault. This holds for every list of numbers, be they bytes or not.
pub fn headers_are_determined()
    ensures total { (has_screen : Bool) (bytes : List ℕ)
        → ((header : Header) × IsHeader has_screen bytes header)
        ⊎ ((fault : HeadFault) × HasFirstHeadFault has_screen bytes fault) }
    ensures one_header { (has_screen : Bool) (bytes : List ℕ) (a b : Header)
        → IsHeader has_screen bytes a → IsHeader has_screen bytes b → a ≡ b }
    ensures one_fault { (has_screen : Bool) (bytes : List ℕ) (f g : HeadFault)
        → HasFirstHeadFault has_screen bytes f → HasFirstHeadFault has_screen bytes g → f ≡ g }
    ensures not_both { (has_screen : Bool) (bytes : List ℕ) (header : Header) (fault : HeadFault)
        → IsHeader has_screen bytes header → HasFirstHeadFault has_screen bytes fault → ⊥ }
{}

/// The numbers of a header stay small, where the bytes of its file are bytes.
pub fn headers_fit()
    ensures segment { (has_screen : Bool) (bytes : List ℕ) (header : Header)
        → ((k : ℕ) → slice_index bytes k < 256)
        → IsHeader has_screen bytes header → IfSome header.segment (SegmentFitsFile bytes) }
    ensures entry { (has_screen : Bool) (bytes : List ℕ) (header : Header)
        → ((k : ℕ) → slice_index bytes k < 256)
        → IsHeader has_screen bytes header → IfSome header.entry (λ entry. entry < 2 ^ 32) }
{}
