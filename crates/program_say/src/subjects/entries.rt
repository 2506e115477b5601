//! The entries of a menu.
ghost use Rattle.std.specs.Prelude.{◌≡◌, option_map, slice_get};
ghost use Rattle.program_desc.specs.Views.{entry_view, view};

use program_desc::{Description, EntryRow};
use std::alloc::Allocator;

/// The entry of this index, if there is one.
pub fn entry_at<B: Allocator>(description: &Description<B>, index: u32) -> Option<&EntryRow<B>>
    ensures { option_map (λ entry. entry_view entry.now) result
        ≡ slice_get (view description.now).entries index }
{
    description.entries.get(index as usize)
}
