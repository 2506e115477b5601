//! Words in fields, as a table has them.
ghost use Rattle.std.specs.Prelude.{◌≡◌, ◌++◌, OnOk, replicate};
ghost use Rattle.program_say.specs.DigestLines as says;

use std::alloc::{AllocError, Allocator};

/// Appends so many blanks.
fn say_blanks<A: Allocator>(out: &mut Vec<u8, A>, count: usize) -> Result<(), AllocError>
    ensures { OnOk result (out.new.items ≡ out.old.items ++ replicate count 32) }
{
    for _step in 0..count {
        out.extend_from_slice(b" ")?;
    }
    Ok(())
}

/// Appends a word at the left of a field of this width.
#[tactic(auto, unfolding(crate::specs::DigestLines::at_left))]
pub fn say_at_left<A: Allocator>(
    out: &mut Vec<u8, A>,
    width: usize,
    word: &[u8],
) -> Result<(), AllocError>
    ensures { OnOk result (out.new.items ≡ out.old.items ++ says.at_left width word.now) }
{
    out.extend_from_slice(word)?;
    say_blanks(out, width.saturating_sub(word.len()))
}

/// Appends a word at the right of a field of this width.
#[tactic(auto, unfolding(crate::specs::DigestLines::at_right))]
pub fn say_at_right<A: Allocator>(
    out: &mut Vec<u8, A>,
    width: usize,
    word: &[u8],
) -> Result<(), AllocError>
    ensures { OnOk result (out.new.items ≡ out.old.items ++ says.at_right width word.now) }
{
    say_blanks(out, width.saturating_sub(word.len()))?;
    out.extend_from_slice(word)
}
