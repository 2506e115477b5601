//! The lines of an entry.
ghost use Rattle.std.specs.Prelude.{◌≡◌, ◌==◌, ◌∷◌};
ghost use Rattle.std.specs.List.{list_any};
ghost use Rattle.bl_load.specs.EntryValue.{line_fault, lines_fault};
ghost use Rattle.bl_load.specs.internal.Checks.{Tells};
ghost use Rattle.bl_load.specs.internal.Multiboot2Entries.{lines_of_modules};

use crate::entry::Module;
use crate::refusal::Refusal;
use bl_plan::MAX_LINE;
use std::alloc::Allocator;

/// Whether a line has a zero byte.
fn has_zero(line: &[u8]) -> bool
    ensures { result ≡ list_any (λ b. b == 0) line.now }
{
    line.iter().any(|byte| *byte == 0)
}

/// Checks a line: first for a zero byte, then its length.
#[tactic(auto, unfolding(crate::specs::EntryValue::line_fault))]
pub fn check_line(line: &[u8]) -> Result<(), Refusal>
    ensures { Tells result (line_fault line.now) }
{
    if has_zero(line) {
        return Err(Refusal::LineHasNul);
    }
    if line.len() > MAX_LINE {
        return Err(Refusal::LineTooLong);
    }
    Ok(())
}

/// Checks the lines of modules, one after the other.
fn check_module_lines<A: Allocator>(modules: &[Module<A>]) -> Result<(), Refusal>
    ensures { Tells result (lines_fault (lines_of_modules modules.now)) }
{
    for module in modules {
        check_line(module.line.as_slice())?;
    }
    Ok(())
}

/// Checks the lines of an entry: the kernel's, and then those of its modules.
pub fn check_lines<A: Allocator>(line: &[u8], modules: &[Module<A>]) -> Result<(), Refusal>
    ensures { Tells result (lines_fault (line.now ∷ lines_of_modules modules.now)) }
{
    check_line(line)?;
    check_module_lines(modules)
}
