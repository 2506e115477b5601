//! A number of sixteen hexadecimal digits, within a line.
ghost use Rattle.std.specs.Prelude.{◌≡◌, ◌++◌, OnOk};
ghost use Rattle.program_say.specs.BootAndMapLines.{hex16, hex16_between};

use crate::say;
use std::alloc::{AllocError, Allocator};

/// Appends a number of sixteen digits between two texts.
pub fn say_hex16<A: Allocator + Copy>(
    out: &mut Vec<u8, A>,
    before: &str,
    number: u64,
    behind: &str,
) -> Result<(), AllocError>
    ensures { OnOk result (out.new.items ≡ out.old.items
        ++ hex16_between before.now number behind.now) }
{
    say!(out, "{before}{number:016x}{behind}")
}

/// Appends a number of sixteen digits before a text.
#[tactic(auto, unfolding(crate::specs::BootAndMapLines::hex16_between))]
pub fn say_hex16_before<A: Allocator + Copy>(
    out: &mut Vec<u8, A>,
    number: u64,
    behind: &str,
) -> Result<(), AllocError>
    ensures { OnOk result (out.new.items ≡ out.old.items ++ hex16 number ++ behind.now) }
{
    say_hex16(out, "", number, behind)
}
