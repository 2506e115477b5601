//! An address, within a line.
ghost use Rattle.std.specs.Prelude.{◌≡◌, ◌++◌, OnOk};
ghost use Rattle.program_say.specs.Addresses.{address_words};

use crate::say;
use std::alloc::{AllocError, Allocator};

/// Appends an address between two texts.
pub fn say_address<A: Allocator + Copy>(
    out: &mut Vec<u8, A>,
    before: &str,
    address: u64,
    behind: &str,
) -> Result<(), AllocError>
    ensures { OnOk result (out.new.items ≡ out.old.items
        ++ address_words before.now address behind.now) }
{
    say!(out, "{before}{address:08x}{behind}")
}
