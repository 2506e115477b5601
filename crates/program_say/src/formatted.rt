//! Values, appended as text.
ghost use Rattle.std.specs.Prelude.{◌≡◌, ◌++◌, OnOk, OnErr};
ghost use Rattle.std.specs.Fmt.{AppendsText};
ghost use Rattle.hex.specs.Hex.{encode_lower};

use std::alloc::{AllocError, Allocator};
use std::fmt::Display;

/// Appends what a value shows of itself. It is a function of its own, so that the calls of `say!`
/// have no text to drop.
pub fn say_shown<A: Allocator + Copy, D: Display + Drop>(
    out: &mut Vec<u8, A>,
    value: D,
) -> Result<(), AllocError>
    ensures ok { OnOk result (AppendsText out.old.items out.new.items (D.output value)) }
    ensures err { OnErr result (out.new.items ≡ out.old.items) }
{
    let text = String::format(*out.allocator(), value)?;
    out.extend_from_slice(text.as_bytes())
}

/// Appends bytes as lower-case hexadecimal digits.
pub fn say_digits<A: Allocator + Copy>(out: &mut Vec<u8, A>, bytes: &[u8]) -> Result<(), AllocError>
    ensures { OnOk result (out.new.items ≡ out.old.items ++ encode_lower bytes.now) }
{
    let digits = hex::encode(*out.allocator(), bytes)?;
    out.extend_from_slice(digits.as_bytes())
}

/// Appends a text, formatted as by `format!`, to a vector of bytes.
#[macro_export]
macro_rules! say {
    ($out:expr, $($text:tt)+) => {
        $crate::formatted::say_shown($out, format_args!($($text)+))
    };
}
