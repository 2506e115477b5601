//! The hint on a Linux kernel whose file was cut.
ghost use Rattle.std.specs.Prelude.{◌≡◌, ◌<◌, ◌^◌, length};
ghost use Rattle.bl_bzimage.specs.Setup.{IsSetup};
ghost use Rattle.program_say.specs.internal.CutKernels.{code_end};

use crate::lines::frames::say_counted;
use bl_bzimage::{Setup, read_setup};
use bl_mem::{SliceView, u32_at};
use std::alloc::{AllocError, Allocator};

/// Where `syssize` stands.
const SYSSIZE: u64 = 0x1F4;

/// Where the code of a kernel with this setup ends in its file, by its header.
fn end_of_code(view: &SliceView<'_>, setup: &Setup) -> u64
    requires setup { IsSetup view.now.bytes.now setup.now }
    requires short { length view.now.bytes.now < 2 ^ 63 }
    ensures { result ≡ code_end view.now.bytes.now }
{
    setup.payload_offset + u32_at(view, SYSSIZE) as u64 * 16
}

/// Appends the line on a file that was cut: how many bytes it has, and how many by its header.
fn say_cut_line<A: Allocator + Copy>(
    out: &mut Vec<u8, A>,
    entry: u32,
    count: u64,
    whole: u64,
) -> Result<(), AllocError> {
    say_counted(
        out,
        "hint: the kernel of entry ",
        entry as u64,
        " is cut: it has ",
    )?;
    say_counted(out, "", count, " of ")?;
    say_counted(out, "", whole, " bytes\n")
}

/// Appends the hint on a file of so many bytes, which by its header has `whole`, if it was cut.
fn say_short_hint<A: Allocator + Copy>(
    out: &mut Vec<u8, A>,
    entry: u32,
    count: u64,
    whole: u64,
) -> Result<(), AllocError>
    requires { count < 2 ^ 63 }
{
    if count + 16 < whole {
        return say_cut_line(out, entry, count, whole);
    }
    Ok(())
}

/// Appends the hint on the bytes of an entry's kernel, if they were cut.
pub fn say_cut_hint<A: Allocator + Copy>(
    out: &mut Vec<u8, A>,
    entry: u32,
    bytes: &[u8],
) -> Result<(), AllocError> {
    let view = SliceView::new(bytes);
    let Ok(setup) = read_setup(&view) else {
        return Ok(());
    };
    let count = bytes.len() as u64;
    let whole = end_of_code(&view, &setup);
    say_short_hint(out, entry, count, whole)
}
