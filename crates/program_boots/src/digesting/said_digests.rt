//! What is said of a boot, and of its digests.
ghost use Rattle.std.specs.Prelude.{◌≡◌, ◌++◌, OnOk, OnErr};
ghost use Rattle.bl_digest.specs.Digests.{digests_of};
ghost use Rattle.program_boots.specs.BootLines.{boot_lines};
ghost use Rattle.program_say.specs.DigestLines.{digest_lines};

use bl_digest::{Digests, digest_image};
use bl_image::Image;
use bl_session::RefusedEntry;
use program_say::{say_booted, say_digests, say_refusals};
use std::alloc::{AllocError, Allocator};

/// Appends the lines of digests. An error leaves the text as it was.
fn say_table<A: Allocator + Copy, B: Allocator>(
    alloc: A,
    digests: &Digests<A>,
    say: &mut Vec<u8, B>,
) -> Result<(), AllocError>
    ensures ok { OnOk result (say.new.items ≡ say.old.items ++ digest_lines digests.now) }
    ensures err { OnErr result (say.new.items ≡ say.old.items) }
{
    let mut lines = Vec::new(alloc);
    say_digests(&mut lines, digests)?;
    say.extend_from_slice(&lines)
}

/// Appends the lines of the digests of an image. An error leaves the text as it was.
pub fn say_image<A: Allocator + Copy, B: Allocator>(
    alloc: A,
    image: &Image<A>,
    say: &mut Vec<u8, B>,
) -> Result<(), AllocError>
    ensures ok { OnOk result (say.new.items
        ≡ say.old.items ++ digest_lines (digests_of image.now)) }
    ensures err { OnErr result (say.new.items ≡ say.old.items) }
{
    let digests = digest_image(alloc, image)?;
    say_table(alloc, &digests, say)
}

/// Appends the lines of an entry that would be booted after these refusals, and of the digests of
/// its image. An error leaves the text as it was.
pub fn say_digested<A: Allocator + Copy, B: Allocator>(
    alloc: A,
    refused: &[RefusedEntry],
    entry: u32,
    title: &str,
    digests: &Digests<A>,
    say: &mut Vec<u8, B>,
) -> Result<(), AllocError>
    ensures ok { OnOk result (say.new.items ≡ say.old.items
        ++ (boot_lines refused.now entry title.now ++ digest_lines digests.now)) }
    ensures err { OnErr result (say.new.items ≡ say.old.items) }
{
    let mut lines = Vec::new(alloc);
    say_refusals(&mut lines, refused)?;
    say_booted(&mut lines, entry as u64, title)?;
    say_digests(&mut lines, digests)?;
    say.extend_from_slice(&lines)
}
