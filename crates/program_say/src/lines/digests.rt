//! The digests of an image and of its parts, line by line.
ghost use Rattle.std.specs.Prelude.{◌≡◌, ◌++◌, OnOk, IfOk, decimal, string_bytes};
ghost use Rattle.std.specs.List.{flat_map};
ghost use Rattle.program_say.specs.Addresses.{hex8};
ghost use Rattle.program_say.specs.DigestLines as says;
ghost use Rattle.program_say.specs.DigestLines.{at_right, part_digest_line};

use crate::formatted::say_digits;
use crate::lines::fields::{say_at_left, say_at_right};
use crate::lines::part_names::part_name;
use bl_digest::{Digests, PartDigest};
use std::alloc::{AllocError, Allocator};

/// Appends a number at the right of a field of ten.
fn say_count<A: Allocator + Copy>(out: &mut Vec<u8, A>, count: u64) -> Result<(), AllocError>
    ensures { OnOk result (out.new.items ≡ out.old.items ++ at_right 10 (decimal count)) }
{
    let count = format!(in *out.allocator(); "{count}")?;
    say_at_right(out, 10, count.as_bytes())
}

/// Appends the fields of a number of bytes and of their digest, and the line's end.
#[tactic(auto, unfolding(crate::specs::DigestLines::bytes_words))]
fn say_bytes<A: Allocator + Copy>(
    out: &mut Vec<u8, A>,
    count: u64,
    digest: &[u8; 32],
) -> Result<(), AllocError>
    ensures { OnOk result (out.new.items ≡ out.old.items ++ says.bytes_words count digest.now) }
{
    say_count(out, count)?;
    out.extend_from_slice(b" ")?;
    say_digits(out, digest)?;
    out.extend_from_slice(b"\n")
}

/// Appends a line: a name, an index and an address as words, a number of bytes, their digest.
#[tactic(auto, unfolding(crate::specs::DigestLines::digest_line))]
fn say_digest<A: Allocator + Copy>(
    out: &mut Vec<u8, A>,
    name: &str,
    index: &str,
    address: &str,
    count: u64,
    digest: &[u8; 32],
) -> Result<(), AllocError>
    ensures { OnOk result (out.new.items ≡ out.old.items
        ++ says.digest_line name.now index.now address.now count digest.now) }
{
    say_at_left(out, 11, name.as_bytes())?;
    out.extend_from_slice(b" ")?;
    say_at_right(out, 5, index.as_bytes())?;
    out.extend_from_slice(b" ")?;
    say_at_right(out, 8, address.as_bytes())?;
    out.extend_from_slice(b" ")?;
    say_bytes(out, count, digest)
}

/// An address as a word.
fn address_word<A: Allocator>(alloc: A, address: u64) -> Result<String<A>, AllocError>
    ensures { IfOk result (λ word. string_bytes word ≡ hex8 address) }
{
    let word = format!(in alloc; "{address:08x}")?;
    Ok(word)
}

/// Appends the line of a part.
#[tactic(auto, unfolding(crate::specs::DigestLines::part_digest_line))]
fn say_part_digest<A: Allocator + Copy>(
    out: &mut Vec<u8, A>,
    part: &PartDigest,
) -> Result<(), AllocError>
    ensures { OnOk result (out.new.items ≡ out.old.items ++ says.part_digest_line part.now) }
{
    let alloc = *out.allocator();
    let place = part.place;
    let address = address_word(alloc, place.address)?;
    let number = place.index;
    let index = format!(in alloc; "{number}")?;
    let name = part_name(place.role);
    say_digest(out, name, &index, &address, place.length, &part.sha256)
}

fn say_part_digests<A: Allocator + Copy>(
    out: &mut Vec<u8, A>,
    parts: &[PartDigest],
) -> Result<(), AllocError>
    ensures { OnOk result (out.new.items ≡ out.old.items ++ flat_map part_digest_line parts.now) }
{
    for part in parts {
        say_part_digest(out, part)?;
    }
    Ok(())
}

/// Appends the lines of an image's digests: of the image, of its head with the records, and of each
/// part in address order.
#[tactic(auto, unfolding(crate::specs::DigestLines::digest_lines))]
pub fn say_digests<A: Allocator, B: Allocator + Copy>(
    lines: &mut Vec<u8, B>,
    digests: &Digests<A>,
) -> Result<(), AllocError>
    ensures { OnOk result (lines.new.items ≡ lines.old.items ++ says.digest_lines digests.now) }
{
    let image = digests.image();
    say_digest(lines, "image", "-", "-", image.length, &image.sha256)?;
    let front = &image.front_sha256;
    say_digest(lines, "head", "-", "-", image.front_length, front)?;
    say_part_digests(lines, digests.parts())
}
