//! Why a description is a bad one, line by line, for a person.
ghost use Rattle.std.specs.Prelude.{◌≡◌, OnErr, OnOk};
ghost use Rattle.std.specs.Io.{StartsWith};

use crate::blame::bad_key::say_bad_key;
use crate::blame::map_faults::say_map_fault;
use crate::blame::pool_lines::say_pool_lines;
use crate::blame::radix_hints::{say_pool_hints, say_size_hint};
use crate::blame::word_hints::say_key_hint;
use crate::say;
use crate::subjects::{Blame, TextPlace};
use bl_map::MapFault;
use program_desc::Description;
use std::alloc::{AllocError, Allocator};

/// Appends where a text is not TOML.
fn say_place<A: Allocator + Copy>(
    out: &mut Vec<u8, A>,
    place: &TextPlace,
) -> Result<(), AllocError> {
    let line = place.line;
    let column = place.column;
    say!(out, "it is not TOML, at line {line}, column {column}")
}

fn say_words<A: Allocator + Copy>(
    out: &mut Vec<u8, A>,
    blame: &Blame<'_>,
) -> Result<(), AllocError> {
    match blame {
        Blame::NotUtf8 => out.extend_from_slice(b"it is not UTF-8"),
        Blame::NotToml(place) => say_place(out, place),
        Blame::BadKey(bad) => say_bad_key(out, bad),
        Blame::BadMachine(fault) => {
            out.extend_from_slice(b"machine ")?;
            say_map_fault(out, *fault)
        }
    }
}

/// Appends the line that tells why a description is a bad one.
fn say_line<A: Allocator + Copy>(
    out: &mut Vec<u8, A>,
    blame: &Blame<'_>,
) -> Result<(), AllocError> {
    out.extend_from_slice(b"bad description: ")?;
    say_words(out, blame)?;
    out.extend_from_slice(b"\n")
}

/// Appends what is told of a machine, behind its fault.
fn say_machine<A: Allocator + Copy, B: Allocator>(
    out: &mut Vec<u8, A>,
    fault: MapFault,
    description: &Description<B>,
) -> Result<(), AllocError> {
    match fault {
        MapFault::BadSize => say_size_hint(out, description.size),
        MapFault::BadPool => {
            say_pool_lines(out, description)?;
            say_pool_hints(out, description.size, &description.pool)
        }
        _ => Ok(()),
    }
}

/// Appends what is told behind a blame, by what is described.
fn say_behind<A: Allocator + Copy, B: Allocator>(
    out: &mut Vec<u8, A>,
    blame: &Blame<'_>,
    description: Option<&Description<B>>,
) -> Result<(), AllocError> {
    match blame {
        Blame::BadKey(bad) => say_key_hint(out, &bad.fault),
        Blame::BadMachine(fault) => match description {
            Some(description) => say_machine(out, *fault, description),
            None => Ok(()),
        },
        _ => Ok(()),
    }
}

/// Appends the lines that tell why a description is bad, where it describes this, if anything. They
/// are formed in `alloc` first, so that an error leaves the text as it was.
pub fn say_blame<A: Allocator + Copy, B: Allocator>(
    alloc: A,
    blame: &Blame<'_>,
    description: Option<&Description<A>>,
    out: &mut Vec<u8, B>,
) -> Result<(), AllocError>
    ensures ok { OnOk result (StartsWith out.new.items out.old.items) }
    ensures err { OnErr result (out.new.items ≡ out.old.items) }
{
    let mut lines = Vec::new(alloc);
    say_line(&mut lines, blame)?;
    say_behind(&mut lines, blame, description)?;
    out.extend_from_slice(&lines)
}
