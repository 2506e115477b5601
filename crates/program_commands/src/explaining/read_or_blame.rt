//! A description is read, or it is told why not.
ghost use Rattle.std.specs.Prelude.{◌≡◌, true, None};
ghost use Rattle.std.specs.Str.{is_utf8};
ghost use Rattle.toml.specs.Errors.{IsMemory, IsWithin};
ghost use Rattle.toml.specs.Parse.{parse_document};
ghost use Rattle.program_commands.specs.internal.Readings.{IsReadBlame, IsReadOrBlamed};

use crate::explaining::machine_blame::blamed;
use program_boots::text_place;
use program_desc::{DescFault, Description, TableFault, described_in};
use program_say::Blame;
use std::alloc::{Allocator, Global};

/// Tells what an error of toml's tells of a text that is UTF-8.
fn say_toml_blame<A: Allocator + Copy, B: Allocator>(
    alloc: A,
    text: &str,
    error: &toml::de::Error,
    say: &mut Vec<u8, B>,
) -> DescFault
    requires text { is_utf8 text.now ≡ true }
    requires within { IsWithin text.now error.now }
    requires refused { ¬ IsMemory error.now → parse_document text.now ≡ None }
    ensures { IsReadBlame text.now say.old.items say.new.items result }
{
    match error.span() {
        Some(range) => {
            let desc = text.as_bytes();
            let place = text_place(&desc[..range.start]);
            blamed(alloc, desc, &Blame::NotToml(place), None, say)
        }
        None => DescFault::NoMemory,
    }
}

/// What a text describes, or what is wrong with it, which is told.
fn read_text_or_blame<A: Allocator + Copy, B: Allocator>(
    alloc: A,
    global: Global,
    text: &str,
    say: &mut Vec<u8, B>,
) -> Result<Description<A>, DescFault>
    requires { is_utf8 text.now ≡ true }
    ensures { IsReadOrBlamed text.now say.old.items say.new.items result }
{
    let table = match toml::table_from_str(global, text) {
        Ok(table) => table,
        Err(error) => return Err(say_toml_blame(alloc, text, &error, say)),
    };
    match described_in(alloc, global, &table) {
        Ok(description) => Ok(description),
        Err(TableFault::BadKey(bad)) => {
            let desc = text.as_bytes();
            Err(blamed(alloc, desc, &Blame::BadKey(bad), None, say))
        }
        Err(TableFault::NoMemory) => Err(DescFault::NoMemory),
    }
}

/// What these bytes describe, or why they describe nothing, which is told.
pub fn read_or_blame<A: Allocator + Copy, B: Allocator>(
    alloc: A,
    global: Global,
    desc: &[u8],
    say: &mut Vec<u8, B>,
) -> Result<Description<A>, DescFault>
    ensures { IsReadOrBlamed desc.now say.old.items say.new.items result }
{
    match std::str::from_utf8(desc) {
        Ok(text) => read_text_or_blame(alloc, global, text, say),
        Err(_) => Err(blamed(alloc, desc, &Blame::NotUtf8, None, say)),
    }
}
