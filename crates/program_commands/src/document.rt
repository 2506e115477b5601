//! The bytes of a description.
ghost use Rattle.std.specs.Prelude.{IfOk};
ghost use Rattle.program_desc.specs.Described as spec;
ghost use Rattle.program_desc.specs.Views.{AnswersAs, HasMenu, view};

use program_desc::{DescFault, Description, TableFault, described_in};
use std::alloc::{Allocator, Global};

/// What these bytes describe. They are a bad description where they are not UTF-8, where the text
/// is not TOML, where a key is unknown, missing or of another type, and where a value is not
/// allowed.
///
/// `global` is what reading takes its memory from; the description is made in `alloc`.
#[tactic(auto, unfolding(program_desc::specs::Described::described))]
pub fn read_description<A: Allocator + Copy>(
    alloc: A,
    global: Global,
    bytes: &[u8],
) -> Result<Description<A>, DescFault>
    ensures given { AnswersAs view result (spec.described bytes.now) }
    ensures menu { IfOk result HasMenu }
{
    let Ok(text) = std::str::from_utf8(bytes) else {
        return Err(DescFault::BadDescription);
    };
    match toml::table_from_str(global, text) {
        Ok(table) => match described_in(alloc, global, &table) {
            Ok(description) => Ok(description),
            Err(TableFault::BadKey(_)) => Err(DescFault::BadDescription),
            Err(TableFault::NoMemory) => Err(DescFault::NoMemory),
        },
        Err(e) => {
            if e.is_memory() {
                Err(DescFault::NoMemory)
            } else {
                Err(DescFault::BadDescription)
            }
        }
    }
}
