//! A description's machine is made, or it is said why not.
ghost use Rattle.std.specs.Prelude.{◌≡◌, Some, option_map};
ghost use Rattle.program_desc.specs.Described.{described};
ghost use Rattle.program_desc.specs.Views.{view};
ghost use Rattle.program_commands.specs.explaining.BlameConditions.{TellsBlame};
ghost use Rattle.program_commands.specs.internal.Readings.{IsMachineOrBlamed, SaysMore};

use crate::described::make_machine;
use bl_map::{Machine, MapFault};
use program_desc::{DescFault, Description};
use program_say::{Blame, say_blame};
use std::alloc::Allocator;

/// Tells why these bytes are a bad description, where they describe this, if anything. An error
/// leaves what was said as it was. The bytes are there for the contract alone: the blame is theirs.
pub fn blamed<'a, A: Allocator + Copy, B: Allocator>(
    alloc: A,
    _desc: &[u8],
    blame: &'a Blame<'a>,
    description: Option<&'a Description<A>>,
    say: &mut Vec<u8, B>,
) -> DescFault
    requires { TellsBlame _desc.now blame.now (option_map (λ d. view d.now) description) }
    ensures { SaysMore say.old.items say.new.items result }
{
    match say_blame(alloc, blame, description, say) {
        Ok(()) => DescFault::BadDescription,
        Err(_) => DescFault::NoMemory,
    }
}

/// The machine of these bytes' description, or why there is none, which is told.
#[tactic(auto, using(crate::proofs::EndLemmas::tells_machine))]
pub fn machine_or_blame<A: Allocator + Copy, B: Allocator>(
    alloc: A,
    desc: &[u8],
    description: &Description<A>,
    say: &mut Vec<u8, B>,
) -> Result<Machine<A>, DescFault>
    requires { described desc.now ≡ Some (view description.now) }
    ensures { IsMachineOrBlamed (view description.now) say.old.items say.new.items result }
{
    match make_machine(alloc, description) {
        Ok(machine) => Ok(machine),
        Err(fault) => match fault {
            MapFault::NoMemory => Err(DescFault::NoMemory),
            _ => Err(blamed(
                alloc,
                desc,
                &Blame::BadMachine(fault),
                Some(description),
                say,
            )),
        },
    }
}
