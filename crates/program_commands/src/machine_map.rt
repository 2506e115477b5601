//! The map of a description's machine, as it is said.
ghost use Rattle.std.specs.Prelude.{◌≡◌, ◌⊎◌};
ghost use Rattle.program_boots.specs.described.DescribedMachine.{IsBadDescription};
ghost use Rattle.program_commands.specs.MachineMap.{SaysMachineMap};
ghost use Rattle.program_commands.specs.internal.CallEnds.{MapEnds};

use crate::boot_end::EndFault;
use crate::described::read_machine;
use program_say::say_map;
use std::alloc::{Allocator, Global};

/// The same as `map_to`, with its end in place of the status.
fn run_map<A: Allocator + Copy, B: Allocator>(
    alloc: A,
    global: Global,
    desc: &[u8],
    say: &mut Vec<u8, B>,
) -> Result<(), EndFault>
    ensures { MapEnds desc.now say.old.items say.new.items result }
{
    let read = read_machine(alloc, global, desc)?;
    let machine = &read.machine;
    say_map(
        alloc,
        machine.normal(),
        machine.low_kib(),
        machine.high_kib(),
        &machine.pool(),
        say,
    )?;
    Ok(())
}

/// Appends the lines of the normal map of a description's machine to `say`.
///
/// The status is 0, 2 where the description is bad, which is where `boot` answers it, or 4 where
/// memory ran out; with 2 and 4 nothing is said. No file is asked for. `global` is what the TOML
/// reader takes its memory from.
pub fn map_to<A: Allocator + Copy, B: Allocator>(
    alloc: A,
    global: Global,
    desc: &[u8],
    say: &mut Vec<u8, B>,
) -> u8
    ensures status { (result ≡ 0) ⊎ (result ≡ 2) ⊎ (result ≡ 4) }
    ensures mapped { result ≡ 0 → SaysMachineMap desc.now say.old.items say.new.items }
    ensures described { result ≡ 2 → IsBadDescription desc.now × (say.new.items ≡ say.old.items) }
    ensures memory { result ≡ 4 → say.new.items ≡ say.old.items }
{
    match run_map(alloc, global, desc, say) {
        Ok(()) => 0,
        Err(EndFault::BadDescription) => 2,
        Err(EndFault::Device | EndFault::NoMemory) => 4,
    }
}
