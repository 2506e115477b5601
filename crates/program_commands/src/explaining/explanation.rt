//! One explanation.
ghost use Rattle.std.specs.Prelude.{◌≡◌, ◌≢◌, ◌⊎◌, ℕ, List, ◌+◌, ◌<◌, ◌≤◌, ◌^◌, ◌++◌, length};
ghost use Rattle.bl_stage.specs.Files.{File};
ghost use Rattle.program_boots.specs.described.DescribedMenu.{max_names};
ghost use Rattle.program_boots.specs.described.BootCases.{HasInlineFiles, names_sought};
ghost use Rattle.program_boots.specs.described.BootCases.{names_fetched};
ghost use Rattle.program_commands.specs.internal.ExplanationEnds.{ExplainEnds};
ghost use Rattle.program_commands.specs.explaining.Explained.{ExplainsBlame, ExplainsBoot};
ghost use Rattle.program_commands.specs.explaining.Explained.{ExplainsRefusals};
ghost use Rattle.program_boots.specs.described.FoundFiles.{AsksPrefix};
ghost use Rattle.program_commands.specs.internal.SoughtFiles.{SeeksNamesOf};
ghost use Rattle.program_desc.specs.Described.{described};

use crate::boot_end::{End, EndFault};
use crate::described::{ReadyBoot, order_of, ready_boot};
use crate::explaining::explained_boot::explain_found;
use crate::explaining::machine_blame::machine_or_blame;
use crate::explaining::read_or_blame::read_or_blame;
use program_boots::{DescribedBoot, Files};
use program_line::Order;
use std::alloc::{Allocator, Global};

/// The same as `explain_to`, with its end in place of the status.
fn run_explain<A: Allocator + Copy, F: Files, B: Allocator>(
    alloc: A,
    global: Global,
    desc: &[u8],
    files: &mut F,
    order: Order,
    say: &mut Vec<u8, B>,
) -> Result<End, EndFault>
    requires { F.faults files.old < 2 ^ 63 }
    ensures ends { ExplainEnds A F.answers F.faults desc.now files.old files.new
        say.old.items say.new.items result }
    ensures sought { SeeksNamesOf F.answers F.faults F.asked desc.now files.old files.new result }
{
    let description = read_or_blame(alloc, global, desc, say)?;
    let machine = machine_or_blame(alloc, desc, &description, say)?;
    let ready = ready_boot(alloc, &description, machine.size(), files, order_of(order))?;
    let ReadyBoot {
        names,
        menu,
        mut memory,
        mut store,
    } = ready;
    let boot = DescribedBoot {
        description: &description,
        machine: &machine,
        menu: &menu,
    };
    explain_found(alloc, &mut memory, &mut store, &boot, &names, say)
}

/// Tells the boot of a description for a person, line by line, in `say`: each entry that is
/// attempted with its files, why it is refused, and what is handed over, but for the bytes. The
/// boot is that of `boot`, and takes the same files; no image is written.
///
/// The status is that of `boot`, which never is 3 here: 0 if an entry would be handed over, 1 if
/// each one that is attempted is refused, 2 if the description is bad, for what is said, and 4 if
/// memory ran out, with which nothing is said. `global` is what the TOML reader takes its memory
/// from.
pub fn explain_to<A: Allocator + Copy, F: Files, B: Allocator>(
    alloc: A,
    global: Global,
    desc: &[u8],
    files: &mut F,
    order: Order,
    say: &mut Vec<u8, B>,
) -> u8
    requires { F.faults files.old < 2 ^ 63 }
    ensures status { (result ≤ 2) ⊎ (result ≡ 4) }
    ensures booted { result ≡ 0 → ExplainsBoot A F.answers F.faults desc.now files.old files.new
        say.old.items say.new.items }
    ensures refused { result ≡ 1 → ExplainsRefusals A F.answers F.faults desc.now
        files.old files.new say.old.items say.new.items }
    ensures described { result ≡ 2 → ExplainsBlame desc.now say.old.items say.new.items
        × (files.new ≡ files.old) }
    ensures memory { result ≡ 4 → say.new.items ≡ say.old.items }

    // The names of the files are asked for as in `boot`.
    ensures asked { result ≢ 2 → result ≢ 4 →
        F.asked files.new ≡ F.asked files.old ++ names_fetched (described desc.now) }
    ensures asked_first { AsksPrefix (names_fetched (described desc.now))
        (F.asked files.old) (F.asked files.new) }
    ensures inline { HasInlineFiles desc.now → files.new ≡ files.old }

    // The files answer as before, and each name that is looked for is missing once at most.
    ensures same_files { (file : List ℕ) (answer : File) →
        F.answers files.new file answer → F.answers files.old file answer }
    ensures missing { (F.faults files.old ≤ F.faults files.new)
        × (F.faults files.new ≤ F.faults files.old + length (names_sought (described desc.now))) }
    ensures few { F.faults files.new ≤ F.faults files.old + max_names }
{
    match run_explain(alloc, global, desc, files, order, say) {
        Ok(End::Booted) => 0,
        Ok(End::NoEntryLeft) => 1,
        Err(EndFault::BadDescription) => 2,
        Err(EndFault::Device) => 4,
        Err(EndFault::NoMemory) => 4,
    }
}
