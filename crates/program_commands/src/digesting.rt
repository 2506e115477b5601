//! The digests of what a boot of a description would hand over, and of images that are there.
ghost use Rattle.std.specs.Prelude.{◌≡◌, ◌≢◌, ◌⊎◌, ℕ, List, ◌+◌, ◌<◌, ◌≤◌, ◌^◌, ◌++◌, length};
ghost use Rattle.bl_stage.specs.Files.{File};
ghost use Rattle.program_desc.specs.Described.{described};
ghost use Rattle.program_commands.specs.digesting.Digested.{IsDigested, TellsRefusals};
ghost use Rattle.program_commands.specs.internal.DigestEnds.{DigestEnds};
ghost use Rattle.program_boots.specs.described.BootCases.{HasInlineFiles, names_sought};
ghost use Rattle.program_boots.specs.described.BootCases.{names_fetched};
ghost use Rattle.program_boots.specs.described.DescribedMachine.{IsBadDescription};
ghost use Rattle.program_boots.specs.described.DescribedMenu.{max_names};
ghost use Rattle.program_boots.specs.described.FoundFiles.{AsksPrefix};
ghost use Rattle.program_commands.specs.internal.SoughtFiles.{SeeksNamesOf};

use crate::boot_end::{End, EndFault};
use crate::described::{ReadyBoot, read_machine, ready_boot};
use crate::digesting::found_digests::digest_found;
use bl_session::Order;
use program_boots::{DescribedBoot, Files};
use std::alloc::{Allocator, Global};

mod found_digests;
mod image_digests;
mod planned_menu;

pub use image_digests::digest_image_to;
pub use planned_menu::{MenuPlan, PlannedEntry, plan_menu};

/// The same as `digest_to`, with its end in place of the status.
fn run_digest<A: Allocator + Copy, F: Files, B: Allocator>(
    alloc: A,
    global: Global,
    desc: &[u8],
    files: &mut F,
    say: &mut Vec<u8, B>,
) -> Result<End, EndFault>
    requires { F.faults files.old < 2 ^ 63 }
    ensures ends { DigestEnds F.answers F.faults desc.now files.old files.new
        say.old.items say.new.items result }
    ensures sought { SeeksNamesOf F.answers F.faults F.asked desc.now files.old files.new result }
{
    let read = read_machine(alloc, global, desc)?;
    let size = read.machine.size();
    // Neither its memory nor its store is used: they have taken nothing, and a store in any order
    // has the same files.
    let ready = ready_boot(alloc, &read.description, size, files, Order::Forward)?;
    let ReadyBoot {
        names,
        menu,
        memory,
        store,
    } = ready;
    drop(names);
    drop(memory);
    let boot = DescribedBoot {
        description: &read.description,
        machine: &read.machine,
        menu: &menu,
    };
    digest_found(alloc, store.fetched(), &boot, say)
}

/// Says what `boot` would say of a description, line by line, and after an entry that would be
/// booted the digests of the image that `boot` would write: of the image, of its head and records,
/// and of each part. The files are those of `boot`, and asked for as there. Nothing is loaded, and
/// no image is made.
///
/// The status is that of `boot`, which never is 3 here: 0 if an entry would be handed over, 1 if
/// each one that is attempted is refused, 2 if the description is bad, and 4 if memory ran out;
/// with 2 and 4 nothing is said. `global` is what the TOML reader takes its memory from.
pub fn digest_to<A: Allocator + Copy, F: Files, B: Allocator>(
    alloc: A,
    global: Global,
    desc: &[u8],
    files: &mut F,
    say: &mut Vec<u8, B>,
) -> u8
    requires { F.faults files.old < 2 ^ 63 }
    ensures status { (result ≤ 2) ⊎ (result ≡ 4) }
    ensures digested { result ≡ 0 → IsDigested F.answers F.faults desc.now files.old files.new
        say.old.items say.new.items }
    ensures refused { result ≡ 1 → TellsRefusals F.answers F.faults desc.now files.old files.new
        say.old.items say.new.items }
    ensures described { result ≡ 2 → IsBadDescription desc.now × (files.new ≡ files.old)
        × (say.new.items ≡ say.old.items) }
    ensures memory { result ≡ 4 → say.new.items ≡ say.old.items }

    // The names of the files are asked for as in `boot`.
    ensures asked { result ≢ 2 → result ≢ 4 →
        F.asked files.new ≡ F.asked files.old ++ names_fetched (described desc.now) }
    ensures asked_first { AsksPrefix (names_fetched (described desc.now))
        (F.asked files.old) (F.asked files.new) }
    ensures inline { HasInlineFiles desc.now → files.new ≡ files.old }

    // The files answer as before, and each name that is looked for is missing once at most.
    ensures same_files { (file : List ℕ) (answer : File) →
        F.answers files.new file answer → F.answers files.old file answer }
    ensures missing { (F.faults files.old ≤ F.faults files.new)
        × (F.faults files.new ≤ F.faults files.old + length (names_sought (described desc.now))) }
    ensures few { F.faults files.new ≤ F.faults files.old + max_names }
{
    match run_digest(alloc, global, desc, files, say) {
        Ok(End::Booted) => 0,
        Ok(End::NoEntryLeft) => 1,
        Err(EndFault::BadDescription) => 2,
        Err(EndFault::Device) => 4,
        Err(EndFault::NoMemory) => 4,
    }
}
