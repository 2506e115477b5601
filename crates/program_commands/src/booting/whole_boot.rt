//! The command `boot`: from a description's bytes to a status.
ghost use Rattle.std.specs.Prelude.{◌≡◌, ◌≢◌, ℕ, List, ◌+◌, ◌<◌, ◌≤◌, ◌^◌, ◌++◌, length};
ghost use Rattle.bl_stage.specs.Files.{File};
ghost use Rattle.program_boots.specs.described.BootCases.{HasInlineFiles, names_sought};
ghost use Rattle.program_boots.specs.described.BootCases.{names_fetched};
ghost use Rattle.program_commands.specs.Ends.{IsBooted, IsCutShort, IsRefused};
ghost use Rattle.program_boots.specs.described.DescribedMachine.{IsBadDescription};
ghost use Rattle.program_boots.specs.described.FoundFiles.{AsksPrefix};
ghost use Rattle.program_commands.specs.internal.CallEnds.{BootEnds, CountsSinkFault};
ghost use Rattle.program_commands.specs.internal.SoughtFiles.{SeeksNamesOf};
ghost use Rattle.program_boots.specs.described.DescribedMenu.{max_names};
ghost use Rattle.program_desc.specs.Described.{described};

use crate::boot_end::{End, EndFault};
use crate::booting::found_boot::boot_found;
use crate::described::{ReadyBoot, order_of, read_machine, ready_boot};
use bl_image::Sink;
use program_boots::{DescribedBoot, Files};
use program_line::Order;
use std::alloc::{Allocator, Global};

/// The same as `boot`, with its end in place of the status.
fn run_boot<A: Allocator + Copy, F: Files, S: Sink, B: Allocator>(
    alloc: A,
    global: Global,
    desc: &[u8],
    files: &mut F,
    order: Order,
    out: &mut S,
    say: &mut Vec<u8, B>,
) -> Result<End, EndFault>
    requires files { F.faults files.old < 2 ^ 63 }
    requires sink { S.faults out.old < 2 ^ 63 }
    ensures ends { BootEnds F.answers F.faults desc.now
        (record { files = files.old; sink = S.contents out.old; said = say.old.items })
        (record { files = files.new; sink = S.contents out.new; said = say.new.items }) result }
    ensures faults { CountsSinkFault (S.faults out.old) (S.faults out.new) result }
    ensures sought { SeeksNamesOf F.answers F.faults F.asked desc.now files.old files.new result }
{
    let read = read_machine(alloc, global, desc)?;
    let size = read.machine.size();
    let ready = ready_boot(alloc, &read.description, size, files, order_of(order))?;
    let ReadyBoot {
        names,
        menu,
        mut memory,
        mut store,
    } = ready;
    drop(names);
    let boot = DescribedBoot {
        description: &read.description,
        machine: &read.machine,
        menu: &menu,
    };
    boot_found(alloc, &mut memory, &mut store, &boot, out, say)
}

/// Boots the first entry of a description's menu, in the order of attempts, that is not refused,
/// and writes the image of the handover to `out`. The default is attempted first, then the
/// fallbacks. Each file of these entries that is not in the description is asked of `files` once,
/// before the boot, and nothing else is; its pieces come in the order that is named, which changes
/// nothing but the way. What the boot came to is appended to `say`, line by line.
///
/// The status is 0 if an entry was booted, 1 if each one that was attempted was refused, 2 if the
/// description is bad, 3 if the sink had a fault, and 4 if memory ran out; with 2, 3 and 4 nothing
/// is said. An entry is refused for want of a file only if `files` counted a fault more. `global`
/// is what the TOML reader takes its memory from.
pub fn boot<A: Allocator + Copy, F: Files, S: Sink, B: Allocator>(
    alloc: A,
    global: Global,
    desc: &[u8],
    files: &mut F,
    order: Order,
    out: &mut S,
    say: &mut Vec<u8, B>,
) -> u8
    requires files { F.faults files.old < 2 ^ 63 }
    requires sink { S.faults out.old < 2 ^ 63 }
    ensures status { result ≤ 4 }
    ensures booted { result ≡ 0 → IsBooted F.answers F.faults desc.now
        (record { files = files.old; sink = S.contents out.old; said = say.old.items })
        (record { files = files.new; sink = S.contents out.new; said = say.new.items }) }
    ensures refused { result ≡ 1 → IsRefused F.answers F.faults desc.now
        (record { files = files.old; sink = S.contents out.old; said = say.old.items })
        (record { files = files.new; sink = S.contents out.new; said = say.new.items }) }
    ensures described { result ≡ 2 → IsBadDescription desc.now × (files.new ≡ files.old)
        × (S.contents out.new ≡ S.contents out.old) × (say.new.items ≡ say.old.items) }
    ensures device { result ≡ 3 → IsCutShort F.answers F.faults desc.now
        (record { files = files.old; sink = S.contents out.old; said = say.old.items })
        (record { files = files.new; sink = S.contents out.new; said = say.new.items }) }
    ensures memory { result ≡ 4 →
        (S.contents out.new ≡ S.contents out.old) × (say.new.items ≡ say.old.items) }

    // The sink has a fault more exactly where the boot ends in one.
    ensures fault { result ≡ 3 → S.faults out.new ≡ S.faults out.old + 1 }
    ensures sound { result ≢ 3 → S.faults out.new ≡ S.faults out.old }

    // Of the names that are looked for, those that no file of the description has are asked for,
    // each once, in order; the first of them where memory ran out. No other name is.
    ensures asked { result ≢ 2 → result ≢ 4 →
        F.asked files.new ≡ F.asked files.old ++ names_fetched (described desc.now) }
    ensures asked_first { AsksPrefix (names_fetched (described desc.now))
        (F.asked files.old) (F.asked files.new) }
    ensures inline { HasInlineFiles desc.now → files.new ≡ files.old }

    // The files answer as before, and each name that is looked for is missing once at most; these
    // are few.
    ensures same_files { (file : List ℕ) (answer : File) →
        F.answers files.new file answer → F.answers files.old file answer }
    ensures missing { (F.faults files.old ≤ F.faults files.new)
        × (F.faults files.new ≤ F.faults files.old + length (names_sought (described desc.now))) }
    ensures few { F.faults files.new ≤ F.faults files.old + max_names }
{
    match run_boot(alloc, global, desc, files, order, out, say) {
        Ok(End::Booted) => 0,
        Ok(End::NoEntryLeft) => 1,
        Err(EndFault::BadDescription) => 2,
        Err(EndFault::Device) => 3,
        Err(EndFault::NoMemory) => 4,
    }
}
