//! What a kernel sees in an image, line by line.
#![tactic(auto, unfolding(crate::specs::Addresses::address_words))]

ghost use Rattle.std.specs.Prelude.{◌≡◌, ◌≤◌, ◌++◌, All, OnOk, OnErr, codes};
ghost use Rattle.std.specs.List.{flat_map};
ghost use Rattle.bl_map.specs.NormalMap.{region_end};
ghost use Rattle.bl_map.specs.Limits.{max_region_end};
ghost use Rattle.bl_walk.specs.EntryShown.{RunsEndLow};
ghost use Rattle.program_say.specs.FirmwareLines.{firmware_lines};
ghost use Rattle.program_say.specs.WalkLines as says;
ghost use Rattle.program_say.specs.WalkLines.{kernel_line, module_line, seen_run_line};

use crate::lines::addresses::say_address;
use crate::lines::firmware::say_firmware;
use crate::lines::hex16::say_hex16;
use crate::say;
use bl_load::Protocol;
use bl_map::Region;
use bl_mem::Bytes;
use bl_walk::{Seen, SeenFile, SeenModule, SeenPart};
use std::alloc::{AllocError, Allocator};

/// Appends a text as a line ends with it: its length, and its bytes in hexadecimal digits if there
/// are any.
#[tactic(auto, unfolding(crate::specs::WalkLines::text_word))]
fn say_text<A: Allocator + Copy>(out: &mut Vec<u8, A>, text: &[u8]) -> Result<(), AllocError>
    ensures { OnOk result (out.new.items ≡ out.old.items ++ says.text_word text.now ++ codes "\n") }
{
    let count = text.len();
    if count == 0 {
        return out.extend_from_slice(b"0\n");
    }
    let digits = hex::encode(*out.allocator(), text)?;
    say!(out, "{count} {digits}\n")
}

pub(crate) fn say_protocol<A: Allocator + Copy>(
    out: &mut Vec<u8, A>,
    protocol: Protocol,
) -> Result<(), AllocError>
    ensures { OnOk result (out.new.items ≡ out.old.items ++ says.protocol_line protocol) }
{
    say!(out, "protocol {}\n", protocol.name())
}

fn say_line<A: Allocator + Copy>(out: &mut Vec<u8, A>, text: &[u8]) -> Result<(), AllocError>
    ensures { OnOk result (out.new.items ≡ out.old.items ++ says.command_line_line text.now) }
{
    out.extend_from_slice(b"line ")?;
    say_text(out, text)
}

fn say_kernel<A: Allocator + Copy>(out: &mut Vec<u8, A>, part: &SeenPart) -> Result<(), AllocError>
    ensures { OnOk result (out.new.items ≡ out.old.items ++ says.kernel_line part.now) }
{
    say_address(out, "kernel ", part.address, " ")?;
    say!(out, "{}\n", part.length)
}

fn say_kernels<A: Allocator + Copy>(
    out: &mut Vec<u8, A>,
    parts: &[SeenPart],
) -> Result<(), AllocError>
    ensures { OnOk result (out.new.items ≡ out.old.items ++ flat_map kernel_line parts.now) }
{
    for part in parts {
        say_kernel(out, part)?;
    }
    Ok(())
}

fn say_module<A: Allocator + Copy, B: Allocator>(
    out: &mut Vec<u8, A>,
    file: &SeenModule<'_, B>,
) -> Result<(), AllocError>
    ensures { OnOk result (out.new.items ≡ out.old.items ++ says.module_line file.now) }
{
    say_address(out, "module ", file.mod_start as u64, " ")?;
    say!(out, "{} ", file.bytes.len())?;
    say_text(out, file.line.as_slice())
}

fn say_modules<A: Allocator + Copy, B: Allocator>(
    out: &mut Vec<u8, A>,
    modules: &[SeenModule<'_, B>],
) -> Result<(), AllocError>
    ensures { OnOk result (out.new.items ≡ out.old.items ++ flat_map module_line modules.now) }
{
    for module in modules {
        say_module(out, module)?;
    }
    Ok(())
}

fn say_initrd<A: Allocator + Copy>(
    out: &mut Vec<u8, A>,
    initrd: &Option<SeenFile<'_>>,
) -> Result<(), AllocError>
    ensures { OnOk result (out.new.items ≡ out.old.items ++ says.initrd_line initrd.now) }
{
    match initrd {
        None => Ok(()),
        Some(file) => {
            say_address(out, "initrd ", file.address as u64, " ")?;
            say!(out, "{}\n", file.bytes.len())
        }
    }
}

#[tactic(auto, unfolding(crate::specs::BootAndMapLines::hex16_between))]
fn say_run<A: Allocator + Copy>(out: &mut Vec<u8, A>, run: &Region) -> Result<(), AllocError>
    requires { region_end run.now ≤ max_region_end }
    ensures { OnOk result (out.new.items ≡ out.old.items ++ says.seen_run_line run.now) }
{
    say_hex16(out, "map ", run.base, " ")?;
    say_hex16(out, "", run.base + run.length, " ")?;
    say!(out, "{}\n", run.kind.number())
}

fn say_runs<A: Allocator + Copy>(out: &mut Vec<u8, A>, runs: &[Region]) -> Result<(), AllocError>
    requires { All (λ run. region_end run ≤ max_region_end) runs.now }
    ensures { OnOk result (out.new.items ≡ out.old.items ++ flat_map seen_run_line runs.now) }
{
    for run in runs {
        say_run(out, run)?;
    }
    Ok(())
}

fn say_copy<A: Allocator + Copy, B: Allocator>(
    out: &mut Vec<u8, A>,
    word: &[u8],
    copy: &Option<Bytes<B>>,
) -> Result<(), AllocError>
    ensures { OnOk result (out.new.items ≡ out.old.items ++ says.rsdp_copy_line word.now copy.now) }
{
    match copy {
        None => Ok(()),
        Some(bytes) => {
            out.extend_from_slice(word)?;
            say_text(out, bytes.as_slice())
        }
    }
}

/// Appends the lines of how a kernel is entered: its protocol, the address, its line, its parts.
fn say_entry<A: Allocator + Copy, B: Allocator>(
    out: &mut Vec<u8, A>,
    seen: &Seen<'_, B>,
) -> Result<(), AllocError>
    ensures { OnOk result (out.new.items ≡ out.old.items ++ says.protocol_line seen.now.protocol
        ++ says.entry_address_line seen.now.entry ++ says.command_line_line seen.now.line
        ++ flat_map kernel_line seen.now.kernel) }
{
    say_protocol(out, seen.protocol)?;
    say_address(out, "entry ", seen.entry, "\n")?;
    say_line(out, seen.line.as_slice())?;
    say_kernels(out, seen.kernel.as_slice())
}

/// Appends the lines of what a kernel is told of: the modules, the initial ramdisk, the memory map,
/// the copies of the RSDP, what firmware tells.
fn say_told<A: Allocator + Copy, B: Allocator>(
    out: &mut Vec<u8, A>,
    seen: &Seen<'_, B>,
) -> Result<(), AllocError>
    requires { RunsEndLow seen.now }
    ensures { OnOk result (out.new.items ≡ out.old.items ++ flat_map module_line seen.now.modules
        ++ says.initrd_line seen.now.initrd ++ flat_map seen_run_line seen.now.map
        ++ says.rsdp_copy_line (codes "rsdp-old ") seen.now.rsdp_old
        ++ says.rsdp_copy_line (codes "rsdp-new ") seen.now.rsdp_new
        ++ firmware_lines seen.now.firmware) }
{
    say_modules(out, seen.modules.as_slice())?;
    say_initrd(out, &seen.initrd)?;
    say_runs(out, seen.map.as_slice())?;
    say_copy(out, b"rsdp-old ", &seen.rsdp_old)?;
    say_copy(out, b"rsdp-new ", &seen.rsdp_new)?;
    say_firmware(out, &seen.firmware)
}

/// Appends the lines of what a kernel sees: its protocol, where it is entered, its line, its parts,
/// the modules, the initial ramdisk, the memory map, the copies of the RSDP, what firmware tells.
/// They are formed in `alloc` first, so that an error leaves the text as it was.
pub fn say_walk<A: Allocator + Copy, B: Allocator, C: Allocator>(
    alloc: A,
    seen: &Seen<'_, B>,
    out: &mut Vec<u8, C>,
) -> Result<(), AllocError>
    requires { RunsEndLow seen.now }
    ensures ok { OnOk result (out.new.items ≡ out.old.items ++ says.walk_lines seen.now) }
    ensures err { OnErr result (out.new.items ≡ out.old.items) }
{
    let mut lines = Vec::new(alloc);
    say_entry(&mut lines, seen)?;
    say_told(&mut lines, seen)?;
    out.extend_from_slice(&lines)
}
