//! For the proof: the lines of a menu and its copies of the RSDP are bytes, as the types of both
//! have it. Nothing is done here. Whoever walks what is booted needs this of each entry.
ghost use Rattle.std.specs.Prelude.{◌<◌, [], All, IfSome, map};
ghost use Rattle.bl_load.specs.WellFormedEntry.{IsWellFormedEntry};
ghost use Rattle.bl_load.specs.EntryValue.{IsWithinLimits};

use bl_load::{Entry, Module};
use bl_mem::Bytes;
use std::alloc::Allocator;

fn module_lines_are_bytes<A: Allocator>(modules: &[Module<A>])
    ensures { All (λ line. All (λ b. b < 256) line) (map (λ m. m.line) modules.now) }
{
    match modules {
        [] => {}
        [module, rest @ ..] => {
            module.line.are_bytes();
            module_lines_are_bytes(rest);
        }
    }
}

fn copy_is_bytes<A: Allocator>(copy: &Option<Bytes<A>>)
    ensures { IfSome copy.now (λ copy. All (λ b. b < 256) copy) }
{
    match copy {
        Some(bytes) => bytes.are_bytes(),
        None => {}
    }
}

#[tactic(auto, unfolding(bl_load::specs::WellFormedEntry::IsWellFormedEntry))]
fn entry_is_well_formed<A: Allocator>(entry: &Entry<A>)
    requires { IsWithinLimits entry.now }
    ensures { IsWellFormedEntry entry.now }
{
    match entry {
        Entry::Multiboot2 {
            line,
            modules,
            rsdp_old,
            rsdp_new,
            ..
        } => {
            line.are_bytes();
            module_lines_are_bytes(modules);
            copy_is_bytes(rsdp_old);
            copy_is_bytes(rsdp_new);
        }
        Entry::Linux { line, .. } => line.are_bytes(),
    }
}

pub(crate) fn entries_are_well_formed<A: Allocator>(entries: &[Entry<A>])
    requires { All IsWithinLimits entries.now }
    ensures { All IsWellFormedEntry entries.now }
{
    match entries {
        [] => {}
        [entry, rest @ ..] => {
            entry_is_well_formed(entry);
            entries_are_well_formed(rest);
        }
    }
}
