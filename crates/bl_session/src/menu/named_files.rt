//! The files that entries name.
ghost use Rattle.std.specs.Prelude.{◌≡◌, ◌≤◌, ◌^◌, map};
ghost use Rattle.bl_session.specs.menu.Menu.{files_of, facts_of};
ghost use Rattle.bl_session.specs.menu.NamedFiles.{index_bound};
ghost use Rattle.bl_session.specs.menu.NamedFiles as attempts;

use bl_load::{Entry, Module};
use std::alloc::Allocator;

/// The greatest index of a file of modules plus 1, or 0 if there is none.
fn module_index_bound<A: Allocator>(modules: &[Module<A>]) -> usize
    ensures count { result ≡ index_bound (map (λ m. m.file) modules.now) }
    ensures few { result ≤ 2 ^ 32 }
{
    match modules {
        [] => 0,
        [module, rest @ ..] => (module.file as usize + 1).max(module_index_bound(rest)),
    }
}

/// The greatest index of a file of an entry plus 1.
fn entry_index_bound<A: Allocator>(entry: &Entry<A>) -> usize
    ensures count { result ≡ index_bound (files_of entry.now) }
    ensures few { result ≤ 2 ^ 32 }
{
    match entry {
        Entry::Multiboot2 {
            kernel,
            modules,
            ..
        } => (*kernel as usize + 1).max(module_index_bound(modules)),
        Entry::Linux { kernel, initrd, .. } => match initrd {
            Some(file) => (*kernel as usize + 1).max(*file as usize + 1),
            None => *kernel as usize + 1,
        },
    }
}

/// The greatest index of a file of entries plus 1, or 0 if there is none.
pub(crate) fn named_file_count<A: Allocator>(entries: &[Entry<A>]) -> usize
    ensures count { result ≡ attempts.named_file_count (map facts_of entries.now) }
    ensures few { result ≤ 2 ^ 32 }
{
    match entries {
        [] => 0,
        [entry, rest @ ..] => entry_index_bound(entry).max(named_file_count(rest)),
    }
}
