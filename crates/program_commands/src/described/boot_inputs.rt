//! What a boot of a description runs on.
ghost use Rattle.std.specs.Prelude.{◌≡◌, ℕ, List, ◌+◌, ◌<◌, ◌≤◌, ◌^◌, ◌++◌, [], All, IfOk, OnOk};
ghost use Rattle.std.specs.Prelude.{IsSome, length, map, replicate};
ghost use Rattle.bl_mem.specs.Sparse.{bytes_of};
ghost use Rattle.bl_load.specs.WellFormedEntry.{IsWellFormedValue};
ghost use Rattle.bl_stage.specs.Files.{File};
ghost use Rattle.program_desc.specs.Described.{file_named};
ghost use Rattle.program_desc.specs.Views.{HasMenu, view};
ghost use Rattle.program_boots.specs.described.DescribedMenu as attempted;
ghost use Rattle.program_boots.specs.described.DescribedMenu.{max_names};
ghost use Rattle.program_boots.specs.described.FoundFiles.{AreFound, AsksPrefix, names_to_ask};

use crate::described::found_files::find_files;
use crate::described::names::attempted_file_names;
use bl_mem::Sparse;
use bl_session::{FileStore, Menu, Order};
use program_boots::{Files, menu_of};
use program_desc::Description;
use std::alloc::{AllocError, Allocator};

/// What a boot of a description runs on: the names of the files that are looked for, its menu,
/// memory that was not written to, and a store of what was found for the names.
#[derive(Drop)]
pub struct ReadyBoot<'a, A: Allocator + Copy> {
    pub names: Vec<&'a str, A>,
    pub menu: Menu<A>,
    pub memory: Sparse<A>,
    pub store: FileStore<A>,
}

/// What a boot of a description runs on, with memory of `size` bytes, and a store that answers in
/// this order. Each file of the entries that are attempted that is not in the description is asked
/// of `files` once.
///
/// An error is want of memory; the first of these files, perhaps none, were asked for then.
pub fn ready_boot<'a, A: Allocator + Copy, F: Files>(
    alloc: A,
    description: &'a Description<A>,
    size: u64,
    files: &mut F,
    order: Order,
) -> Result<ReadyBoot<'a, A>, AllocError>
    requires menu { HasMenu description.now }
    requires faults { F.faults files.old < 2 ^ 63 }
    ensures names { IfOk result (λ ready. map (λ n. n.now) ready.names.items
        ≡ attempted.attempted_file_names (view description.entry.now)) }
    ensures menu { IfOk result (λ ready.
        ready.menu ≡ attempted.menu_of (view description.entry.now)) }
    ensures well_formed { IfOk result (λ ready. All (λ entry. IsWellFormedValue entry.blank)
        ready.menu.entries) }
    ensures memory { IfOk result (λ ready. bytes_of ready.memory.frames ready.memory.size
        ≡ replicate size description.entry.now.fill) }
    ensures found { IfOk result (λ ready.
        AreFound F.answers F.faults (view description.entry.now).files
        (attempted.attempted_file_names (view description.entry.now)) files.old files.new
        ready.store.files) }
    ensures order { IfOk result (λ ready. ready.store.order ≡ order) }
    ensures given { IfOk result (λ ready. ready.store.given ≡ []) }

    // The names that no file of the description has are asked for, each once, in order.
    ensures asked { OnOk result (F.asked files.new ≡ F.asked files.old
        ++ names_to_ask (view description.entry.now).files
        (attempted.attempted_file_names (view description.entry.now))) }
    ensures asked_first { AsksPrefix (names_to_ask (view description.entry.now).files
        (attempted.attempted_file_names (view description.entry.now)))
        (F.asked files.old) (F.asked files.new) }
    ensures inline { All (λ name. IsSome (file_named name (view description.entry.now).files))
        (attempted.attempted_file_names (view description.entry.now)) → files.new ≡ files.old }

    // The files answer as before, and each name is missing once at most; these are few.
    ensures same { (file : List ℕ) (answer : File) →
        F.answers files.new file answer → F.answers files.old file answer }
    ensures missing { (F.faults files.old ≤ F.faults files.new)
        × (F.faults files.new ≤ F.faults files.old
        + length (attempted.attempted_file_names (view description.entry.now))) }
    ensures few { F.faults files.new ≤ F.faults files.old + max_names }
{
    let names = attempted_file_names(alloc, description)?;
    let menu = menu_of(alloc, &names, description)?;
    let memory = Sparse::new(alloc, size, description.fill)?;
    let found = find_files(alloc, description, &names, files)?;
    let store = FileStore::new(alloc, found, order);
    Ok(ReadyBoot {
        names,
        menu,
        memory,
        store,
    })
}
