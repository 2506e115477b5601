//! The files of a menu are found.
ghost use Rattle.std.specs.Prelude.{◌≡◌, ℕ, List, ◌+◌, ◌-◌, ◌<◌, ◌≤◌, ◌^◌, All, IfOk, IsSome};
ghost use Rattle.std.specs.Prelude.{length, map, ◌++◌, OnOk};
ghost use Rattle.bl_stage.specs.Files.{File, file_of};
ghost use Rattle.program_boots.specs.described.FoundFiles.{AreFound, AsksPrefix, IsFound};
ghost use Rattle.program_boots.specs.described.FoundFiles.{names_to_ask};
ghost use Rattle.program_desc.specs.Described.{file_named};
ghost use Rattle.program_desc.specs.Views.{view};
ghost use Rattle.program_commands.specs.internal.SoughtFiles.{SeeksName};

use bl_session::Fetched;
use program_boots::{Files, copy_of};
use program_desc::Description;
use std::alloc::{AllocError, Allocator};

/// What is found for a name: the description's own file, or else what is fetched.
fn find_file<A: Allocator + Copy, F: Files>(
    alloc: A,
    description: &Description<A>,
    name: &str,
    files: &mut F,
) -> Result<Fetched<A>, AllocError>
    requires { F.faults files.old < 2 ^ 64 - 1 }
    ensures found { IfOk result (λ file. IsFound F.answers F.faults (view description.now).files
        name.now files.old files.new (file_of file)) }
    ensures sought { SeeksName F.answers F.faults F.asked (view description.now).files
        name.now files.old files.new }
{
    match description.file_named(name) {
        Some(file) => copy_of(alloc, file),
        None => files.fetch(alloc, name),
    }
}

/// What is found for names, one after the other.
pub fn find_files<A: Allocator + Copy, F: Files>(
    alloc: A,
    description: &Description<A>,
    names: &[&str],
    files: &mut F,
) -> Result<Vec<Fetched<A>, A>, AllocError>
    requires { F.faults files.old + length names.now < 2 ^ 64 }
    ensures found { IfOk result (λ found.
        AreFound F.answers F.faults (view description.now).files (map (λ n. n.now) names.now)
        files.old files.new (map file_of found.items)) }

    // The names that no file of the description has are asked for, in order.
    ensures asked { OnOk result (F.asked files.new ≡ F.asked files.old
        ++ names_to_ask (view description.now).files (map (λ n. n.now) names.now)) }
    ensures asked_first { AsksPrefix (names_to_ask (view description.now).files
        (map (λ n. n.now) names.now)) (F.asked files.old) (F.asked files.new) }
    ensures inline { All (λ name. IsSome (file_named name (view description.now).files))
        (map (λ n. n.now) names.now) → files.new ≡ files.old }

    // The files answer as before, and each name is missing once at most.
    ensures same { (file : List ℕ) (answer : File) →
        F.answers files.new file answer → F.answers files.old file answer }
    ensures missing { (F.faults files.old ≤ F.faults files.new)
        × (F.faults files.new ≤ F.faults files.old + length names.now) }
{
    let mut found = Vec::new(alloc);
    for name in names {
        let answer = find_file(alloc, description, name, files)?;
        found.push(answer)?;
    }
    Ok(found)
}
