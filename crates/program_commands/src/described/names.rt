//! The names of the files that are looked for.
ghost use Rattle.std.specs.Prelude.{◌≡◌, ◌*◌, ◌<◌, ◌≤◌, ◌∷◌, [], length, map, All, IfOk};
ghost use Rattle.std.specs.Prelude.{OnOk};
ghost use Rattle.std.specs.Str.{bytes_eq};
ghost use Rattle.std.specs.List.{list_any};
ghost use Rattle.program_boots.specs.described.DescribedMenu as attempted;
ghost use Rattle.program_boots.specs.described.DescribedMenu.{names_of_entries};
ghost use Rattle.program_boots.specs.described.DistinctNames.{AddsNames};
ghost use Rattle.program_desc.specs.EntryNames.{file_names};
ghost use Rattle.program_desc.specs.Views.{HasMenu, entry_view, module_view, view};

use bl_session::order_attempts;
use program_desc::{Description, EntryForm, EntryRow, ModuleRow};
use std::alloc::{AllocError, Allocator};

/// Whether a name is one of these.
fn is_among(name: &str, names: &[&str]) -> bool
    ensures { result ≡ list_any (λ n. bytes_eq n.now name.now) names.now }
{
    names.iter().any(|n| *n == name)
}

/// Appends a name, if it is not among the earlier ones.
fn add_name<'a, A: Allocator>(names: &mut Vec<&'a str, A>, name: &'a str) -> Result<(), AllocError>
    ensures { OnOk result (AddsNames names.old.items names.new.items (name.now ∷ [])) }
{
    if !is_among(name, names) {
        names.push(name)?;
    }
    Ok(())
}

/// Appends the names of modules' files, each one that is not there yet.
fn add_modules<'a, A: Allocator>(
    names: &mut Vec<&'a str, A>,
    modules: &'a [ModuleRow<A>],
) -> Result<(), AllocError>
    ensures { OnOk result (AddsNames names.old.items names.new.items
        (map (λ m. m.file) (map module_view modules.now))) }
{
    for module in modules {
        add_name(names, module.file.as_str())?;
    }
    Ok(())
}

/// Appends the names of an entry's files, each one that is not there yet.
fn add_entry<'a, A: Allocator>(
    names: &mut Vec<&'a str, A>,
    entry: &'a EntryRow<A>,
) -> Result<(), AllocError>
    ensures { OnOk result (AddsNames names.old.items names.new.items
        (file_names (entry_view entry.now))) }
{
    add_name(names, entry.kernel.as_str())?;
    match &entry.form {
        EntryForm::Multiboot2 { modules, .. } => add_modules(names, &modules.rows)?,
        EntryForm::Linux {
            initrd: Some(file),
            ..
        } => add_name(names, file.as_str())?,
        EntryForm::Linux { initrd: None, .. } => {}
    }
    Ok(())
}

/// The names of the files of these entries, by their index, in order, each name once.
fn names_of<'a, A: Allocator + Copy>(
    alloc: A,
    description: &'a Description<A>,
    indices: &[u32],
) -> Result<Vec<&'a str, A>, AllocError>
    requires { All (λ index. index < length description.now.entries.items) indices.now }
    ensures { IfOk result (λ names. map (λ n. n.now) names.items
        ≡ names_of_entries (view description.now) indices.now) }
{
    let mut names = Vec::new(alloc);
    for index in indices {
        add_entry(&mut names, &description.entries[*index as usize])?;
    }
    Ok(names)
}

/// The names of the files of the entries that are attempted, in order, each one once.
pub fn attempted_file_names<A: Allocator + Copy>(
    alloc: A,
    description: &Description<A>,
) -> Result<Vec<&str, A>, AllocError>
    requires { HasMenu description.now }
    ensures names { IfOk result (λ names.
        map (λ n. n.now) names.items ≡ attempted.attempted_file_names (view description.now)) }
    ensures few { IfOk result (λ names. length names.items ≤ 32 * 65) }
{
    let attempts = order_attempts(alloc, description.default, &description.fallbacks)?;
    names_of(alloc, description, &attempts)
}
