//! The files of a description.
ghost use Rattle.std.specs.Prelude.{◌≡◌, [], true, map, codes, IfOk, IfSome, MatchOption};
ghost use Rattle.toml.specs.Data.{get};
ghost use Rattle.toml.specs.View.{view, table_view, items_view};
ghost use Rattle.program_desc.specs.BadKeys.{IsBadKey};
ghost use Rattle.program_desc.specs.KeyRules.{required_key};
ghost use Rattle.program_desc.specs.TableFaults.{ReadsAs};
ghost use Rattle.program_desc.specs.TomlValues as values;
ghost use Rattle.program_desc.specs.Described as spec;
ghost use Rattle.program_desc.specs.Views.{file_view};
ghost use Rattle.program_desc.specs.internal.TableReading as kept;
ghost use Rattle.program_desc.specs.declared.allowed.Allowed.TheVariants.{HexText};
ghost use Rattle.program_desc.specs.declared.bad_key.TablePlace.TheVariants as places;
ghost use Rattle.program_desc.specs.declared.key_set.KeySet.TheVariants as keys;

use crate::arrays::{items_at, table_of};
use crate::bad_key::{BadKey, KeyFault, TablePlace};
use crate::file_row::FileRow;
use crate::key_set::KeySet;
use crate::key_table::{FILE, HEX, NAME};
use crate::keys::{at_key, bad_value, check_keys, required_at};
use crate::owned_text::Text;
use crate::table_fault::TableFault;
use crate::texts::text_at;
use crate::values::toml_bytes;
use bl_mem::Bytes;
use std::alloc::{AllocError, Allocator, Global};
use std::collections::BTreeSet;
use toml::{Table, Value};

fn bytes_at<'a, A: Allocator>(
    alloc: A,
    table: &'a Table,
    place: TablePlace,
) -> Result<Bytes<A>, TableFault<'a>>
    ensures { ReadsAs (λ bytes. bytes)
        (kept.BreaksAt place (required_key (codes "hex") HexText) (table_view table.now)) result
        (values.at_key values.toml_bytes (codes "hex") (table_view table.now)) }
{
    let value = required_at(table, place, &HEX)?;
    match toml_bytes(alloc, value)? {
        Some(bytes) => Ok(bytes),
        None => Err(bad_value(place, &HEX, value)),
    }
}

#[tactic(auto, unfolding(crate::specs::Described::file_in))]
fn file_in<'a, A: Allocator + Copy>(
    alloc: A,
    table: &'a Table,
    place: TablePlace,
) -> Result<FileRow<A>, TableFault<'a>>
    ensures { ReadsAs file_view (kept.IsFaultOf place keys.File (table_view table.now)) result
        (spec.file_in (table_view table.now)) }
{
    check_keys(table, place, KeySet::File)?;
    let name = text_at(table, place, &NAME)?;
    let bytes = bytes_at(alloc, table, place)?;
    Ok(FileRow {
        name: Text::from_str(alloc, name)?,
        bytes,
    })
}

/// A file, from an item of an array of tables.
fn file_of<'a, A: Allocator + Copy>(
    alloc: A,
    value: &'a Value,
    i: usize,
) -> Result<FileRow<A>, TableFault<'a>>
    ensures { ReadsAs file_view (kept.IsBadTable places.File keys.File i (view value.now)) result
        (values.in_table spec.file_in (view value.now)) }
{
    let table = table_of(value, TablePlace::File(i))?;
    file_in(alloc, table, TablePlace::File(i))
}

fn files_in<'a, A: Allocator + Copy>(
    alloc: A,
    items: &'a [Value],
) -> Result<Vec<FileRow<A>, A>, TableFault<'a>>
    ensures { ReadsAs (λ v. map file_view v.items)
        (kept.HasBadItem (kept.IsBadTable places.File keys.File) (items_view items.now)) result
        (values.each_item (values.in_table spec.file_in) (items_view items.now)) }
{
    let mut files = Vec::new(alloc);
    for (i, item) in items.iter().enumerate() {
        let file = file_of(alloc, item, i)?;
        files.push(file)?;
    }
    Ok(files)
}

/// The index of the first of these files that has the name of an earlier one. The names so far are
/// kept in memory of `global`.
fn same_name<A: Allocator>(
    global: Global,
    files: &[FileRow<A>],
) -> Result<Option<usize>, AllocError>
    ensures { IfOk result (λ found. MatchOption found
        (spec.names_differ (map file_view files.now) ≡ true) (kept.HasEarlierName files.now)) }
{
    let mut names = BTreeSet::new(global);
    for (i, file) in files.iter().enumerate() {
        if !names.insert(file.name.as_str())? {
            return Ok(Some(i));
        }
    }
    Ok(None)
}

/// The value that stands for the name of a file, or for the file if it has none.
fn name_of(value: &Value) -> &Value
    ensures { IfSome (get (codes "name") (view value.now)) (λ name. view result.now ≡ name) }
{
    match value.as_table() {
        Some(table) => match at_key(table, NAME.name) {
            Some(name) => name,
            None => value,
        },
        None => value,
    }
}

/// The files of a description, none where it has no such key. What is looked up on the way takes
/// its memory from `global`.
pub fn files_at<'a, A: Allocator + Copy>(
    alloc: A,
    global: Global,
    table: &'a Table,
) -> Result<Vec<FileRow<A>, A>, TableFault<'a>>
    ensures { ReadsAs (λ v. map file_view v.items) (IsBadKey (table_view table.now)) result
        (values.at_key_or [] spec.toml_files (codes "file") (table_view table.now)) }
{
    let items = items_at(table, TablePlace::Description, &FILE)?;
    let files = files_in(alloc, items)?;
    match same_name(global, &files)? {
        Some(i) => Err(TableFault::BadKey(BadKey {
            table: TablePlace::File(i),
            fault: KeyFault::SameName(name_of(&items[i])),
        })),
        None => Ok(files),
    }
}
