//! The modules of an entry.
ghost use Rattle.std.specs.Prelude.{[], map, codes};
ghost use Rattle.toml.specs.View.{view, table_view, items_view};
ghost use Rattle.program_desc.specs.TableFaults.{ReadsAs};
ghost use Rattle.program_desc.specs.TomlValues as values;
ghost use Rattle.program_desc.specs.Entries as spec;
ghost use Rattle.program_desc.specs.Views.{module_view};
ghost use Rattle.program_desc.specs.internal.EntryReading.{IsEntryBad};
ghost use Rattle.program_desc.specs.internal.TableReading as kept;
ghost use Rattle.program_desc.specs.declared.bad_key.TablePlace.TheVariants as places;
ghost use Rattle.program_desc.specs.declared.key_set.KeySet.TheVariants as keys;

use crate::arrays::{items_at, table_of};
use crate::bad_key::TablePlace;
use crate::entry_form::{ModuleRow, Modules};
use crate::key_set::KeySet;
use crate::key_table::{LINE, MODULE, MODULE_FILE};
use crate::keys::check_keys;
use crate::owned_text::Text;
use crate::table_fault::TableFault;
use crate::texts::{text_at, text_or_empty};
use std::alloc::Allocator;
use toml::{Table, Value};

#[tactic(auto, unfolding(crate::specs::Entries::module_in))]
fn module_in<'a, A: Allocator + Copy>(
    alloc: A,
    table: &'a Table,
    place: TablePlace,
) -> Result<ModuleRow<A>, TableFault<'a>>
    ensures { ReadsAs module_view (kept.IsFaultOf place keys.Module (table_view table.now)) result
        (spec.module_in (table_view table.now)) }
{
    check_keys(table, place, KeySet::Module)?;
    let file = text_at(table, place, &MODULE_FILE)?;
    let line = text_or_empty(table, place, &LINE)?;
    Ok(ModuleRow {
        file: Text::from_str(alloc, file)?,
        line: Text::from_str(alloc, line)?,
    })
}

/// A module of the entry of this index, from an item of an array of tables.
fn module_of<'a, A: Allocator + Copy>(
    alloc: A,
    value: &'a Value,
    entry: usize,
    i: usize,
) -> Result<ModuleRow<A>, TableFault<'a>>
    ensures { ReadsAs module_view
        (kept.IsBadTable (places.Module entry) keys.Module i (view value.now)) result
        (values.in_table spec.module_in (view value.now)) }
{
    let table = table_of(value, TablePlace::Module(entry, i))?;
    module_in(alloc, table, TablePlace::Module(entry, i))
}

fn modules_in<'a, A: Allocator + Copy>(
    alloc: A,
    items: &'a [Value],
    entry: usize,
) -> Result<Vec<ModuleRow<A>, A>, TableFault<'a>>
    ensures { ReadsAs (λ v. map module_view v.items)
        (kept.HasBadItem (kept.IsBadTable (places.Module entry) keys.Module) (items_view items.now))
        result
        (values.each_item (values.in_table spec.module_in) (items_view items.now)) }
{
    let mut modules = Vec::new(alloc);
    for (i, item) in items.iter().enumerate() {
        let module = module_of(alloc, item, entry, i)?;
        modules.push(module)?;
    }
    Ok(modules)
}

/// The modules of the entry of this index, none where it has no such key.
pub fn modules_at<'a, A: Allocator + Copy>(
    alloc: A,
    table: &'a Table,
    entry: usize,
) -> Result<Modules<A>, TableFault<'a>>
    ensures { ReadsAs (λ m. map module_view m.rows.items)
        (IsEntryBad keys.Multiboot2Entry entry (table_view table.now)) result
        (values.at_key_or [] spec.toml_modules (codes "module") (table_view table.now)) }
{
    let items = items_at(table, TablePlace::Entry(entry), &MODULE)?;
    let rows = modules_in(alloc, items, entry)?;
    Ok(Modules { rows })
}
