//! The ranges of a description in which nothing is placed.
ghost use Rattle.std.specs.Prelude.{[], codes};
ghost use Rattle.toml.specs.View.{view, table_view, items_view};
ghost use Rattle.program_desc.specs.BadKeys.{IsBadKey};
ghost use Rattle.program_desc.specs.DescribedFirmware as spec;
ghost use Rattle.program_desc.specs.TableFaults.{ReadsAs};
ghost use Rattle.program_desc.specs.TomlValues as values;
ghost use Rattle.program_desc.specs.internal.TableReading as kept;
ghost use Rattle.program_desc.specs.declared.bad_key.TablePlace.TheVariants as places;
ghost use Rattle.program_desc.specs.declared.key_set.KeySet.TheVariants as keys;

use crate::arrays::{items_at, table_of};
use crate::bad_key::TablePlace;
use crate::key_set::KeySet;
use crate::key_table::{AVOID, BASE, LENGTH};
use crate::keys::{check_keys, number_at};
use crate::table_fault::TableFault;
use std::alloc::Allocator;
use std::ops::Range;
use toml::{Table, Value};

#[tactic(auto, unfolding(crate::specs::DescribedFirmware::avoided_in))]
fn avoided_in<'a>(table: &'a Table, place: TablePlace) -> Result<Range<u64>, TableFault<'a>>
    ensures { ReadsAs (λ r. r) (kept.IsFaultOf place keys.Avoided (table_view table.now)) result
        (spec.avoided_in (table_view table.now)) }
{
    check_keys(table, place, KeySet::Avoided)?;
    let base = number_at(table, place, &BASE)?;
    let length = number_at(table, place, &LENGTH)?;
    Ok(base..base + length)
}

/// A range, from an item of an array of tables.
fn avoided_of<'a>(value: &'a Value, i: usize) -> Result<Range<u64>, TableFault<'a>>
    ensures { ReadsAs (λ r. r) (kept.IsBadTable places.Avoided keys.Avoided i (view value.now))
        result (values.in_table spec.avoided_in (view value.now)) }
{
    let table = table_of(value, TablePlace::Avoided(i))?;
    avoided_in(table, TablePlace::Avoided(i))
}

fn all_avoided_in<'a, A: Allocator>(
    alloc: A,
    items: &'a [Value],
) -> Result<Vec<Range<u64>, A>, TableFault<'a>>
    ensures { ReadsAs (λ v. v.items)
        (kept.HasBadItem (kept.IsBadTable places.Avoided keys.Avoided) (items_view items.now))
        result (values.each_item (values.in_table spec.avoided_in) (items_view items.now)) }
{
    let mut avoided = Vec::new(alloc);
    for (i, item) in items.iter().enumerate() {
        let range = avoided_of(item, i)?;
        avoided.push(range)?;
    }
    Ok(avoided)
}

/// The ranges in which nothing is placed, none where the description has no such key.
pub fn avoided_at<'a, A: Allocator>(
    alloc: A,
    table: &'a Table,
) -> Result<Vec<Range<u64>, A>, TableFault<'a>>
    ensures { ReadsAs (λ v. v.items) (IsBadKey (table_view table.now)) result
        (values.at_key_or [] spec.toml_avoided (codes "avoid") (table_view table.now)) }
{
    let items = items_at(table, TablePlace::Description, &AVOID)?;
    all_avoided_in(alloc, items)
}
