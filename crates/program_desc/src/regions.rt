//! The regions of a description.
ghost use Rattle.std.specs.Prelude.{[], codes};
ghost use Rattle.toml.specs.View.{view, table_view, items_view};
ghost use Rattle.program_desc.specs.BadKeys.{IsBadKey};
ghost use Rattle.program_desc.specs.KeyRules.{required_key};
ghost use Rattle.program_desc.specs.TableFaults.{ReadsAs};
ghost use Rattle.program_desc.specs.TomlValues as values;
ghost use Rattle.program_desc.specs.Described as spec;
ghost use Rattle.program_desc.specs.internal.TableReading as kept;
ghost use Rattle.program_desc.specs.declared.allowed.Allowed.TheVariants.{KindName};
ghost use Rattle.program_desc.specs.declared.bad_key.TablePlace.TheVariants as places;
ghost use Rattle.program_desc.specs.declared.key_set.KeySet.TheVariants as keys;

use crate::arrays::{items_at, table_of};
use crate::bad_key::TablePlace;
use crate::key_set::KeySet;
use crate::key_table::{BASE, KIND, LENGTH, REGION};
use crate::keys::{bad_value, check_keys, number_at, required_at};
use crate::table_fault::TableFault;
use bl_map::{Kind, Region};
use std::alloc::Allocator;
use toml::{Table, Value};

/// The kind of a region's memory.
fn kind_at<'a>(table: &'a Table, place: TablePlace) -> Result<Kind, TableFault<'a>>
    ensures { ReadsAs (λ kind. kind)
        (kept.BreaksAt place (required_key (codes "kind") KindName) (table_view table.now)) result
        (values.at_key values.toml_kind (codes "kind") (table_view table.now)) }
{
    let value = required_at(table, place, &KIND)?;
    match value.as_str() {
        Some(name) => Kind::from_name(name).ok_or(bad_value(place, &KIND, value)),
        None => Err(bad_value(place, &KIND, value)),
    }
}

#[tactic(auto, unfolding(crate::specs::Described::region_in))]
fn region_in<'a>(table: &'a Table, place: TablePlace) -> Result<Region, TableFault<'a>>
    ensures { ReadsAs (λ r. r) (kept.IsFaultOf place keys.Region (table_view table.now)) result
        (spec.region_in (table_view table.now)) }
{
    check_keys(table, place, KeySet::Region)?;
    let base = number_at(table, place, &BASE)?;
    let length = number_at(table, place, &LENGTH)?;
    let kind = kind_at(table, place)?;
    Ok(Region { base, length, kind })
}

/// A region, from an item of an array of tables.
fn region_of<'a>(value: &'a Value, i: usize) -> Result<Region, TableFault<'a>>
    ensures { ReadsAs (λ r. r) (kept.IsBadTable places.Region keys.Region i (view value.now)) result
        (values.in_table spec.region_in (view value.now)) }
{
    let table = table_of(value, TablePlace::Region(i))?;
    region_in(table, TablePlace::Region(i))
}

fn regions_in<'a, A: Allocator>(
    alloc: A,
    items: &'a [Value],
) -> Result<Vec<Region, A>, TableFault<'a>>
    ensures { ReadsAs (λ v. v.items)
        (kept.HasBadItem (kept.IsBadTable places.Region keys.Region) (items_view items.now)) result
        (values.each_item (values.in_table spec.region_in) (items_view items.now)) }
{
    let mut regions = Vec::new(alloc);
    for (i, item) in items.iter().enumerate() {
        let region = region_of(item, i)?;
        regions.push(region)?;
    }
    Ok(regions)
}

/// The regions of a description, none where it has no such key.
pub fn regions_at<'a, A: Allocator>(
    alloc: A,
    table: &'a Table,
) -> Result<Vec<Region, A>, TableFault<'a>>
    ensures { ReadsAs (λ v. v.items) (IsBadKey (table_view table.now)) result
        (values.at_key_or [] spec.toml_regions (codes "region") (table_view table.now)) }
{
    let items = items_at(table, TablePlace::Description, &REGION)?;
    regions_in(alloc, items)
}
