//! Arrays of a description: their items, each in its place.
ghost use Rattle.std.specs.Prelude.{◌≡◌};
ghost use Rattle.toml.specs.View.{view, table_view, items_view};
ghost use Rattle.toml.specs.Data.{as_table};
ghost use Rattle.program_desc.specs.TableFaults.{ReadsAs};
ghost use Rattle.program_desc.specs.internal.TableReading as kept;
ghost use Rattle.program_desc.specs.declared.bad_key.KeyFault.TheVariants.{BadItem};
ghost use Rattle.program_desc.specs.declared.bad_key.TablePlace.TheVariants.{Description};
ghost use Rattle.program_desc.specs.declared.table_fault.TableFault.TheVariants as faults;

use crate::allowed::Allowed;
use crate::bad_key::{BadKey, KeyFault, TablePlace};
use crate::key_table::Key;
use crate::keys::{at_key, bad_value};
use crate::table_fault::TableFault;
use bl_plan::{MAX_ENTRIES, MAX_MODULES};
use toml::{Table, Value};

/// Whether an array may have so many items, by a rule for arrays.
fn allows_count(allowed: Allowed, n: usize) -> bool
    ensures { result ≡ kept.allows_count allowed n }
{
    match allowed {
        Allowed::TwoNumbers => 2 <= n && n <= 2,
        Allowed::EntryTables => 1 <= n && n <= MAX_ENTRIES,
        Allowed::ModuleTables => n <= MAX_MODULES,
        _ => true,
    }
}

/// The items of the array at a key; none if the key may be left out, and is.
pub fn items_at<'a>(
    table: &'a Table,
    place: TablePlace,
    key: &Key,
) -> Result<&'a [Value], TableFault<'a>>
    requires { kept.AllowsArrays key.now.allowed }
    ensures { ReadsAs (λ items. items_view items.now)
        (kept.BreaksAt place (kept.rule_view key.now) (table_view table.now)) result
        (kept.array_by (kept.rule_view key.now) (table_view table.now)) }
{
    match at_key(table, key.name) {
        Some(value) => match value.as_array() {
            Some(array) => {
                let items = array.as_slice();
                if !allows_count(key.allowed, items.len()) {
                    return Err(bad_value(place, key, value));
                }
                Ok(items)
            }
            None => Err(bad_value(place, key, value)),
        },
        None => {
            if !key.required {
                return Ok(&[]);
            }
            Err(TableFault::BadKey(BadKey {
                table: place,
                fault: KeyFault::Missing(key.name, key.allowed),
            }))
        }
    }
}

/// The table that an item of an array is; its place is told where it is none.
pub fn table_of<'a>(value: &'a Value, place: TablePlace) -> Result<&'a Table, TableFault<'a>>
    ensures { ReadsAs (λ table. table_view table.now) (kept.IsNoTable place (view value.now)) result
        (as_table (view value.now)) }
{
    match value.as_table() {
        Some(table) => Ok(table),
        None => Err(TableFault::BadKey(BadKey {
            table: place,
            fault: KeyFault::NoTable(value),
        })),
    }
}

/// That this item of the array at a key of the description is not allowed.
pub fn bad_item<'a>(key: &Key, i: usize, value: &'a Value, allowed: Allowed) -> TableFault<'a>
    ensures { result ≡ faults.BadKey (record {
      table = Description;
      fault = BadItem key.now.name i value.entry allowed;
    }) }
{
    TableFault::BadKey(BadKey {
        table: TablePlace::Description,
        fault: KeyFault::BadItem(key.name, i, value, allowed),
    })
}
