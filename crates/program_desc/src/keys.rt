//! What stands at the keys of a description's tables. Each reader takes a key with its rule, and
//! answers what stands there or how the rule is broken.
ghost use Rattle.std.specs.Prelude.{◌≡◌, ◌<◌, ◌^◌, true, false, option_map, IfOk, IfErr};
ghost use Rattle.toml.specs.View.{view, table_view};
ghost use Rattle.toml.specs.Data.{as_table, get_member};
ghost use Rattle.program_desc.specs.KeyRules.{keys_of_set};
ghost use Rattle.program_desc.specs.TomlValues as spec;
ghost use Rattle.program_desc.specs.TableFaults.{ReadsAs};
ghost use Rattle.program_desc.specs.internal.TableReading as kept;
ghost use Rattle.program_desc.specs.declared.allowed.Allowed.TheVariants.{Number, Byte};
ghost use Rattle.program_desc.specs.declared.allowed.Allowed.TheVariants.{Word, OneTable};
ghost use Rattle.program_desc.specs.declared.bad_key.KeyFault.TheVariants.{BadValue};
ghost use Rattle.program_desc.specs.declared.table_fault.TableFault.TheVariants as faults;

use crate::bad_key::{BadKey, KeyFault, TablePlace};
use crate::key_set::KeySet;
use crate::key_table::{Key, is_key};
use crate::table_fault::TableFault;
use crate::values::{toml_byte, toml_number, toml_word};
use toml::{Table, Value};

/// The value at a key of a table, if it has that key.
pub fn at_key<'a>(table: &'a Table, key: &str) -> Option<&'a Value>
    ensures { option_map (λ v. view v.now) result ≡ get_member key.now (table_view table.now) }
{
    table.get(key)
}

/// Whether the table at this place has only keys that it may have.
pub fn check_keys<'a>(
    table: &'a Table,
    place: TablePlace,
    set: KeySet,
) -> Result<(), TableFault<'a>>
    ensures ok { IfOk result (λ _. spec.has_only (keys_of_set set) (table_view table.now) ≡ true) }
    ensures err { IfErr result (kept.HasUnknownKey place set (table_view table.now)) }
{
    match table.keys().find(|key| !is_key(set, key.as_str())) {
        Some(key) => Err(TableFault::BadKey(BadKey {
            table: place,
            fault: KeyFault::Unknown(key.as_str(), set),
        })),
        None => Ok(()),
    }
}

/// That this value of a key is not allowed.
pub fn bad_value<'a>(place: TablePlace, key: &Key, value: &'a Value) -> TableFault<'a>
    ensures { result ≡ faults.BadKey (record {
      table = place;
      fault = BadValue key.now.name value.entry key.now.allowed;
    }) }
{
    TableFault::BadKey(BadKey {
        table: place,
        fault: KeyFault::BadValue(key.name, value, key.allowed),
    })
}

/// The value at a key that must stand.
pub fn required_at<'a>(
    table: &'a Table,
    place: TablePlace,
    key: &Key,
) -> Result<&'a Value, TableFault<'a>>
    requires { key.now.required ≡ true }
    ensures { ReadsAs (λ v. view v.now)
        (kept.BreaksAt place (kept.rule_view key.now) (table_view table.now)) result
        (get_member key.now.name.now (table_view table.now)) }
{
    match at_key(table, key.name) {
        Some(value) => Ok(value),
        None => Err(TableFault::BadKey(BadKey {
            table: place,
            fault: KeyFault::Missing(key.name, key.allowed),
        })),
    }
}

/// The number at a key that must stand.
pub fn number_at<'a>(table: &'a Table, place: TablePlace, key: &Key) -> Result<u64, TableFault<'a>>
    requires required { key.now.required ≡ true }
    requires allowed { key.now.allowed ≡ Number }
    ensures value { ReadsAs (λ n. n)
        (kept.BreaksAt place (kept.rule_view key.now) (table_view table.now)) result
        (spec.at_key spec.toml_number key.now.name.now (table_view table.now)) }
    ensures short { IfOk result (λ n. n < 2 ^ 63) }
{
    let value = required_at(table, place, key)?;
    toml_number(value).ok_or(bad_value(place, key, value))
}

/// The number at a key that may be left out.
pub fn number_if<'a>(
    table: &'a Table,
    place: TablePlace,
    key: &Key,
) -> Result<Option<u64>, TableFault<'a>>
    requires { key.now.allowed ≡ Number }
    ensures { ReadsAs (λ n. n)
        (kept.BreaksAt place (kept.rule_view key.now) (table_view table.now)) result
        (spec.at_key_if spec.toml_number key.now.name.now (table_view table.now)) }
{
    match at_key(table, key.name) {
        Some(value) => match toml_number(value) {
            Some(number) => Ok(Some(number)),
            None => Err(bad_value(place, key, value)),
        },
        None => Ok(None),
    }
}

/// The number of 32 bits at a key that must stand.
pub fn word_at<'a>(table: &'a Table, place: TablePlace, key: &Key) -> Result<u32, TableFault<'a>>
    requires required { key.now.required ≡ true }
    requires allowed { key.now.allowed ≡ Word }
    ensures { ReadsAs (λ n. n)
        (kept.BreaksAt place (kept.rule_view key.now) (table_view table.now)) result
        (spec.at_key spec.toml_word key.now.name.now (table_view table.now)) }
{
    let value = required_at(table, place, key)?;
    toml_word(value).ok_or(bad_value(place, key, value))
}

/// The byte at a key that must stand.
pub fn byte_at<'a>(table: &'a Table, place: TablePlace, key: &Key) -> Result<u8, TableFault<'a>>
    requires required { key.now.required ≡ true }
    requires allowed { key.now.allowed ≡ Byte }
    ensures { ReadsAs (λ n. n)
        (kept.BreaksAt place (kept.rule_view key.now) (table_view table.now)) result
        (spec.at_key spec.toml_byte key.now.name.now (table_view table.now)) }
{
    let value = required_at(table, place, key)?;
    toml_byte(value).ok_or(bad_value(place, key, value))
}

/// The table at a key that may be left out.
pub fn table_if<'a>(
    table: &'a Table,
    place: TablePlace,
    key: &Key,
) -> Result<Option<&'a Table>, TableFault<'a>>
    requires { key.now.allowed ≡ OneTable }
    ensures { ReadsAs (option_map (λ t. table_view t.now))
        (kept.BreaksAt place (kept.rule_view key.now) (table_view table.now)) result
        (spec.at_key_if as_table key.now.name.now (table_view table.now)) }
{
    match at_key(table, key.name) {
        Some(value) => match value.as_table() {
            Some(inner) => Ok(Some(inner)),
            None => Err(bad_value(place, key, value)),
        },
        None => Ok(None),
    }
}

/// The byte at a key that may be left out, which is then 0.
pub fn byte_or_zero<'a>(
    table: &'a Table,
    place: TablePlace,
    key: &Key,
) -> Result<u8, TableFault<'a>>
    requires { key.now.allowed ≡ Byte }
    ensures { ReadsAs (λ n. n)
        (kept.BreaksAt place (kept.rule_view key.now) (table_view table.now)) result
        (spec.at_key_or 0 spec.toml_byte key.now.name.now (table_view table.now)) }
{
    match at_key(table, key.name) {
        Some(value) => toml_byte(value).ok_or(bad_value(place, key, value)),
        None => Ok(0),
    }
}
