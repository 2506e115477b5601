//! The texts at the keys of a description's tables, read as by `keys`.
ghost use Rattle.std.specs.Prelude.{◌≡◌, [], true, option_map};
ghost use Rattle.toml.specs.View.{table_view};
ghost use Rattle.program_desc.specs.TomlValues as spec;
ghost use Rattle.program_desc.specs.TableFaults.{ReadsAs};
ghost use Rattle.program_desc.specs.internal.TableReading as kept;
ghost use Rattle.program_desc.specs.declared.allowed.Allowed.TheVariants.{AnyText};

use crate::bad_key::TablePlace;
use crate::key_table::Key;
use crate::keys::{at_key, bad_value, required_at};
use crate::table_fault::TableFault;
use toml::Table;

/// The text at a key that must stand.
pub fn text_at<'a>(
    table: &'a Table,
    place: TablePlace,
    key: &Key,
) -> Result<&'a str, TableFault<'a>>
    requires required { key.now.required ≡ true }
    requires allowed { key.now.allowed ≡ AnyText }
    ensures { ReadsAs (λ s. s.now)
        (kept.BreaksAt place (kept.rule_view key.now) (table_view table.now)) result
        (spec.at_key spec.toml_text key.now.name.now (table_view table.now)) }
{
    let value = required_at(table, place, key)?;
    value.as_str().ok_or(bad_value(place, key, value))
}

/// The text at a key that may be left out.
pub fn text_if<'a>(
    table: &'a Table,
    place: TablePlace,
    key: &Key,
) -> Result<Option<&'a str>, TableFault<'a>>
    requires { key.now.allowed ≡ AnyText }
    ensures { ReadsAs (option_map (λ s. s.now))
        (kept.BreaksAt place (kept.rule_view key.now) (table_view table.now)) result
        (spec.at_key_if spec.toml_text key.now.name.now (table_view table.now)) }
{
    match at_key(table, key.name) {
        Some(value) => match value.as_str() {
            Some(text) => Ok(Some(text)),
            None => Err(bad_value(place, key, value)),
        },
        None => Ok(None),
    }
}

/// The text at a key that may be left out, which is then empty.
pub fn text_or_empty<'a>(
    table: &'a Table,
    place: TablePlace,
    key: &Key,
) -> Result<&'a str, TableFault<'a>>
    requires { key.now.allowed ≡ AnyText }
    ensures { ReadsAs (λ s. s.now)
        (kept.BreaksAt place (kept.rule_view key.now) (table_view table.now)) result
        (spec.at_key_or [] spec.toml_text key.now.name.now (table_view table.now)) }
{
    match at_key(table, key.name) {
        Some(value) => value.as_str().ok_or(bad_value(place, key, value)),
        None => Ok(""),
    }
}
