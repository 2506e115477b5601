//! The screen of a description.
ghost use Rattle.std.specs.Prelude.{◌≡◌, true, codes};
ghost use Rattle.toml.specs.View.{view, table_view, items_view};
ghost use Rattle.program_desc.specs.DescribedFirmware as spec;
ghost use Rattle.program_desc.specs.TableFaults.{ReadsAs};
ghost use Rattle.program_desc.specs.TomlValues as values;
ghost use Rattle.program_desc.specs.internal.FirmwareReading.{IsFirmwareBad};
ghost use Rattle.program_desc.specs.internal.TableReading as kept;
ghost use Rattle.program_desc.specs.declared.allowed.Allowed.TheVariants.{Color};
ghost use Rattle.program_desc.specs.declared.bad_key.TablePlace.TheVariants as places;
ghost use Rattle.program_desc.specs.declared.key_set.KeySet.TheVariants as keys;

use crate::bad_key::TablePlace;
use crate::firmware_keys::{BLUE, DEPTH, GREEN, HEIGHT, PITCH, RED, SCREEN, WIDTH};
use crate::key_set::KeySet;
use crate::key_table::{BASE, Key};
use crate::keys::{bad_value, byte_at, check_keys, number_at, required_at, table_if, word_at};
use crate::table_fault::TableFault;
use crate::values::toml_byte;
use bl_map::{ColorField, Screen};
use toml::{Table, Value};

/// The colour that two items of an array are, if they are one.
fn color_of(position: &Value, size: &Value) -> Option<ColorField>
    ensures { result ≡ spec.color_of (view position.now) (view size.now) }
{
    let position = toml_byte(position)?;
    let size = toml_byte(size)?;
    Some(ColorField { position, size })
}

/// The colour that an array of these items is, if it is one.
fn color_in(items: &[Value]) -> Option<ColorField>
    ensures { result ≡ spec.color_in (items_view items.now) }
{
    if items.len() != 2 {
        return None;
    }
    color_of(&items[0], &items[1])
}

/// The colour that a value is, if it is one.
fn toml_color(value: &Value) -> Option<ColorField>
    ensures { result ≡ spec.toml_color (view value.now) }
{
    match value.as_array() {
        Some(array) => color_in(array.as_slice()),
        None => None,
    }
}

/// The colour at a key.
fn color_at<'a>(table: &'a Table, key: &Key) -> Result<ColorField, TableFault<'a>>
    requires required { key.now.required ≡ true }
    requires allowed { key.now.allowed ≡ Color }
    ensures { ReadsAs (λ c. c)
        (kept.BreaksAt places.Screen (kept.rule_view key.now) (table_view table.now)) result
        (values.at_key spec.toml_color key.now.name.now (table_view table.now)) }
{
    let value = required_at(table, TablePlace::Screen, key)?;
    toml_color(value).ok_or(bad_value(TablePlace::Screen, key, value))
}

#[tactic(auto, unfolding(crate::specs::DescribedFirmware::described_screen))]
fn described_screen<'a>(table: &'a Table) -> Result<Screen, TableFault<'a>>
    ensures { ReadsAs (λ s. s) (kept.IsFaultOf places.Screen keys.Screen (table_view table.now))
        result (spec.described_screen (table_view table.now)) }
{
    let place = TablePlace::Screen;
    check_keys(table, place, KeySet::Screen)?;
    let base = number_at(table, place, &BASE)?;
    let pitch = word_at(table, place, &PITCH)?;
    let width = word_at(table, place, &WIDTH)?;
    let height = word_at(table, place, &HEIGHT)?;
    let depth = byte_at(table, place, &DEPTH)?;
    let red = color_at(table, &RED)?;
    let green = color_at(table, &GREEN)?;
    let blue = color_at(table, &BLUE)?;
    Ok(Screen {
        base,
        pitch,
        width,
        height,
        depth,
        red,
        green,
        blue,
    })
}

/// The screen, from the table of what firmware tells.
pub fn screen_if<'a>(firmware: &'a Table) -> Result<Option<Screen>, TableFault<'a>>
    ensures { ReadsAs (λ s. s) (IsFirmwareBad (table_view firmware.now)) result
        (values.at_key_if (values.in_table spec.described_screen) (codes "screen")
        (table_view firmware.now)) }
{
    match table_if(firmware, TablePlace::Firmware, &SCREEN)? {
        Some(table) => Ok(Some(described_screen(table)?)),
        None => Ok(None),
    }
}
