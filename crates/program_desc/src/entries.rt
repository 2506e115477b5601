//! The entries of a description.
ghost use Rattle.std.specs.Prelude.{◌≡◌, ◌≤◌, length, map, codes, Some, IfOk, IfSome};
ghost use Rattle.toml.specs.View.{view, table_view, items_view};
ghost use Rattle.program_desc.specs.BadKeys.{IsBadKey};
ghost use Rattle.program_desc.specs.KeyRules.{required_key, set_of_protocol};
ghost use Rattle.program_desc.specs.TableFaults.{ReadsAs};
ghost use Rattle.program_desc.specs.TomlValues as values;
ghost use Rattle.program_desc.specs.Entries as spec;
ghost use Rattle.bl_plan.specs.MenuLimits.{max_entries};
ghost use Rattle.program_desc.specs.Entries.{HasCopyLength};
ghost use Rattle.program_desc.specs.Views.{entry_view, form_view};
ghost use Rattle.program_desc.specs.internal.EntryReading.{IsEntryBad, IsEntryItemBad};
ghost use Rattle.program_desc.specs.internal.EntryReading.{entry_set_in};
ghost use Rattle.program_desc.specs.internal.TableReading as kept;
ghost use Rattle.program_desc.specs.declared.allowed.Allowed.TheVariants.{Title};

use crate::arrays::{items_at, table_of};
use crate::bad_key::TablePlace;
use crate::entry_form::EntryForm;
use crate::entry_row::EntryRow;
use crate::key_table::{ENTRY, KERNEL, LINE, TITLE};
use crate::keys::{bad_value, check_keys, required_at};
use crate::owned_text::Text;
use crate::protocol_keys::{form_in, keys_of_protocol, protocol_at};
use crate::table_fault::TableFault;
use crate::texts::{text_at, text_or_empty};
use bl_plan::Protocol;
use std::alloc::{AllocError, Allocator};
use toml::{Table, Value};

/// Whether each byte of a text is printable ASCII.
fn is_printable(text: &str) -> bool
    ensures { result ≡ spec.is_printable text.now }
{
    text.as_bytes().iter().all(|c| *c >= 0x20 && *c <= 0x7E)
}

/// Whether a text can be a title: 1 to 64 printable characters of ASCII.
fn is_title(text: &str) -> bool
    ensures { result ≡ spec.is_title text.now }
{
    if text.is_empty() || text.len() > 64 {
        return false;
    }
    is_printable(text)
}

/// The title of an entry.
fn title_at<'a>(table: &'a Table, place: TablePlace) -> Result<&'a str, TableFault<'a>>
    ensures { ReadsAs (λ s. s.now)
        (kept.BreaksAt place (required_key (codes "title") Title) (table_view table.now)) result
        (values.at_key spec.toml_title (codes "title") (table_view table.now)) }
{
    let value = required_at(table, place, &TITLE)?;
    match value.as_str() {
        Some(title) => {
            if !is_title(title) {
                return Err(bad_value(place, &TITLE, value));
            }
            Ok(title)
        }
        None => Err(bad_value(place, &TITLE, value)),
    }
}

/// Texts of one's own: a title, a kernel and a line.
fn own_texts<A: Allocator + Copy>(
    alloc: A,
    title: &str,
    kernel: &str,
    line: &str,
) -> Result<(Text<A>, Text<A>, Text<A>), AllocError>
    ensures { IfOk result (λ own. (own.0 ≡ title.now) × (own.1 ≡ kernel.now) × (own.2 ≡ line.now)) }
{
    let title = Text::from_str(alloc, title)?;
    let kernel = Text::from_str(alloc, kernel)?;
    let line = Text::from_str(alloc, line)?;
    Ok((title, kernel, line))
}

/// An entry with texts of its own.
fn entry_with<A: Allocator + Copy>(
    alloc: A,
    title: &str,
    kernel: &str,
    line: &str,
    form: EntryForm<A>,
) -> Result<EntryRow<A>, AllocError>
    requires old { IfSome (form_view form).rsdp_old HasCopyLength }
    requires new { IfSome (form_view form).rsdp_new HasCopyLength }
    ensures { IfOk result (λ entry. entry_view entry ≡ record {
      title = title.now;
      kernel = kernel.now;
      line = line.now;
      form = form_view form;
    }) }
{
    let own = own_texts(alloc, title, kernel, line)?;
    Ok(EntryRow {
        title: own.0,
        kernel: own.1,
        line: own.2,
        form,
    })
}

#[tactic(auto, unfolding(crate::specs::Entries::entry_by))]
fn entry_by<'a, A: Allocator + Copy>(
    alloc: A,
    table: &'a Table,
    i: usize,
    protocol: Protocol,
) -> Result<EntryRow<A>, TableFault<'a>>
    ensures { ReadsAs entry_view
        (IsEntryBad (set_of_protocol (Some protocol)) i (table_view table.now)) result
        (spec.entry_by (table_view table.now) protocol) }
{
    check_keys(table, TablePlace::Entry(i), keys_of_protocol(protocol))?;
    let title = title_at(table, TablePlace::Entry(i))?;
    let kernel = text_at(table, TablePlace::Entry(i), &KERNEL)?;
    let line = text_or_empty(table, TablePlace::Entry(i), &LINE)?;
    let form = form_in(alloc, table, i, protocol)?;
    Ok(entry_with(alloc, title, kernel, line, form)?)
}

#[tactic(auto, unfolding(crate::specs::Entries::menu_entry_in))]
fn menu_entry_in<'a, A: Allocator + Copy>(
    alloc: A,
    table: &'a Table,
    i: usize,
) -> Result<EntryRow<A>, TableFault<'a>>
    ensures { ReadsAs entry_view
        (IsEntryBad (entry_set_in (table_view table.now)) i (table_view table.now)) result
        (spec.menu_entry_in (table_view table.now)) }
{
    let protocol = protocol_at(table, TablePlace::Entry(i))?;
    entry_by(alloc, table, i, protocol)
}

/// An entry, from an item of an array of tables.
fn entry_of<'a, A: Allocator + Copy>(
    alloc: A,
    value: &'a Value,
    i: usize,
) -> Result<EntryRow<A>, TableFault<'a>>
    ensures { ReadsAs entry_view (IsEntryItemBad i (view value.now)) result
        (values.in_table spec.menu_entry_in (view value.now)) }
{
    let table = table_of(value, TablePlace::Entry(i))?;
    menu_entry_in(alloc, table, i)
}

fn entries_in<'a, A: Allocator + Copy>(
    alloc: A,
    items: &'a [Value],
) -> Result<Vec<EntryRow<A>, A>, TableFault<'a>>
    ensures { ReadsAs (λ v. map entry_view v.items)
        (kept.HasBadItem IsEntryItemBad (items_view items.now)) result
        (values.each_item (values.in_table spec.menu_entry_in) (items_view items.now)) }
{
    let mut entries = Vec::new(alloc);
    for (i, item) in items.iter().enumerate() {
        let entry = entry_of(alloc, item, i)?;
        entries.push(entry)?;
    }
    Ok(entries)
}

/// The entries of a description, which must stand.
pub fn entries_at<'a, A: Allocator + Copy>(
    alloc: A,
    table: &'a Table,
) -> Result<Vec<EntryRow<A>, A>, TableFault<'a>>
    ensures { ReadsAs (λ v. map entry_view v.items) (IsBadKey (table_view table.now)) result
        (values.at_key spec.toml_entries (codes "entry") (table_view table.now)) }
{
    let items = items_at(table, TablePlace::Description, &ENTRY)?;
    entries_in(alloc, items)
}

/// How many entries a menu has.
pub fn count_of<A: Allocator>(entries: &[EntryRow<A>]) -> u32
    requires { length entries.now ≤ max_entries }
    ensures { result ≡ length (map entry_view entries.now) }
{
    entries.len() as u32
}
