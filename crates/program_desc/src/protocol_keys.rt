//! The protocols of entries: what each is called, and what its entries have beside their kernel.
ghost use Rattle.std.specs.Prelude.{◌≡◌, codes, option_map, Some, IfOk};
ghost use Rattle.toml.specs.View.{table_view};
ghost use Rattle.bl_plan.specs.Protocols.{of_linux};
ghost use Rattle.program_desc.specs.KeyRules.{required_key, set_of_protocol};
ghost use Rattle.program_desc.specs.TableFaults.{ReadsAs};
ghost use Rattle.program_desc.specs.TomlValues as values;
ghost use Rattle.program_desc.specs.Entries as spec;
ghost use Rattle.program_desc.specs.Views.{form_view};
ghost use Rattle.program_desc.specs.internal.EntryReading.{IsEntryBad};
ghost use Rattle.program_desc.specs.internal.TableReading as kept;
ghost use Rattle.program_desc.specs.declared.allowed.Allowed.TheVariants.{ProtocolName};
ghost use Rattle.program_desc.specs.declared.key_set.KeySet.TheVariants as keys;

use crate::bad_key::TablePlace;
use crate::entry_form::EntryForm;
use crate::key_set::KeySet;
use crate::key_table::{INITRD, PROTOCOL, RSDP_NEW, RSDP_OLD};
use crate::keys::{bad_value, required_at};
use crate::modules::modules_at;
use crate::owned_text::Text;
use crate::rsdp_copies::copy_if;
use crate::table_fault::TableFault;
use crate::texts::text_if;
use bl_plan::Protocol;
use std::alloc::{AllocError, Allocator};
use toml::Table;

/// The protocol of an entry.
pub fn protocol_at<'a>(table: &'a Table, place: TablePlace) -> Result<Protocol, TableFault<'a>>
    ensures { ReadsAs (λ p. p)
        (kept.BreaksAt place (required_key (codes "protocol") ProtocolName) (table_view table.now))
        result
        (values.at_key spec.toml_protocol (codes "protocol") (table_view table.now)) }
{
    let value = required_at(table, place, &PROTOCOL)?;
    match value.as_str() {
        Some(name) => Protocol::from_name(name).ok_or(bad_value(place, &PROTOCOL, value)),
        None => Err(bad_value(place, &PROTOCOL, value)),
    }
}

/// The keys of an entry of this protocol.
pub fn keys_of_protocol(protocol: Protocol) -> KeySet
    ensures { result ≡ set_of_protocol (Some protocol) }
{
    match protocol {
        Protocol::Multiboot2 => KeySet::Multiboot2Entry,
        Protocol::Linux | Protocol::Linux64 => KeySet::LinuxEntry,
    }
}

/// A text of one's own, of one that may be left out.
fn own_text<A: Allocator>(alloc: A, text: Option<&str>) -> Result<Option<Text<A>>, AllocError>
    ensures { IfOk result (λ own. own ≡ option_map (λ s. s.now) text.entry) }
{
    match text {
        Some(text) => Ok(Some(Text::from_str(alloc, text)?)),
        None => Ok(None),
    }
}

fn multiboot2_form<'a, A: Allocator + Copy>(
    alloc: A,
    table: &'a Table,
    i: usize,
) -> Result<EntryForm<A>, TableFault<'a>>
    ensures { ReadsAs form_view (IsEntryBad keys.Multiboot2Entry i (table_view table.now)) result
        (spec.multiboot2_form (table_view table.now)) }
{
    let modules = modules_at(alloc, table, i)?;
    let rsdp_old = copy_if(alloc, table, TablePlace::Entry(i), &RSDP_OLD)?;
    let rsdp_new = copy_if(alloc, table, TablePlace::Entry(i), &RSDP_NEW)?;
    Ok(EntryForm::Multiboot2 {
        modules,
        rsdp_old,
        rsdp_new,
    })
}

fn linux_form<'a, A: Allocator>(
    alloc: A,
    table: &'a Table,
    i: usize,
    wide: bool,
) -> Result<EntryForm<A>, TableFault<'a>>
    ensures { ReadsAs form_view (IsEntryBad keys.LinuxEntry i (table_view table.now)) result
        (spec.linux_form (of_linux wide) (table_view table.now)) }
{
    let initrd = text_if(table, TablePlace::Entry(i), &INITRD)?;
    Ok(EntryForm::Linux {
        initrd: own_text(alloc, initrd)?,
        wide,
    })
}

/// What the entry of this index has beside its kernel, by its protocol.
pub fn form_in<'a, A: Allocator + Copy>(
    alloc: A,
    table: &'a Table,
    i: usize,
    protocol: Protocol,
) -> Result<EntryForm<A>, TableFault<'a>>
    ensures { ReadsAs form_view
        (IsEntryBad (set_of_protocol (Some protocol)) i (table_view table.now)) result
        (spec.form_in protocol (table_view table.now)) }
{
    match protocol {
        Protocol::Multiboot2 => multiboot2_form(alloc, table, i),
        Protocol::Linux => linux_form(alloc, table, i, false),
        Protocol::Linux64 => linux_form(alloc, table, i, true),
    }
}
