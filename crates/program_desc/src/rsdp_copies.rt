//! The copies of an RSDP that an entry hands over.
ghost use Rattle.std.specs.Prelude.{◌≡◌, IfOk};
ghost use Rattle.toml.specs.View.{view, table_view};
ghost use Rattle.program_desc.specs.TableFaults.{ReadsAs};
ghost use Rattle.program_desc.specs.TomlValues as values;
ghost use Rattle.program_desc.specs.Entries as spec;
ghost use Rattle.program_desc.specs.internal.TableReading as kept;
ghost use Rattle.program_desc.specs.declared.allowed.Allowed.TheVariants.{CopyText};

use crate::bad_key::TablePlace;
use crate::key_table::Key;
use crate::keys::{at_key, bad_value};
use crate::table_fault::TableFault;
use crate::values::toml_bytes;
use bl_mem::Bytes;
use bl_plan::MAX_RSDP_LENGTH;
use std::alloc::{AllocError, Allocator};
use toml::{Table, Value};

/// Whether bytes can be a copy of an RSDP.
fn is_rsdp_copy(bytes: &[u8]) -> bool
    ensures { result ≡ spec.is_rsdp_copy bytes.now }
{
    bytes.len() >= 1 && bytes.len() <= MAX_RSDP_LENGTH
}

/// A copy, from the value of its key, if it is one.
fn toml_rsdp_copy<A: Allocator>(alloc: A, value: &Value) -> Result<Option<Bytes<A>>, AllocError>
    ensures { IfOk result (λ copy. copy ≡ spec.toml_rsdp_copy (view value.now)) }
{
    match toml_bytes(alloc, value)? {
        Some(copy) => {
            if !is_rsdp_copy(copy.as_slice()) {
                return Ok(None);
            }
            Ok(Some(copy))
        }
        None => Ok(None),
    }
}

/// The copy at a key that may be left out.
pub fn copy_if<'a, A: Allocator>(
    alloc: A,
    table: &'a Table,
    place: TablePlace,
    key: &Key,
) -> Result<Option<Bytes<A>>, TableFault<'a>>
    requires { key.now.allowed ≡ CopyText }
    ensures { ReadsAs (λ copy. copy)
        (kept.BreaksAt place (kept.rule_view key.now) (table_view table.now)) result
        (values.at_key_if spec.toml_rsdp_copy key.now.name.now (table_view table.now)) }
{
    match at_key(table, key.name) {
        Some(value) => match toml_rsdp_copy(alloc, value)? {
            Some(copy) => Ok(Some(copy)),
            None => Err(bad_value(place, key, value)),
        },
        None => Ok(None),
    }
}
