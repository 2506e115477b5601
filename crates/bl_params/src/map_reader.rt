//! The memory map in boot parameters.
ghost use Rattle.std.specs.Prelude.{◌≡◌, ◌≤◌, ◌<◌, ◌+◌, ◌*◌, ◌&&◌, nat_le, true};
ghost use Rattle.std.specs.Prelude.{length, MatchResult};
ghost use Rattle.bl_map.specs.Kinds.{kind_number};
ghost use Rattle.bl_params.specs.BootParamsForm.{e820_entry_count, e820_entry_offset};
ghost use Rattle.bl_params.specs.Reading.{HasFirstParamFault, AreE820Entries, IsE820Entry};
ghost use Rattle.bl_params.specs.ParamsToWriteFacts.{max_e820_entries};
ghost use Rattle.bl_params.specs.internal.CheckedForm.{HasFormBelow};
ghost use Rattle.bl_params.specs.SizesAndOffsets.{e820_table_at, params_size};

use crate::fault::ParamFault;
use crate::fields::{E820_ENTRIES, E820_TABLE, ENTRY_LENGTH, ENTRY_SIZE, ENTRY_TYPE};
use crate::form_checks::check_field;
use crate::little_endian_slice::{u32_in, u64_in};
use bl_map::{Kind, MAX_REGION_END, Region};
use std::alloc::Allocator;

/// Whether a number is that of a kind.
fn is_kind(number: u32) -> bool
    ensures { result ≡ (nat_le 1 number && nat_le number 5) }
{
    1 <= number && number <= 5
}

/// The kind of a number.
fn kind_of(number: u32) -> Kind
    requires { (nat_le 1 number && nat_le number 5) ≡ true }
    ensures { kind_number result ≡ number }
{
    match number {
        1 => Kind::Usable,
        2 => Kind::Reserved,
        3 => Kind::Acpi,
        4 => Kind::Nvs,
        _ => Kind::Bad,
    }
}

/// The entry with a number, counted from 0.
fn entry(bytes: &[u8], i: usize) -> Result<Region, ParamFault>
    requires whole { length bytes.now ≡ params_size }
    requires few { e820_entry_count bytes.now ≤ max_e820_entries }
    requires counted { i < e820_entry_count bytes.now }
    requires upto { HasFormBelow bytes.now (e820_entry_offset i) }
    ensures { MatchResult result
        (λ run. IsE820Entry bytes.now (e820_entry_offset i) run
        × HasFormBelow bytes.now (e820_entry_offset (i + 1)))
        (HasFirstParamFault bytes.now) }
{
    let at = E820_TABLE + ENTRY_SIZE * i;
    let base = u64_in(bytes, at);
    let length = u64_in(bytes, at + ENTRY_LENGTH);
    let is_high = base as u128 + length as u128 > MAX_REGION_END as u128;
    check_field(bytes, at, at + ENTRY_TYPE, is_high)?;
    let number = u32_in(bytes, at + ENTRY_TYPE);
    check_field(bytes, at + ENTRY_TYPE, at + ENTRY_SIZE, !is_kind(number))?;
    let kind = kind_of(number);
    Ok(Region { base, length, kind })
}

/// The memory map's runs.
pub fn entries<A: Allocator>(alloc: A, bytes: &[u8]) -> Result<Vec<Region, A>, ParamFault>
    requires whole { length bytes.now ≡ params_size }
    requires few { e820_entry_count bytes.now ≤ max_e820_entries }
    requires upto { HasFormBelow bytes.now e820_table_at }
    ensures { MatchResult result
        (λ runs. AreE820Entries bytes.now e820_table_at runs.items
        × (length runs.items ≡ e820_entry_count bytes.now)
        × HasFormBelow bytes.now (e820_entry_offset (e820_entry_count bytes.now)))
        (HasFirstParamFault bytes.now) }
{
    let mut runs = Vec::new(alloc);
    let count = bytes[E820_ENTRIES] as usize;
    for i in 0..count {
        let run = entry(bytes, i)?;
        runs.push(run)?;
    }
    Ok(runs)
}
