//! What a description says, and how it is read from its root table.
ghost use Rattle.std.specs.Prelude.{◌≡◌, map, option_copied, IfOk};
ghost use Rattle.toml.specs.View.{table_view};
ghost use Rattle.program_desc.specs.BadKeys.{IsBadKey};
ghost use Rattle.program_desc.specs.Described as spec;
ghost use Rattle.program_desc.specs.TableFaults.{ReadsAs};
ghost use Rattle.program_desc.specs.Views.{HasMenu, file_view, view};

use crate::bad_key::TablePlace;
use crate::default_and_fallbacks::{default_at, fallbacks_at};
use crate::entries::{count_of, entries_at};
use crate::entry_row::EntryRow;
use crate::file_row::FileRow;
use crate::files::files_at;
use crate::firmware::{avoided_at, firmware_at};
use crate::key_set::KeySet;
use crate::key_table::{FILL, SIZE};
use crate::keys::{byte_or_zero, check_keys, number_at};
use crate::pool::pool_at;
use crate::regions::regions_at;
use crate::table_fault::TableFault;
use bl_map::{OwnedFirmware, Region};
use std::alloc::{Allocator, Global};
use std::ops::Range;
use toml::Table;

/// What a description says: the machine, files and the menu, which has 1 to 32 entries.
///
/// `size` is in bytes, `fill` is what each byte of memory holds before the boot, and the regions
/// may come in any order. Whether they, and what firmware tells, make a machine is not asked here.
/// No two files have one name. `default` and each of `fallbacks`, in which one may repeat, is the
/// index of an entry, counted from 0.
#[derive(Drop)]
pub struct Description<A: Allocator> {
    pub size: u64,
    pub pool: Range<u64>,
    pub fill: u8,
    pub regions: Vec<Region, A>,
    pub firmware: OwnedFirmware<A>,
    pub files: Vec<FileRow<A>, A>,
    pub entries: Vec<EntryRow<A>, A>,
    pub default: u32,
    pub fallbacks: Vec<u32, A>,
}

/// The bytes of the first of these files that has this name, if one has.
pub fn file_named<'a, A: Allocator>(name: &str, files: &'a [FileRow<A>]) -> Option<&'a [u8]>
    ensures { option_copied result ≡ spec.file_named name.now (map file_view files.now) }
{
    for file in files {
        if file.name.as_str() == name {
            return Some(file.bytes.as_slice());
        }
    }
    None
}

impl<A: Allocator> Description<A> {
    /// The bytes of the file of this name that stands in the description, if one does.
    pub fn file_named(&self, name: &str) -> Option<&[u8]>
        ensures { option_copied result ≡ spec.file_named name.now (view self.now).files }
    {
        file_named(name, &self.files)
    }
}

/// What the root table of a document describes, or the first bad key of it: one that it may not
/// have, then its keys one by one, arrays item by item. A file that has the name of an earlier one
/// comes after all files, default and fallbacks after all entries.
///
/// `global` is what the names of the files are kept in meanwhile; the description is made in
/// `alloc`.
#[tactic(auto, unfolding(crate::specs::Described::described_in))]
pub fn described_in<'a, A: Allocator + Copy>(
    alloc: A,
    global: Global,
    table: &'a Table,
) -> Result<Description<A>, TableFault<'a>>
    ensures given { ReadsAs view (IsBadKey (table_view table.now)) result
        (spec.described_in (table_view table.now)) }
    ensures menu { IfOk result HasMenu }
{
    check_keys(table, TablePlace::Description, KeySet::Description)?;
    let size = number_at(table, TablePlace::Description, &SIZE)?;
    let pool = pool_at(table)?;
    let fill = byte_or_zero(table, TablePlace::Description, &FILL)?;
    let regions = regions_at(alloc, table)?;
    let avoided = avoided_at(alloc, table)?;
    let firmware = firmware_at(alloc, table, avoided)?;
    let files = files_at(alloc, global, table)?;
    let entries = entries_at(alloc, table)?;
    let count = count_of(&entries);
    let default = default_at(table, count)?;
    let fallbacks = fallbacks_at(alloc, table, count)?;
    Ok(Description {
        size,
        pool,
        fill,
        regions,
        firmware,
        files,
        entries,
        default,
        fallbacks,
    })
}
