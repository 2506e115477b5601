//! What a kernel sees, as records.
ghost use Rattle.std.specs.Prelude.{◌≡◌, ◌∷◌, ◌++◌, [], length, map, unwrap_or, IfOk, OnOk};
ghost use Rattle.std.specs.List.{flat_map};
ghost use Rattle.c_records.specs.SeenTold as spec;

use crate::end_records::NO_WORDS;
use crate::given_records::RegionRecord;
use crate::seen_firmware_telling::add_firmware;
use crate::seen_records::{ByteRange, MISSING, SeenModuleRecord, SeenPartRecord, SeenRecord};
use crate::seen_vectors::SeenVectors;
use bl_map::Region;
use bl_mem::Bytes;
use bl_walk::{Seen, SeenFile, SeenModule, SeenPart};
use std::alloc::{AllocError, Allocator};

fn initrd_start(file: &Option<SeenFile<'_>>) -> u64
    ensures { result ≡ spec.initrd_start file.now }
{
    match file {
        Some(seen) => seen.address as u64,
        None => 0,
    }
}

fn initrd_length(file: &Option<SeenFile<'_>>) -> u64
    ensures { result ≡ spec.initrd_length file.now }
{
    match file {
        Some(seen) => seen.bytes.len() as u64,
        None => 0,
    }
}

fn part_told(part: &SeenPart) -> SeenPartRecord
    ensures { result ≡ spec.part_told part.now }
{
    SeenPartRecord {
        address: part.address,
        length: part.length,
        reserved: 0,
    }
}

fn parts_told<A: Allocator>(
    alloc: A,
    parts: &[SeenPart],
) -> Result<Vec<SeenPartRecord, A>, AllocError>
    ensures { IfOk result (λ told. told.items ≡ map spec.part_told parts.now) }
{
    parts.iter().map(part_told).collect(alloc)
}

fn run_told(run: &Region) -> RegionRecord
    ensures { result ≡ spec.run_told run.now }
{
    RegionRecord {
        base: run.base,
        length: run.length,
        kind: run.kind.number(),
        reserved: 0,
    }
}

fn runs_told<A: Allocator>(alloc: A, runs: &[Region]) -> Result<Vec<RegionRecord, A>, AllocError>
    ensures { IfOk result (λ told. told.items ≡ map spec.run_told runs.now) }
{
    runs.iter().map(run_told).collect(alloc)
}

/// A module whose line lies in the text from an offset on.
fn module_told<A: Allocator>(at: usize, file: &SeenModule<'_, A>) -> SeenModuleRecord
    ensures { result ≡ spec.module_told at file.now }
{
    SeenModuleRecord {
        address: file.mod_start as u64,
        length: file.bytes.len() as u64,
        line: ByteRange {
            offset: at as u64,
            length: file.line.len() as u64,
        },
        reserved: 0,
    }
}

/// Appends a module's record, and its line to the text.
fn add_module<A: Allocator>(
    file: &SeenModule<'_, A>,
    records: &mut Vec<SeenModuleRecord, A>,
    text: &mut Vec<u8, A>,
) -> Result<(), AllocError>
    ensures records { OnOk result (records.new.items
        ≡ records.old.items ++ spec.module_told (length text.old.items) file.now ∷ []) }
    ensures text { OnOk result (text.new.items ≡ text.old.items ++ file.now.line) }
{
    records.push(module_told(text.len(), file))?;
    text.extend_from_slice(file.line.as_slice())
}

/// Appends the records of modules, and their lines to the text.
fn add_modules<A: Allocator>(
    modules: &[SeenModule<'_, A>],
    records: &mut Vec<SeenModuleRecord, A>,
    text: &mut Vec<u8, A>,
) -> Result<(), AllocError>
    ensures records { OnOk result (records.new.items
        ≡ records.old.items ++ spec.modules_told (length text.old.items) modules.now) }
    ensures text { OnOk result (text.new.items
        ≡ text.old.items ++ flat_map (λ m. m.line) modules.now) }
{
    for module in modules {
        add_module(module, records, text)?;
    }
    Ok(())
}

/// Appends a copy of the RSDP to the text, and answers its range.
fn add_copy<A: Allocator>(
    copy: &Option<Bytes<A>>,
    text: &mut Vec<u8, A>,
) -> Result<ByteRange, AllocError>
    ensures range { IfOk result (λ range.
        range ≡ spec.copy_range (length text.old.items) copy.now) }
    ensures text { OnOk result (text.new.items ≡ text.old.items ++ unwrap_or copy.now []) }
{
    let Some(bytes) = copy else {
        return Ok(ByteRange {
            offset: MISSING,
            length: 0,
        });
    };
    let offset = text.len() as u64;
    text.extend_from_slice(bytes.as_slice())?;
    Ok(ByteRange {
        offset,
        length: bytes.len() as u64,
    })
}

/// The summary, beside a text of this length in which the copies have these ranges.
fn seen_told<A: Allocator>(
    seen: &Seen<'_, A>,
    text_length: u64,
    rsdp_old: ByteRange,
    rsdp_new: ByteRange,
) -> SeenRecord
    requires text { text_length ≡ length (spec.text_seen seen.now) }
    requires old { rsdp_old
        ≡ spec.copy_range (length (spec.lines_seen seen.now)) seen.now.rsdp_old }
    requires new { rsdp_new
        ≡ spec.copy_range (length (spec.text_before_rsdp_new seen.now)) seen.now.rsdp_new }
    ensures { result ≡ spec.seen_told seen.now }
{
    SeenRecord {
        protocol: seen.protocol.number(),
        reserved32: 0,
        kernel_parts: seen.kernel.len() as u64,
        modules: seen.modules.len() as u64,
        runs: seen.map.len() as u64,
        entry: seen.entry,
        line_length: seen.line.len() as u64,
        initrd: initrd_start(&seen.initrd),
        initrd_length: initrd_length(&seen.initrd),
        text_length,
        rsdp_old,
        rsdp_new,
        reserved: NO_WORDS,
    }
}

/// All that is told of what a kernel sees.
pub fn records_of<A: Allocator + Copy>(
    alloc: A,
    seen: &Seen<'_, A>,
) -> Result<SeenVectors<A>, AllocError>
    ensures { IfOk result (λ told. told ≡ spec.walk_records seen.now) }
{
    let mut text = Vec::from_slice(alloc, seen.line.as_slice())?;
    let mut modules = Vec::new(alloc);
    add_modules(&seen.modules, &mut modules, &mut text)?;
    let rsdp_old = add_copy(&seen.rsdp_old, &mut text)?;
    let rsdp_new = add_copy(&seen.rsdp_new, &mut text)?;
    let firmware = add_firmware(&seen.firmware, &mut text)?;
    Ok(SeenVectors {
        seen: seen_told(seen, text.len() as u64, rsdp_old, rsdp_new),
        kernel: parts_told(alloc, &seen.kernel)?,
        modules,
        runs: runs_told(alloc, &seen.map)?,
        text,
        firmware,
    })
}
