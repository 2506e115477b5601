//! The parts of a plan come into memory.
ghost use Rattle.std.specs.Prelude.{◌≡◌, ℕ, ◌+◌, ◌-◌, ◌<◌, ◌≤◌, length, map, slice_index, All};
ghost use Rattle.bl_mem.specs.FileSet.{AreAddressesBelow, AllApartFrom};
ghost use Rattle.bl_mem.specs.Memory.{AllHaveRoom, KeepsSizeAndRoom};
ghost use Rattle.bl_load.specs.internal.BesideFiles.{IsVacant, IsPutBesideFiles, ArePutBesideFiles};
ghost use Rattle.bl_plan.specs.Placed.{Covers, place_range};
ghost use Rattle.bl_load.specs.Handover.{overwrite_parts};
ghost use Rattle.bl_load.specs.PlanContents.{content_by, bytes_by, part_by, handover_by};
ghost use Rattle.bl_load.specs.PlanContents.{handover_in, places_of};
ghost use Rattle.bl_load.specs.internal.Loading.{CanLoad};
ghost use Rattle.bl_load.specs.Loadable.{lengths_of, content_length, IsInFiles, IsLoadable};

use crate::copying::{copy, write_beside};
use crate::handoff::Handoff;
use crate::kernel_block::load_block;
use crate::plan::{Content, Plan, PlannedPart};
use bl_mem::{FileSet, PhysMem};
use std::alloc::Allocator;

/// Writes a content at `at`, and says how long it is.
fn load_content<M: PhysMem, F: FileSet, A: Allocator>(
    memory: &mut M,
    at: u64,
    content: &Content<A>,
    files: &F,
) -> u64
    requires there { IsInFiles (lengths_of (F.texts files.now (M.bytes memory.old))) content.now }
    requires free { IsVacant M.bytes M.room F.holds memory.old files.now at
        (content_length content.now) }
    ensures count { result ≡ content_length content.now }
    ensures put { IsPutBesideFiles M.lender M.bytes M.room F.texts files.now memory.old memory.new
        at (content_by (F.texts files.now (M.bytes memory.old)) content.now) }
{
    match content {
        Content::Own(bytes) => {
            write_beside(memory, at, files, bytes.as_slice());
            bytes.len() as u64
        }
        Content::File {
            file,
            offset,
            count,
        } => {
            copy(memory, at, files, *file, *offset, *count);
            *count
        }
        Content::Block { file, segments } => {
            load_block(memory, at, files, *file, segments.as_slice())
        }
    }
}

/// Writes a part.
fn load_part<M: PhysMem, F: FileSet, A: Allocator>(memory: &mut M, part: &PlannedPart<A>, files: &F)
    requires held { AreAddressesBelow (F.holds files.now) (length (M.bytes memory.old)) }
    requires can { CanLoad (lengths_of (F.texts files.now (M.bytes memory.old)))
        (length (M.bytes memory.old)) (M.room memory.old) (F.holds files.now) part.now }
    ensures { IsPutBesideFiles M.lender M.bytes M.room F.texts files.now memory.old memory.new
        part.now.place.address (bytes_by (F.texts files.now (M.bytes memory.old)) part.now) }
{
    // For the proof: memory's size is below 2^64, so no sum here wraps.
    let _size = memory.size();
    let address = part.place.address;
    let count = load_content(memory, address, &part.content, files);
    memory.zero(address + count..address + part.place.length);
}

/// Writes the parts, one after the other.
fn load_parts<M: PhysMem, F: FileSet, A: Allocator>(
    memory: &mut M,
    parts: &[PlannedPart<A>],
    files: &F,
)
    requires held { AreAddressesBelow (F.holds files.now) (length (M.bytes memory.old)) }
    requires can { All (CanLoad (lengths_of (F.texts files.now (M.bytes memory.old)))
        (length (M.bytes memory.old)) (M.room memory.old) (F.holds files.now)) parts.now }
    ensures { ArePutBesideFiles M.lender M.bytes M.room F.texts files.now memory.old memory.new
        (map (part_by (F.texts files.now (M.bytes memory.old))) parts.now) }
{
    for part in parts {
        load_part(memory, part, files);
    }
}

/// Writes the parts of a plan into memory, each byte of them once, and says what the kernel is
/// handed.
///
/// The files are those that the plan was made from, in their order; only their lengths count. They
/// may lie in this very memory, but in none of the plan's ranges, as after `evacuate`. Each address
/// of those has room, as after `reserve`, and lies in memory. No memory is taken, and nothing can
/// fail: the list of parts becomes that of the handoff, and so does that of ranges. What lies in no
/// part stays as it was, each file too, and no address loses its room.
pub fn load<M: PhysMem, F: FileSet, A: Allocator>(
    memory: &mut M,
    plan: Plan<A>,
    files: &F,
) -> Handoff<A>
    requires held { AreAddressesBelow (F.holds files.now) (length (M.bytes memory.old)) }
    requires loadable { IsLoadable (lengths_of (F.texts files.now (M.bytes memory.old)))
        (length (M.bytes memory.old)) plan }
    requires room { AllHaveRoom (M.room memory.old) (map place_range (places_of plan)) }
    requires beside { AllApartFrom (F.holds files.now) (map place_range (places_of plan)) }
    ensures after { M.bytes memory.new ≡ overwrite_parts
        (handover_by (F.texts files.now (M.bytes memory.old)) plan).parts (M.bytes memory.old) }
    ensures protocol { result.protocol ≡ plan.protocol }
    ensures registers { result.registers ≡ plan.registers }
    ensures places { result.places ≡ places_of plan }
    ensures handed { handover_in (M.bytes memory.new) result.protocol result.registers result.places
        ≡ handover_by (F.texts files.now (M.bytes memory.old)) plan }

    // Each address of a part has the part's byte, and every other one what it had.
    ensures in_parts { All (λ part. (a : ℕ) → part.address ≤ a
        → a < part.address + length part.bytes
        → slice_index (M.bytes memory.new) a ≡ slice_index part.bytes (a - part.address))
        (handover_by (F.texts files.now (M.bytes memory.old)) plan).parts }
    ensures elsewhere { (a : ℕ) → All (λ place. ¬ Covers place a) (places_of plan)
        → slice_index (M.bytes memory.new) a ≡ slice_index (M.bytes memory.old) a }

    // Each file reads as before, so none was overwritten before it was read.
    ensures texts { F.texts files.now (M.bytes memory.new)
        ≡ F.texts files.now (M.bytes memory.old) }
    ensures kept { KeepsSizeAndRoom M.lender M.bytes M.room memory.old memory.new }
{
    let Plan {
        protocol,
        registers,
        parts,
        ranges,
    } = plan;
    load_parts(memory, parts.as_slice(), files);
    Handoff {
        protocol,
        registers,
        parts,
        ranges,
    }
}
