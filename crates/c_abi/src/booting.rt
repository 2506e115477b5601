//! A menu is booted in memory of the caller's own.
ghost use Rattle.std.specs.Prelude.{◌≡◌, ◌+◌, ◌≤◌, OnOk, Result, map, length};
ghost use Rattle.std.specs.Prelude.{option_copied};
ghost use Rattle.bl_mem.specs.Memory.{KeepsSizeAndRoom, memory_from};
ghost use Rattle.bl_store.specs.Ledger.{sliced_file};
ghost use Rattle.bl_session.specs.session.Phases.{final_phase};
ghost use Rattle.bl_session.specs.session.Phases.{PhaseFacts};
ghost use Rattle.c_abi.specs.Boot.{HasBootEnded, IsGivenBootEnd, given_files, typed_end};
ghost use Rattle.c_abi.specs.BootTold.{TellsBoot};
ghost use Rattle.c_records.specs.declared.given_fault.GivenFault.{GivenFault};

use crate::boot_telling::tell_boot;
use crate::menu_files::stored_files;
use crate::menus::menu_of;
use bl_map::Machine;
use bl_mem::{PhysMem, SliceMemory};
use bl_plan::MAX_PARTS;
use bl_session::{BootFault, Menu, Order, Outcome, SliceStore, run};
use c_records::{
    EntryRecord, GivenFault, HandoffRecord, MachineRecord, Misuse, PlaceRecord, RefusalRecord,
    machine_of,
};
use std::alloc::Allocator;

/// Boots a menu from files in slices.
#[tactic(auto, using(crate::proofs::InsideLemmas::end_within))]
fn boot_slices<M: PhysMem, A: Allocator + Copy>(
    alloc: A,
    memory: &mut M,
    files: &[Option<&[u8]>],
    machine: &Machine<A>,
    menu: &Menu<A>,
) -> Result<Outcome<A>, BootFault<A>>
    requires { length (M.bytes memory.old) ≡ machine.now.size }
    ensures booted { HasBootEnded machine.now menu.now
        (map (λ file. sliced_file (option_copied file)) files.now)
        (M.bytes memory.old) (M.bytes memory.new) (final_phase result) }
    ensures kept { KeepsSizeAndRoom M.lender M.bytes M.room memory.old memory.new }
{
    let mut store = SliceStore::new(alloc, files, Order::Forward);
    let end = run(alloc, memory, &mut store, machine, menu);
    // For the proof: each ticket was answered once, with its piece.
    store.faithful();
    end
}

/// The same in memory that begins at a base.
fn boot_files<A: Allocator + Copy>(
    alloc: A,
    memory: &mut [u8],
    base: u32,
    files: &[Option<&[u8]>],
    machine: &Machine<A>,
    menu: &Menu<A>,
) -> Result<Outcome<A>, BootFault<A>>
    requires { base + length memory.old ≡ machine.now.size }
    ensures { HasBootEnded machine.now menu.now
        (map (λ file. sliced_file (option_copied file)) files.now)
        (memory_from base memory.old) (memory_from base memory.new) (final_phase result) }
{
    let mut own = SliceMemory::from_base(base, memory);
    boot_slices(alloc, &mut own, files, machine, menu)
}

/// Boots a menu from the files that are given.
fn boot_given<A: Allocator + Copy>(
    alloc: A,
    memory: &mut [u8],
    base: u32,
    entries: &[EntryRecord],
    machine: &Machine<A>,
    menu: &Menu<A>,
) -> Result<Outcome<A>, BootFault<A>>
    requires { base + length memory.old ≡ machine.now.size }
    ensures { HasBootEnded machine.now menu.now (given_files entries.now)
        (memory_from base memory.old) (memory_from base memory.new) (final_phase result) }
{
    let Ok(files) = stored_files(alloc, entries) else {
        return Err(BootFault::NoMemory);
    };
    boot_files(alloc, memory, base, &files, machine, menu)
}

/// Boots a menu in memory that begins at a base, with room for so many places.
pub(crate) fn boot<A: Allocator + Copy>(
    alloc: A,
    memory: &mut [u8],
    base: u32,
    machine: &MachineRecord,
    entries: &[EntryRecord],
    default: u32,
    fallbacks: &[u32],
    room: usize,
) -> Result<Result<Outcome<A>, BootFault<A>>, GivenFault>
    ensures end { IsGivenBootEnd machine.now entries.now default fallbacks.now
        room (memory_from base memory.old) (memory_from base memory.new) (typed_end result) }
    ensures room { OnOk result (MAX_PARTS ≤ room) }
{
    if room < MAX_PARTS {
        return Err(GivenFault::Misused(Misuse::SmallRoom));
    }
    let made = match machine_of(alloc, machine) {
        Ok(made) => made,
        Err(fault) => return Err(fault),
    };
    let end = base as u64 + memory.len() as u64;
    if end != made.size() {
        return Err(GivenFault::Misused(Misuse::BadMemory));
    }
    let menu = match menu_of(alloc, entries, default, fallbacks) {
        Ok(menu) => menu,
        Err(fault) => return Err(fault),
    };
    Ok(boot_given(alloc, memory, base, entries, &made, &menu))
}

/// Boots a menu, and tells what comes of it.
pub fn boot_told<A: Allocator + Copy>(
    alloc: A,
    memory: &mut [u8],
    base: u32,
    machine: &MachineRecord,
    entries: &[EntryRecord],
    default: u32,
    fallbacks: &[u32],
    told: &mut HandoffRecord,
    places: &mut [PlaceRecord],
    refusals: &mut [RefusalRecord],
    count: &mut u64,
) -> u32
    ensures { (end : Result PhaseFacts GivenFault)
        × IsGivenBootEnd machine.now entries.now default fallbacks.now
        (length places.old) (memory_from base memory.old) (memory_from base memory.new) end
        × TellsBoot end result
        (record {
          handoff = told.old;
          places = places.old;
          refusals = refusals.old;
          count = count.old;
        })
        (record {
          handoff = told.new;
          places = places.new;
          refusals = refusals.new;
          count = count.new;
        }) }
{
    let room = places.len();
    let end = boot(
        alloc, memory, base, machine, entries, default, fallbacks, room,
    );
    tell_boot(end, told, places, refusals, count)
}
