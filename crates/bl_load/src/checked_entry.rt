//! An entry with its files, on a machine.
ghost use Rattle.std.specs.Prelude.{◌≡◌, ◌≤◌, None, All, IfSome, length};
ghost use Rattle.std.proofs.Props.{props};
ghost use Rattle.bl_load.specs.EntryValue.{line_fault, IsRsdpCopy};
ghost use Rattle.bl_plan.specs.MenuLimits.{max_line, max_modules};

use crate::entry::Module;
use bl_map::Machine;
use bl_mem::{ByteView, Bytes};
use bl_plan::Protocol;
use std::alloc::Allocator;

/// An entry with its files, on a machine: its protocol, its line, its modules and its copies of the
/// RSDP, and its files, the kernel first. The lines have no fault.
#[derive(Drop)]
pub struct CheckedEntry<'a, A: Allocator, V: ByteView> {
    pub protocol: Protocol,
    pub machine: &'a Machine<A>,
    pub line: &'a [u8],
    pub modules: &'a [Module<A>],
    pub rsdp_old: &'a Option<Bytes<A>>,
    pub rsdp_new: &'a Option<Bytes<A>>,
    pub files: &'a [V],
    ghost sound: { line_fault line.now ≡ None },
    ghost short: { length line.now ≤ max_line },
    ghost sound_modules: { All (λ m. line_fault m.line ≡ None) modules.now },
    ghost few: { length modules.now ≤ max_modules },
    ghost old: { IfSome rsdp_old.now IsRsdpCopy } by { Prim.hlevel props },
    ghost new: { IfSome rsdp_new.now IsRsdpCopy } by { Prim.hlevel props },
}
