//! An entry of the menu.
ghost use Rattle.std.specs.Prelude.{IfSome};
ghost use Rattle.std.proofs.Props.{props};
ghost use Rattle.program_desc.specs.Entries.{form_view, HasCopyLength};

use crate::entry_form::EntryForm;
use crate::owned_text::Text;
use std::alloc::Allocator;

/// An entry of the menu. The title is 1 to 64 bytes from 0x20 to 0x7E, `kernel` names a file, and
/// `line` is the kernel's command line, perhaps empty. A copy of an RSDP has 1 to 256 bytes.
#[derive(Drop)]
pub struct EntryRow<A: Allocator> {
    pub title: Text<A>,
    pub kernel: Text<A>,
    pub line: Text<A>,
    pub form: EntryForm<A>,
    ghost old: { IfSome (form_view form).rsdp_old HasCopyLength } by { Prim.hlevel props },
    ghost new: { IfSome (form_view form).rsdp_new HasCopyLength } by { Prim.hlevel props },
}
