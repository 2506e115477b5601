//! What is booted of a description.
use bl_map::Machine;
use bl_session::Menu;
use program_desc::Description;
use std::alloc::Allocator;

/// What is booted: a description, the machine that it describes, and its menu.
#[derive(Drop)]
pub struct DescribedBoot<'a, A: Allocator> {
    pub description: &'a Description<A>,
    pub machine: &'a Machine<A>,
    pub menu: &'a Menu<A>,
}
