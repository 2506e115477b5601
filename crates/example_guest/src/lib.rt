//! A caller that is proved too: a hypervisor loads a kernel into its guest's memory.
#![tactic(auto)]

mod guest;

pub use guest::{guest_machine, load_guest};
