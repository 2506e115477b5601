//! The setup header of a Linux kernel's file: what loading needs of it, or why the file is refused.
#![tactic(auto)]

mod checks;
mod fault;
pub mod fields;
mod laws;
mod setup;
mod setup_header_bytes;

pub use fault::SetupFault;
pub use laws::setup_is_determined;
pub use setup::{Setup, read_setup};
pub use setup_header_bytes::SetupHeaderBytes;
