//! The command line of the program.
#![tactic(auto)]

mod fault;
mod job;
mod matches;

pub use fault::LineFault;
pub use job::{Job, Order};
pub use matches::read_line;
