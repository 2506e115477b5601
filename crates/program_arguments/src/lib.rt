//! The subcommands of the program with their arguments, as clap is given them.
#![tactic(auto)]

mod command;

pub use command::line_command;
