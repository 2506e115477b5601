//! A boot, told for a person.

mod explained_boot;
mod explanation;
mod machine_blame;
mod read_or_blame;

pub use explanation::explain_to;
