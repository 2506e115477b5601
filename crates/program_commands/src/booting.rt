//! A boot: from a description to the image of the handover.

mod found_boot;
mod handover;
mod whole_boot;

pub use handover::say_none_left;
pub use whole_boot::boot;
