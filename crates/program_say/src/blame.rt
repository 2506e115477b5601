//! The lines that tell why a description is refused, and pieces of them that other lines have too.

mod bad_key;
mod blame_lines;
mod edit_distance;
mod key_values;
mod map_faults;
mod pool_lines;
mod radix_hints;
mod region_hints;
mod shown_names;
mod unusable;
mod word_hints;

pub use blame_lines::say_blame;
pub use region_hints::say_region_hints;
pub use shown_names::say_name;
pub use unusable::say_unplaceable;
