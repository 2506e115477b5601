//! What lines are said of.

mod blame;
mod entries;
mod refusal_detail;
mod sought;

pub use blame::{Blame, TextPlace};
pub use entries::entry_at;
pub use refusal_detail::{RefusalDetail, ToldRefusal};
pub use sought::Sought;
