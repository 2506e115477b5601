//! Files that lie in frames of a machine's pool.
#![tactic(auto)]

mod cell;
mod cells;
mod fault;
mod fetched;
mod files;
mod moves;
mod scrubbing;
mod shut_cells;
mod stage;
mod tables;
mod view;

pub use fault::StageFault;
pub use fetched::{FILE_LIMIT, Fetched, piece_at};
pub use scrubbing::scrub;
pub use stage::{Put, Stage};
pub use view::FrameView;
