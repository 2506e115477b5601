//! What comes of what C supplies, and how it is reported.
#![tactic(auto)]

mod boot_telling;
mod booting;
mod digest_at_once;
mod digest_feeding;
mod digest_laws;
mod digest_making;
mod digest_telling;
mod head_reading;
mod load_laws;
mod loading;
mod menu_files;
mod menus;
mod plan_laws;
mod plan_steps;
mod plan_telling;
mod planning;
mod preparing;
mod seen_text_laws;
mod session_laws;
mod sessions;
mod unplaced_part;
mod walking;

pub use boot_telling::given_status;
pub use booting::boot_told;
pub use digest_at_once::digests_told;
pub use digest_feeding::{feed_told, wanted_told};
pub use digest_laws::digests_are_those_of_loads;
pub use digest_making::digest_given;
pub use digest_telling::fed_digests_told;
pub use head_reading::head_told;
pub use load_laws::loads_end_as_prepared;
pub use loading::load_told;
pub use plan_laws::{plans_are_determined, unplaced_parts_are_determined};
pub use planning::plan_told;
pub use preparing::prepare_told;
pub use seen_text_laws::ranges_have_their_texts;
pub use session_laws::sessions_have_the_sizes_of_boots;
pub use sessions::{outcome_told, session_given};
pub use unplaced_part::unplaced_told;
pub use walking::{walk_all_told, walk_told};
