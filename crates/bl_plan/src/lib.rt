//! Where the parts of an entry are placed.
#![tactic(auto)]

mod address_order;
mod blocked_stretch;
mod fault;
mod laws;
mod menu_limits;
mod part;
mod placing;
mod planner;
mod protocol;
mod rounding;
mod search;
mod unusable_byte;

pub use address_order::{Addressed, in_order};
pub use fault::PlanFault;
pub use laws::{
    places_are_determined, places_are_legal, places_are_of_rows, rows_have_places_or_a_fault,
};
pub use menu_limits::{MAX_ENTRIES, MAX_LINE, MAX_MODULES, MAX_PARTS, MAX_RSDP_LENGTH};
pub use part::{Choice, Place, Role, Row, Side};
pub use placing::place_rows;
pub use planner::Planner;
pub use protocol::Protocol;
pub use unusable_byte::{first_unplaceable, first_unusable};
