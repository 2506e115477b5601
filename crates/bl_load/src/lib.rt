//! What an entry hands over, and its way into memory.
#![tactic(auto)]

mod addresses;
mod capped_lengths;
mod checked_entry;
mod copying;
mod entry;
mod entry_checks;
mod entry_kernel;
mod entry_loading;
mod handoff;
mod kernel_block;
mod known_file;
mod laws;
mod length_laws;
mod line_checks;
mod linux;
mod loadable_kernel;
mod loading;
mod multiboot2;
mod named_register;
mod parts;
mod placing;
mod plan;
mod plan_limits;
mod preparing;
mod preparing_by_lengths;
mod refusal;
mod refused_entry;
mod register_text;
mod registers;
mod registers64;
mod segment_descriptor_laws;
mod segment_descriptors;
mod segment_registers;
mod step;
mod step_laws;
mod steps;
mod unplaced_row;
mod unplaced_row_by_lengths;

pub use bl_plan::{Choice, MAX_LINE, MAX_RSDP_LENGTH, Place, Protocol, Role, Row};
pub use entry::{Entry, Module};
pub use entry_loading::load_entry;
pub use handoff::Handoff;
pub use laws::{
    each_entry_has_an_answer, handovers_are_determined, handovers_are_legal,
    parts_are_apart_and_usable, parts_are_of_the_rows, unplaced_parts_are_refused,
};
pub use length_laws::files_after_the_kernel_count_by_length;
pub use loading::load;
pub use named_register::NamedRegister;
pub use plan::{Content, Plan, PlannedPart};
pub use plan_limits::{MAX_OWN, MAX_STEPS, plans_are_small};
pub use preparing::prepare;
pub use preparing_by_lengths::prepare_by_lengths;
pub use refusal::{PrepFault, Refusal};
pub use refused_entry::RefusedEntry;
pub use registers::{Registers, Registers32, linux_registers, multiboot2_registers};
pub use registers64::{Registers64, linux64_registers};
pub use segment_descriptor_laws::selectors_name_the_segments;
pub use segment_descriptors::descriptors_of;
pub use segment_registers::{SegmentName, SegmentRegister};
pub use step::{Step, StepSource, Steps};
pub use step_laws::{
    carried_out_steps_are_determined, plan_steps_are_determined, plan_steps_are_those_of_origins,
    steps_write_the_same_in_any_order,
};
pub use unplaced_row::unplaced;
pub use unplaced_row_by_lengths::unplaced_by_lengths;
