//! What C supplies and is reported, in records and arrays, and what the libraries make of it.
#![tactic(auto)]

mod array_fronts;
mod bad_regions;
mod digest_records;
mod end_records;
mod entries;
mod file_views;
mod firmware_given;
mod firmware_records;
mod given_checks;
mod given_fault;
mod given_records;
mod handoff_telling;
mod layouts;
mod load_fault;
mod machines;
mod misuse;
mod plan_records;
mod refusal_telling;
mod registers_record;
mod seen_firmware_records;
mod seen_firmware_telling;
mod seen_records;
mod seen_telling;
mod seen_vectors;
mod segment_records;
mod segment_telling;
mod unplaced_record;
mod walk_stops;
mod walk_telling;

pub use array_fronts::put_front;
pub use bad_regions::bad_region;
pub use digest_records::{DigestsRecord, FileRangeRecord, PartDigestRecord};
pub use end_records::{HandoffRecord, NO_WORDS, PlaceRecord, RefusalRecord, RegistersRecord};
pub use entries::{entry_of, take_entry};
pub use file_views::{lengths_beside, views_of};
pub use firmware_records::{
    AvoidedRecord, ColorRecord, EfiRecord, FirmwareRecord, ScreenRecord, SmbiosRecord,
};
pub use given_checks::{check_entries, have_few_modules};
pub use given_fault::GivenFault;
pub use given_records::{
    EntryRecord, FileRecord, MachineRecord, ModuleRecord, RegionRecord, UNREADABLE,
};
pub use handoff_telling::{
    handoff_told, place_told, tell_end, tell_load_fault, tell_places, tell_plan,
};
pub use load_fault::{LoadFault, load_fault_of_given, load_fault_of_prep};
pub use machines::machine_of;
pub use misuse::Misuse;
pub use plan_records::{PlanCountsRecord, StepRecord};
pub use refusal_telling::refusal_record;
pub use registers_record::registers_told;
pub use seen_firmware_records::{SeenEfiRecord, SeenFirmwareRecord, SeenSmbiosRecord};
pub use seen_records::{
    ByteRange, MISSING, SeenModuleRecord, SeenPartRecord, SeenRecord, WalkStop,
};
pub use seen_telling::records_of;
pub use seen_vectors::SeenVectors;
pub use segment_records::SegmentRecord;
pub use segment_telling::segments_told;
pub use unplaced_record::UnplacedRecord;
pub use walk_stops::{stop_status, stop_told};
pub use walk_telling::{tell_records, tell_walk};
