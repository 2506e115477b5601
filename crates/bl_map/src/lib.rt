//! A machine: the kinds of its addresses, its normal map, its pool, what firmware tells of it.
#![tactic(auto)]

mod fault;
mod firmware;
mod kind;
mod laws;
mod limits;
mod machine;
mod normalization;
mod pool_frames;
mod region;
mod rules;

pub use fault::MapFault;
pub use firmware::{
    ColorField, Efi, EfiBits, EfiInfo, Firmware, MAX_AVOIDED, MAX_EFI_MAP, MAX_SMBIOS, OwnedEfi,
    OwnedFirmware, OwnedSmbios, RSDP_LENGTH, Screen, SecureBoot, Smbios, are_descriptors,
    is_efi_map_place, is_efi_map_size, is_smbios_size, is_system_table,
};
pub use kind::Kind;
pub use laws::normal_maps_are_determined;
pub use limits::{
    FIRST_USABLE, FRAME_SIZE, HIGH_START, KIB, MAX_HIGH_KIB, MAX_LOW_KIB, MAX_REGION_END,
    MAX_REGIONS, MAX_SIZE, MIN_SIZE, USABLE_LIMIT,
};
pub use machine::Machine;
pub use pool_frames::{frames_for, frames_in, frames_of, open_frames, round_up_to_frames};
pub use region::Region;
