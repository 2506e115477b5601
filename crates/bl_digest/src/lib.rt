//! SHA-256 of the image of a handover, and of each of its parts.
#![tactic(auto)]

mod digesting;
mod digests;
mod file_range;
mod hasher;
mod image_digest;
mod image_digesting;
mod image_hasher;
mod laws;
mod message;
mod part_digest;
mod parts_hasher;
mod plan_digest;
mod row_lengths;
mod step_taking;

pub use digesting::Digesting;
pub use digests::Digests;
pub use file_range::FileRange;
pub use image_digest::ImageDigest;
pub use image_digesting::digest_image;
pub use laws::digests_cover_the_image;
pub use part_digest::PartDigest;
pub use plan_digest::digest_plan;
