//! Bytes by address, in the parts of an image.
ghost use Rattle.std.specs.Prelude.{◌≡◌, ◌+◌, ◌<◌, ◌≤◌, true, false, length, option_copied};
ghost use Rattle.std.specs.Prelude.{IfSome, AllPairs};
ghost use Rattle.std.specs.List.Sorted.{IsPartitionPoint};
ghost use Rattle.bl_image.specs.ImageHandover.{PartAscends};
ghost use Rattle.bl_load.specs.Handover.{end_of};
ghost use Rattle.bl_walk.specs.PartBytes as inside;
ghost use Rattle.bl_walk.specs.PartBytes.{lies_in};
ghost use Rattle.bl_walk.specs.internal.Walking.{begins_upto};

use bl_image::{Image, ImagePart};
use std::alloc::Allocator;

/// How many parts begin at an address or below it.
fn count_upto<A: Allocator>(parts: &[ImagePart<A>], address: u64) -> usize
    requires { AllPairs PartAscends parts.now }
    ensures split { IsPartitionPoint (λ part. begins_upto address part ≡ true)
        (λ part. begins_upto address part ≡ false) parts.now result }
    ensures within { result ≤ length parts.now }
{
    parts.partition_point(|part| part.address() <= address)
}

/// Whether so many bytes from an address on lie in a part.
fn is_within<A: Allocator>(part: &ImagePart<A>, address: u64, count: u64) -> bool
    ensures { result ≡ lies_in address count part.now }
{
    let from = part.address();
    let length = part.bytes().len() as u64;
    if address < from || address - from > length {
        return false;
    }
    count <= length - (address - from)
}

/// The part in which so many bytes from an address on lie, found in as many steps as the number of
/// parts can be halved.
pub(crate) fn part_with<A: Allocator>(
    image: &Image<A>,
    address: u64,
    count: u64,
) -> Option<&ImagePart<A>>
    requires { 1 ≤ count }
    ensures exact { option_copied result ≡ inside.part_with image.now.parts address count }
    ensures from { IfSome result (λ part. part.now.address ≤ address) }
    ensures upto { IfSome result (λ part. address + count ≤ end_of part.now) }
{
    let parts = image.parts();
    let count_begun = count_upto(parts, address);
    if count_begun == 0 {
        return None;
    }
    let part = &parts[count_begun - 1];
    if is_within(part, address, count) {
        Some(part)
    } else {
        None
    }
}

/// The bytes of a range, if they lie in one part. A range of no byte is followed nowhere.
pub(crate) fn bytes_at<A: Allocator>(image: &Image<A>, address: u64, count: u32) -> Option<&[u8]>
    ensures exact { option_copied result ≡ inside.bytes_in image.now.parts address count }
    ensures long { IfSome result (λ bytes. length bytes.now ≡ count) }
{
    if count == 0 {
        return Some(&[]);
    }
    let part = part_with(image, address, count as u64)?;
    let from = (address - part.address()) as usize;
    Some(&part.bytes()[from..from + count as usize])
}

/// The bytes from an address on, up to the end of its part.
pub(crate) fn rest_at<A: Allocator>(image: &Image<A>, address: u64) -> Option<&[u8]>
    ensures { option_copied result ≡ inside.rest_in image.now.parts address }
{
    let part = part_with(image, address, 1)?;
    let from = (address - part.address()) as usize;
    Some(&part.bytes()[from..])
}
