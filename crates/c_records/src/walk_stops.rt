//! Why nothing is seen in an image, as C is told.
ghost use Rattle.std.specs.Prelude.{◌≡◌};
ghost use Rattle.c_records.specs.WalkTold as spec;

use crate::end_records::RefusalRecord;
use crate::seen_records::WalkStop;
use bl_image::ImageFault;
use bl_walk::WalkFault;

fn part_of_fault(fault: ImageFault) -> u64
    ensures { result ≡ spec.part_of_fault fault }
{
    match fault {
        ImageFault::BadPart(index) => index as u64,
        ImageFault::BadMagic
        | ImageFault::BadVersion
        | ImageFault::BadHeader
        | ImageFault::WrongLength
        | ImageFault::DeviceFault
        | ImageFault::NoMemory => 0,
    }
}

/// What is told of why nothing is seen.
pub fn stop_told(stop: WalkStop) -> RefusalRecord
    ensures { result ≡ spec.stop_told stop }
{
    match stop {
        WalkStop::NoImage(fault) => RefusalRecord {
            entry: 0,
            number: fault.number(),
            first: part_of_fault(fault),
            second: 0,
            reserved: 0,
        },
        WalkStop::NotWalked(fault) => RefusalRecord {
            entry: 0,
            number: fault.number(),
            first: 0,
            second: 0,
            reserved: 0,
        },
    }
}

fn image_status(fault: ImageFault) -> u32
    ensures { result ≡ spec.image_status fault }
{
    match fault {
        ImageFault::NoMemory => 4,
        ImageFault::BadMagic
        | ImageFault::BadVersion
        | ImageFault::BadHeader
        | ImageFault::BadPart(_)
        | ImageFault::WrongLength
        | ImageFault::DeviceFault => 1,
    }
}

fn walk_status(fault: WalkFault) -> u32
    ensures { result ≡ spec.walk_status fault }
{
    match fault {
        WalkFault::NoMemory => 4,
        WalkFault::OutsideImage | WalkFault::BadInfo | WalkFault::BadState => 1,
    }
}

/// The status that tells of it.
pub fn stop_status(stop: WalkStop) -> u32
    ensures { result ≡ spec.stop_status stop }
{
    match stop {
        WalkStop::NoImage(fault) => image_status(fault),
        WalkStop::NotWalked(fault) => walk_status(fault),
    }
}
