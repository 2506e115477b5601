//! A machine's fault, in words.

use crate::say;
use bl_map::MapFault;
use std::alloc::{AllocError, Allocator};

/// The name of a machine's fault.
fn map_fault_name(fault: MapFault) -> &'static str {
    match fault {
        // >>> tools/refusals: names of MapFault
        MapFault::BadSize => "BadSize",
        MapFault::BadRegion(_) => "BadRegion",
        MapFault::TooManyRegions => "TooManyRegions",
        MapFault::BadPool => "BadPool",
        MapFault::NoMemory => "NoMemory",
        MapFault::BadScreenSize => "BadScreenSize",
        MapFault::BadScreenDepth => "BadScreenDepth",
        MapFault::BadScreenColor => "BadScreenColor",
        MapFault::BadScreenPitch => "BadScreenPitch",
        MapFault::BadScreenPlace => "BadScreenPlace",
        MapFault::BadRsdp => "BadRsdp",
        MapFault::BadSystemTable => "BadSystemTable",
        MapFault::BadDescriptors => "BadDescriptors",
        MapFault::BadEfiMapSize => "BadEfiMapSize",
        MapFault::BadEfiMapPlace => "BadEfiMapPlace",
        MapFault::BadSmbiosSize => "BadSmbiosSize",
        MapFault::TooManyAvoided => "TooManyAvoided",
        MapFault::BadAvoided(_) => "BadAvoided",
        MapFault::PoolAvoided => "PoolAvoided",
        // <<<
    }
}

/// What a machine's fault means.
fn map_fault_meaning(fault: MapFault) -> &'static str {
    match fault {
        // >>> tools/refusals: meanings of MapFault
        MapFault::BadSize => "a bad size: not 1 MiB to 4 GiB in whole frames",
        MapFault::BadRegion(_) => "the region with this index ends above 2^52",
        MapFault::TooManyRegions => "more than 128 regions",
        MapFault::BadPool => "a bad pool: not whole frames, or with a byte that is not usable",
        MapFault::NoMemory => "out of memory while a machine was made",
        MapFault::BadScreenSize => {
            "a bad size of the screen: its width, its height or its pitch is not 1 to 65535"
        }
        MapFault::BadScreenDepth => "a bad depth of the screen: not 15, 16, 24 or 32 bits",
        MapFault::BadScreenColor => "a bad colour of the screen: its bits do not lie in the pixel",
        MapFault::BadScreenPitch => {
            "a bad pitch of the screen: a line's pixels do not fit into its bytes"
        }
        MapFault::BadScreenPlace => {
            "a bad place of the screen: at 0, with an end above 2^52, or over a usable byte"
        }
        MapFault::BadRsdp => {
            "a bad address of the RSDP: 0, with an end of its 36 bytes above 2^52, or over a \
             usable byte"
        }
        MapFault::BadSystemTable => {
            "a bad address of the UEFI system table: 0, with 32 bits at 4 GiB or above, or with an \
             end above 2^52"
        }
        MapFault::BadDescriptors => {
            "bad descriptors of the UEFI memory map: another version than 1, or a size below 40 or \
             no multiple of 8"
        }
        MapFault::BadEfiMapSize => {
            "a bad size of the UEFI memory map: no descriptor, a part of one, or more than 64 KiB"
        }
        MapFault::BadEfiMapPlace => {
            "a bad place of the UEFI memory map: at 0, at no multiple of 8, with an end above 4 \
             GiB, or over a usable byte"
        }
        MapFault::BadSmbiosSize => "bad tables of SMBIOS: no byte, or more than 64 KiB",
        MapFault::TooManyAvoided => "more than 128 ranges to avoid",
        MapFault::BadAvoided(_) => {
            "the range to avoid with this index ends above 2^52, or before it begins"
        }
        MapFault::PoolAvoided => "a range to avoid meets the pool",
        // <<<
    }
}

/// Appends what a machine's fault carries, in brackets: the index of a region, of a range to avoid.
fn say_carried<A: Allocator + Copy>(
    out: &mut Vec<u8, A>,
    fault: MapFault,
) -> Result<(), AllocError> {
    match fault {
        MapFault::BadRegion(index) | MapFault::BadAvoided(index) => say!(out, "({index})"),
        _ => Ok(()),
    }
}

/// Appends a machine's fault: its number, its name with what it tells, its meaning.
pub(crate) fn say_map_fault<A: Allocator + Copy>(
    out: &mut Vec<u8, A>,
    fault: MapFault,
) -> Result<(), AllocError> {
    say!(out, "{} {}", fault.number(), map_fault_name(fault))?;
    say_carried(out, fault)?;
    say!(out, ": {}", map_fault_meaning(fault))
}
