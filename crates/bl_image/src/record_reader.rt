//! The records of an image, read.
ghost use Rattle.std.specs.Prelude.{◌≡◌, ◌+◌, ◌≤◌, ◌<◌, ◌^◌, nat_le, ◌&&◌, IfOk, IfErr};
ghost use Rattle.std.specs.Prelude.{IfSome};
ghost use Rattle.std.specs.List.{flat_map};
ghost use Rattle.bl_mem.specs.LittleEndian.{u32_bytes, u64_bytes};
ghost use Rattle.bl_plan.specs.RoleNumbers as roles;
ghost use Rattle.bl_load.specs.HandoffFacts.{max_parts, IsRoleAllowed};
ghost use Rattle.bl_image.specs.Fields as fields;
ghost use Rattle.bl_image.specs.Layouts.{max_role};
ghost use Rattle.bl_image.specs.internal.PlaceRecords.{place_record, IsNext, AreRecords};
ghost use Rattle.bl_image.specs.ImageFaults.{FaultBehind, record_fault, records_fault, no_records};
ghost use Rattle.bl_image.specs.ImageFaults.{parts_behind};
ghost use Rattle.bl_image.specs.SourceFacts.{IsInputFault};
ghost use Rattle.bl_image.specs.internal.SourceReading.{ReadsField, ReadsOrRefuses};
ghost use Rattle.bl_image.specs.internal.SourceReading.{IsFoundByNumber};

use crate::fault::ImageFault;
use crate::field_reader::{read_u32, read_u64};
use crate::source::Source;
use bl_plan::{Place, Role};
use std::alloc::Allocator;

/// Where a part ends at most: 4 GiB.
const MAX_END: u64 = 0x1_0000_0000;

fn role_of(number: u32, wide: bool) -> Option<Role>
    ensures may { IfSome result (IsRoleAllowed wide) }
    ensures number { IsFoundByNumber roles.role_number (max_role wide) number result }
{
    match number {
        1 => Some(Role::Kernel),
        2 => Some(Role::Module),
        3 => Some(Role::Information),
        4 => Some(Role::BootParams),
        5 => Some(Role::CommandLine),
        6 => Some(Role::Gdt),
        7 => Some(Role::Initrd),
        8 if wide => Some(Role::PageTables),
        _ => None,
    }
}

/// Reads a role; page tables are a part where the registers are wide.
fn read_role<S: Source>(source: &mut S, wide: bool, part: u32) -> Result<Role, ImageFault>
    requires { S.faults source.old < 2 ^ 63 }
    ensures may { IfOk result (IsRoleAllowed wide) }
    ensures read { ReadsField S.input S.faults source.old source.new
        (fields.role_field (max_role wide) part)
        (λ role. u32_bytes (roles.role_number role)) result }
{
    let number = read_u32(source)?;
    let Some(role) = role_of(number, wide) else {
        return Err(ImageFault::BadPart(part));
    };
    Ok(role)
}

/// Reads an address, which is not below the end of the part before.
fn read_address<S: Source>(source: &mut S, part: u32, before: u64) -> Result<u64, ImageFault>
    requires { S.faults source.old < 2 ^ 63 }
    ensures read { ReadsField S.input S.faults source.old source.new
        (fields.address_field part before) u64_bytes result }
    ensures fits { IfOk result (λ address. address < 2 ^ 64) }
    ensures above { IfOk result (λ address. before ≤ address) }
{
    let address = read_u64(source)?;
    if address < before {
        return Err(ImageFault::BadPart(part));
    }
    Ok(address)
}

/// Reads the length of a part at this address.
fn read_length<S: Source>(source: &mut S, part: u32, address: u64) -> Result<u64, ImageFault>
    requires { S.faults source.old < 2 ^ 63 }
    ensures read { ReadsField S.input S.faults source.old source.new
        (fields.length_field part address) u64_bytes result }
    ensures filled { IfOk result (λ count. 1 ≤ count) }
    ensures below { IfOk result (λ count. address + count ≤ 2 ^ 32) }
{
    let count = read_u64(source)?;
    if !may_have(address, count) {
        return Err(ImageFault::BadPart(part));
    }
    Ok(count)
}

/// Whether a part at this address may have so many bytes.
fn may_have(address: u64, count: u64) -> bool
    ensures { result ≡ (nat_le 1 count && nat_le (address + count) (2 ^ 32)) }
{
    if count == 0 {
        return false;
    }
    if address > MAX_END {
        return false;
    }
    count <= MAX_END - address
}

/// Reads a record; the part before ends at `before`.
fn read_record<S: Source>(
    source: &mut S,
    wide: bool,
    part: u32,
    before: u64,
) -> Result<Place, ImageFault>
    requires { S.faults source.old < 2 ^ 63 }
    ensures read { ReadsOrRefuses S.input S.faults source.old source.new
        (record_fault (max_role wide) part before) place_record result }
    ensures next { IfOk result (IsNext before) }
    ensures may { IfOk result (λ place. IsRoleAllowed wide place.role) }
{
    let role = read_role(source, wide, part)?;
    let index = read_u32(source)?;
    let address = read_address(source, part, before)?;
    let length = read_length(source, part, address)?;
    Ok(Place {
        role,
        index,
        address,
        length,
    })
}

/// Reads so many records; page tables are a part where the registers are wide.
pub(crate) fn read_records<S: Source, A: Allocator>(
    alloc: A,
    source: &mut S,
    wide: bool,
    count: u32,
) -> Result<Vec<Place, A>, ImageFault>
    requires faults { S.faults source.old < 2 ^ 63 }
    requires few { count ≤ max_parts }
    ensures read { ReadsOrRefuses S.input S.faults source.old source.new
        (records_fault parts_behind (max_role wide) count no_records)
        (λ places. flat_map place_record places.items) result }

    // What came has that first fault, whatever is found behind the records.
    ensures refused { (behind : FaultBehind) → IfErr result
        (IsInputFault (records_fault behind (max_role wide) count no_records)
        (S.input source.old) (S.input source.new)) }
    ensures are { IfOk result (λ places. AreRecords wide count places.items) }
{
    let mut places = Vec::new(alloc);
    let mut before = 0u64;
    for part in 0..count {
        let place = read_record(source, wide, part, before)?;
        before = place.address + place.length;
        places.push(place)?;
    }
    Ok(places)
}
