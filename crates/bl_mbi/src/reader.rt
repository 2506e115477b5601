//! Boot information, read.
ghost use Rattle.std.specs.Prelude.{◌≡◌, ◌<◌, Err, IfOk, IfErr};
ghost use Rattle.std.specs.Prelude.{MatchResult};
ghost use Rattle.bl_mbi.specs.InfoFacts.{InfoFacts, IsSpelling};
ghost use Rattle.bl_mbi.specs.declared.fault.InfoFault.TheVariants.{NoMemory};
ghost use Rattle.bl_mbi.specs.ReadingSteps.{MatchesReading};
ghost use Rattle.bl_mbi.specs.internal.BytesLeft.{rest_facts};
ghost use Rattle.bl_mbi.specs.Reading as spec;

use crate::body_reader::word;
use crate::fault::InfoFault;
use crate::info::Info;
use crate::optional_tag_reader::{load_base_at, screen_at};
use crate::rest::Rest;
use crate::tag_groups::{Tables, memory_tags_at, table_tags_at, text_and_module_tags_at};
use crate::tag_reader::end_at;
use crate::tag_types::MIN_INFO_SIZE;
use std::alloc::Allocator;

/// What the tags tell.
#[tactic(auto, unfolding(crate::specs::Reading::info_of_tags))]
fn info_of_tags<A: Allocator + Copy>(alloc: A, rest: Rest) -> Result<Info<A>, InfoFault>
    ensures { MatchesReading (λ info. info) result (spec.info_of_tags (rest_facts rest.entry)) }
{
    let ((line, name, modules), rest) = text_and_module_tags_at(alloc, rest)?;
    let (((mem_lower, mem_upper), runs), rest) = memory_tags_at(alloc, rest)?;
    let (screen, rest) = screen_at(rest)?;
    let (tables, rest) = table_tags_at(alloc, rest)?;
    let (load_base, rest) = load_base_at(rest)?;
    end_at(rest)?;
    let Tables {
        efi,
        smbios,
        rsdp_old,
        rsdp_new,
    } = tables;
    Ok(Info {
        name,
        line,
        modules,
        mem_lower,
        mem_upper,
        runs,
        screen,
        efi,
        smbios,
        rsdp_old,
        rsdp_new,
        load_base,
    })
}

/// The tags, where the bytes are exactly `total_size` and the reserved word is 0.
#[tactic(auto, unfolding(crate::specs::Reading::info_of))]
fn tags_in(bytes: &[u8]) -> Result<Rest, InfoFault>
    ensures tags { IfOk result
        (λ rest. spec.info_of bytes.now ≡ spec.info_of_tags (rest_facts rest)) }
    ensures first_fault { IfErr result (λ fault. spec.info_of bytes.now ≡ Err fault) }
{
    if bytes.len() < MIN_INFO_SIZE as usize {
        return Err(InfoFault::WrongLength);
    }
    if word(bytes) as usize != bytes.len() {
        return Err(InfoFault::WrongLength);
    }
    if word(&bytes[4..]) != 0 {
        return Err(InfoFault::BadReserved);
    }
    Ok(Rest {
        at: 8,
        bytes: &bytes[8..],
    })
}

/// What the bytes tell, which are exactly `total_size`, or the first fault. Each spelling is
/// accepted, by a loader of any name, and nothing else.
pub fn read_info<A: Allocator + Copy>(alloc: A, bytes: &[u8]) -> Result<Info<A>, InfoFault>
    ensures spelled { IfOk result (IsSpelling bytes.now) }

    // Only memory can be wanting where the bytes are a spelling.
    ensures accepts { (info : InfoFacts) → IsSpelling bytes.now info
        → MatchResult result (λ read. read ≡ info) (λ fault. fault ≡ NoMemory) }
    ensures first_fault { MatchesReading (λ info. info) result (spec.info_of bytes.now) }
{
    let rest = tags_in(bytes)?;
    info_of_tags(alloc, rest)
}
