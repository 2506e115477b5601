//! Reads what an image has before the bytes of its parts.
ghost use Rattle.std.specs.Prelude.{◌≡◌, ◌+◌, ◌<◌, ◌^◌, List, ℕ, Some, IfOk, IfErr, MatchResult};
ghost use Rattle.bl_image.specs.Front.{BeginWithFront, IsKeptFront, front_spelling};
ghost use Rattle.bl_image.specs.ImageFaults.{front_fault};
ghost use Rattle.bl_image.specs.SourceFacts.{Comes, IsBytesFault, IsInputFault, faults_met};

use crate::fault::ImageFault;
use crate::head_reader::read_head;
use crate::record_reader::read_records;
use crate::source::Source;
use crate::version::Version;
use bl_load::{Protocol, Registers};
use bl_plan::Place;
use std::alloc::Allocator;
use std::marker::Model;

/// What an image has before the bytes of its parts: the version, the protocol, the registers as the
/// kernel begins, and the places of the parts in address order.
#[derive(Drop)]
pub struct Front<A: Allocator> {
    pub version: Version,
    pub protocol: Protocol,
    pub registers: Registers,
    pub places: Vec<Place, A>,
}

impl<A: Allocator> Model for Front<A> {
    ghost use Rattle.bl_image.specs.Front.{FrontFacts};

    ghost Value = { FrontFacts };

    ghost view = { λ f. record {
      version = f.version;
      handoff = record {
        protocol = f.protocol;
        registers = f.registers;
        places = f.places.items;
      };
    } };
}

/// Reads what an image has before the bytes of its parts, and no further; or answers the first
/// fault there, each field judged as soon as it came: that of an image that begins so. It takes
/// memory only for what came.
pub fn read_front<S: Source, A: Allocator>(alloc: A, source: &mut S) -> Result<Front<A>, ImageFault>
    requires { S.faults source.old < 2 ^ 63 }

    // Its one spelling came, and nothing more.
    ensures ok { IfOk result
        (λ front. Comes (S.input source.old) (S.input source.new) (front_spelling front)) }
    ensures kept { IfOk result IsKeptFront }

    // What came has that first fault, whatever may follow.
    ensures refused { IfErr result
        (IsInputFault front_fault (S.input source.old) (S.input source.new)) }

    // The source's faults rose exactly where that is the answer.
    ensures faults { S.faults source.new ≡ S.faults source.old + faults_met result }

    // Where it is known what is to come, that decides.
    ensures known { (bytes : List ℕ) → (S.input source.old).rest ≡ Some bytes
        → MatchResult result (BeginWithFront bytes) (IsBytesFault front_fault bytes) }
{
    let head = read_head(source)?;
    let places = read_records(alloc, source, head.registers.are_wide(), head.count)?;
    Ok(Front {
        version: head.version,
        protocol: head.protocol,
        registers: head.registers,
        places,
    })
}
