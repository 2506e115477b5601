//! All that C is told of what a kernel sees.
use crate::given_records::RegionRecord;
use crate::seen_firmware_records::SeenFirmwareRecord;
use crate::seen_records::{SeenModuleRecord, SeenPartRecord, SeenRecord};
use std::alloc::Allocator;
use std::marker::Model;

/// What a kernel sees, as C is told: the summary; its parts, the modules and the runs of memory,
/// each in order; the text; and what firmware tells.
#[derive(Drop)]
pub struct SeenVectors<A: Allocator> {
    pub seen: SeenRecord,
    pub kernel: Vec<SeenPartRecord, A>,
    pub modules: Vec<SeenModuleRecord, A>,
    pub runs: Vec<RegionRecord, A>,
    pub text: Vec<u8, A>,
    pub firmware: SeenFirmwareRecord,
}

impl<A: Allocator> Model for SeenVectors<A> {
    ghost use Rattle.c_records.specs.SeenTold.{WalkRecordsFacts};

    ghost Value = { WalkRecordsFacts };

    ghost view = { λ w. record {
      seen = w.seen;
      kernel = w.kernel.items;
      modules = w.modules.items;
      runs = w.runs.items;
      text = w.text.items;
      firmware = w.firmware;
    } };
}
