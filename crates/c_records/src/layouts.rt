//! The sizes of the records: those that `c/crossing.h` asserts.
use crate::digest_records::{DigestsRecord, FileRangeRecord, PartDigestRecord};
use crate::end_records::{HandoffRecord, PlaceRecord, RefusalRecord, RegistersRecord};
use crate::firmware_records::{
    AvoidedRecord, ColorRecord, EfiRecord, FirmwareRecord, ScreenRecord, SmbiosRecord,
};
use crate::given_records::{EntryRecord, FileRecord, MachineRecord, ModuleRecord, RegionRecord};
use crate::plan_records::{PlanCountsRecord, StepRecord};
use crate::seen_firmware_records::{SeenEfiRecord, SeenFirmwareRecord, SeenSmbiosRecord};
use crate::seen_records::{ByteRange, SeenModuleRecord, SeenPartRecord, SeenRecord};
use crate::segment_records::SegmentRecord;
use crate::unplaced_record::UnplacedRecord;

const _: () = prove!(size_of::<FileRecord<'_>>() == 24);

const _: () = prove!(size_of::<ByteRange>() == 16);

const _: () = prove!(size_of::<RegionRecord>() == 24);

const _: () = prove!(size_of::<MachineRecord<'_>>() == 72);

const _: () = prove!(size_of::<ColorRecord>() == 2);

const _: () = prove!(size_of::<ScreenRecord>() == 32);

const _: () = prove!(size_of::<EfiRecord<'_>>() == 48);

const _: () = prove!(size_of::<SmbiosRecord<'_>>() == 24);

const _: () = prove!(size_of::<AvoidedRecord>() == 16);

const _: () = prove!(size_of::<FirmwareRecord<'_>>() == 176);

const _: () = prove!(size_of::<ModuleRecord<'_>>() == 40);

const _: () = prove!(size_of::<EntryRecord<'_>>() == 120);

const _: () = prove!(size_of::<RegistersRecord>() == 288);

const _: () = prove!(size_of::<PlaceRecord>() == 32);

const _: () = prove!(size_of::<RefusalRecord>() == 32);

const _: () = prove!(size_of::<HandoffRecord>() == 304);

const _: () = prove!(size_of::<StepRecord>() == 40);

const _: () = prove!(size_of::<PlanCountsRecord>() == 24);

const _: () = prove!(size_of::<UnplacedRecord>() == 56);

const _: () = prove!(size_of::<SeenRecord>() == 136);

const _: () = prove!(size_of::<SeenPartRecord>() == 24);

const _: () = prove!(size_of::<SeenModuleRecord>() == 40);

const _: () = prove!(size_of::<SeenEfiRecord>() == 56);

const _: () = prove!(size_of::<SeenSmbiosRecord>() == 24);

const _: () = prove!(size_of::<SeenFirmwareRecord>() == 152);

const _: () = prove!(size_of::<FileRangeRecord>() == 32);

const _: () = prove!(size_of::<PartDigestRecord>() == 72);

const _: () = prove!(size_of::<DigestsRecord>() == 120);

const _: () = prove!(size_of::<SegmentRecord>() == 24);
