//! The sizes of what C keeps and is told: those that `include/bootcore.h` asserts.
use crate::digest_handle::DigestHandle;
use crate::handle::Handle;
use crate::records::RequestRecord;

const _: () = prove!(size_of::<RequestRecord>() == 20);

const _: () = prove!(size_of::<Handle>() == 8);

const _: () = prove!(size_of::<DigestHandle>() == 8);
