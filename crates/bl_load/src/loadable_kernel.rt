//! What an entry's parts are by its kernel's file.
ghost use Rattle.std.specs.Prelude.{◌≡◌, All, IfOk};
ghost use Rattle.bl_load.specs.Parts.{registers_of};
ghost use Rattle.bl_load.specs.internal.Contents.{IsPlacedAmong, IsContentAt};
ghost use Rattle.bl_load.specs.internal.Placing.{EndsLow, capped_rows_of};
ghost use Rattle.bl_load.specs.internal.ReadKernels.{EntersBy, EntryPointFits32Bits};
ghost use Rattle.bl_load.specs.KernelReading.{KernelReading};
ghost use Rattle.bl_load.specs.internal.CheckedEntries.{value_of_files, IsReadWithFiles};

use crate::checked_entry::CheckedEntry;
use crate::plan::Content;
use crate::registers::Registers;
use bl_mem::ByteView;
use bl_plan::{Place, Protocol, Row};
use std::alloc::{AllocError, Allocator};

/// What was read of a kernel's file: the parts of its entry follow from it. There is one for each
/// kind of file.
pub trait LoadableKernel {
    /// What was read.
    ghost reading: { Self → KernelReading };

    /// The rows of the entry's parts.
    fn rows<A: Allocator + Copy, V: ByteView>(
        &self,
        alloc: A,
        entry: &CheckedEntry<'_, A, V>,
    ) -> Result<Vec<Row, A>, AllocError>
        requires { IsReadWithFiles entry.now (reading self.now) }
        ensures { IfOk result (λ rows. rows.items ≡ capped_rows_of entry.now.machine.now
            (value_of_files entry.now) (reading self.now)) };

    /// The content of the part at a place, where the parts have these places.
    fn content<A: Allocator + Copy, V: ByteView>(
        &self,
        alloc: A,
        entry: &CheckedEntry<'_, A, V>,
        places: &[Place],
        place: &Place,
    ) -> Result<Content<A>, AllocError>
        requires { IsPlacedAmong entry.now (reading self.now) places.now place.now }
        ensures { IfOk result (IsContentAt entry.now (reading self.now) places.now place.now) };

    /// The registers as a kernel begins that is entered by this protocol, where the parts have
    /// these places.
    fn registers(&self, protocol: Protocol, places: &[Place]) -> Registers
        requires protocol { EntersBy protocol (reading self.now) }
        requires low { All EndsLow places.now }
        requires enter { EntryPointFits32Bits (reading self.now) places.now }
        ensures { result ≡ registers_of protocol (reading self.now) places.now };
}
