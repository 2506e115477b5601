//! What a kernel file asks to be loaded.
ghost use Rattle.std.specs.Prelude.{◌≡◌};
ghost use Rattle.bl_mem.specs.SegmentContents as contents;

/// What one program header loads (System V gABI, "Program Header"), or one address tag (Multiboot2
/// 2.0, "3.1.5 The address tag of Multiboot2 header").
///
/// The `memsz` bytes of memory from the physical `address` on become the `filesz` bytes of the file
/// from `offset` on, and zeros up to the end. Offset, address and sizes count bytes.
#[derive(Clone, Copy, Debug, PartialEq, Eq)]
pub struct Segment {
    pub offset: u64,
    pub address: u64,
    pub filesz: u64,
    pub memsz: u64,
}

impl Segment {
    /// Whether the address lies in the segment, where that is linked.
    pub fn holds(&self, a: u64) -> bool
        ensures { result ≡ contents.segment_holds self.now a }
    {
        self.address <= a && a - self.address < self.memsz
    }
}
