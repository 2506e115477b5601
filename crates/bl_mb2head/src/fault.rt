//! Why a file has no header that can be used.

use thiserror::Error;

/// Why a file has no header that can be used: its first fault (Multiboot2 2.0, "3.1 OS image
/// format").
///
/// The checks come in the order of the first three variants, then the tags one after the other from
/// the header's start on, each with its checks in the order of the other variants. Only after all
/// tags are passed is the last address tag judged for what it asks.
#[derive(Clone, Copy, Debug, PartialEq, Eq, Error)]
pub enum HeadFault {
    /// No header stands at a multiple of 8 in the file and its first 32768 bytes (3.1.1): nowhere
    /// is the magic number followed by words with which it sums to 0 (3.1.2).
    #[error("no header")]
    NoHeader,
    /// The `header_length` of the first one is below 24, or passes the end of the file or of its
    /// first 32768 bytes (3.1, 3.1.2).
    #[error("the header is cut")]
    HeaderCut,
    /// Its `architecture` is not 0, the protected mode of i386 (3.1.2).
    #[error("the header is for another architecture")]
    BadArchitecture,
    /// The tag at this offset in the file, in bytes, is bad, whether it is optional or not. Its
    /// first 8 bytes or its `size` pass the header's end, the `size` is below that of the fields
    /// which are read of its type, or it is of type 0 and has another size than 8 (3.1.3).
    ///
    /// Or the tag is the last address tag, no tag has a fault of its own, and this one asks for
    /// what the file can't give (3.1.5): its offset or the start of the file would lie below 0,
    /// `load_end_addr` lies below the load address, the bytes to load pass the file's end, or
    /// `bss_end_addr` lies below their end. So the fault of a later tag comes before this one.
    #[error("the tag at {0} is cut, or asks for what the file can't give")]
    BadTag(u64),
    /// A tag of this type, which is above 10, is not optional (3.1.3).
    #[error("a tag of type {0} is required")]
    UnsupportedTag(u16),
    /// An information request that is not optional names this type first of those that can't be
    /// given, which are all but 1 to 8 and 10 to 21 (3.1.4, own).
    #[error("information of type {0} is required")]
    UnsupportedRequest(u32),
    /// A tag of console flags that is not optional has bit 0 set, and there is no console (3.1.9,
    /// own).
    #[error("a console is required")]
    NoConsole,
}
