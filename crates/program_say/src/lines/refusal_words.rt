//! The names and the meanings of refusals.

use bl_load::Refusal;

/// The refusal's name.
pub fn refusal_name(refusal: Refusal) -> &'static str {
    match refusal {
        // >>> tools/refusals: names of Refusal
        Refusal::NoFile(_) => "NoFile",
        Refusal::FileFault(_) => "FileFault",
        Refusal::FileTooLong(_) => "FileTooLong",
        Refusal::NoHeader => "NoHeader",
        Refusal::HeaderCut => "HeaderCut",
        Refusal::BadArchitecture => "BadArchitecture",
        Refusal::BadTag(_) => "BadTag",
        Refusal::UnsupportedTag(_) => "UnsupportedTag",
        Refusal::UnsupportedRequest(_) => "UnsupportedRequest",
        Refusal::NoConsole => "NoConsole",
        Refusal::NotElf => "NotElf",
        Refusal::BadElf => "BadElf",
        Refusal::SegmentCut(_) => "SegmentCut",
        Refusal::AddressTooHigh(_) => "AddressTooHigh",
        Refusal::SegmentsOverlap(_, _) => "SegmentsOverlap",
        Refusal::NoEntry => "NoEntry",
        Refusal::EntryOutside => "EntryOutside",
        Refusal::BadAlign => "BadAlign",
        Refusal::NotUsable => "NotUsable",
        Refusal::NoRoom => "NoRoom",
        Refusal::NoPool => "NoPool",
        Refusal::NotBzImage => "NotBzImage",
        Refusal::OldProtocol => "OldProtocol",
        Refusal::NotHigh => "NotHigh",
        Refusal::SetupCut => "SetupCut",
        Refusal::BadPreferred => "BadPreferred",
        Refusal::LineTooLong => "LineTooLong",
        Refusal::LineHasNul => "LineHasNul",
        Refusal::MapTooLong => "MapTooLong",
        Refusal::No64Entry => "No64Entry",
        // <<<
    }
}

/// What the refusal means.
pub fn refusal_meaning(refusal: Refusal) -> &'static str {
    match refusal {
        // >>> tools/refusals: meanings of Refusal
        Refusal::NoFile(_) => "the file can't be read: it is missing, or no regular file",
        Refusal::FileFault(_) => "a piece of the file did not come",
        Refusal::FileTooLong(_) => "the file is too long: it has more than 0x40000000 bytes",
        Refusal::NoHeader => {
            "no Multiboot2 header in the first 32768 bytes, at a multiple of 8, with a right sum"
        }
        Refusal::HeaderCut => {
            "the Multiboot2 header is cut: its length is below 24, passes the file's end, or \
             passes the first 32768 bytes"
        }
        Refusal::BadArchitecture => "the header is for another architecture than i386",
        Refusal::BadTag(_) => {
            "a bad header tag at this offset: it is cut, has a bad size, or is an address tag that \
             the file can't meet"
        }
        Refusal::UnsupportedTag(_) => "a header tag of an unknown type is required",
        Refusal::UnsupportedRequest(_) => {
            "a required request names type 9, the ELF symbols, which are never given, or a type \
             that the specification does not have"
        }
        Refusal::NoConsole => "a console is required, and there is none",
        Refusal::NotElf => "not an ELF file; without an address tag it must be one",
        Refusal::BadElf => "a bad ELF file: its header or a program header breaks a rule",
        Refusal::SegmentCut(_) => "the segment is cut: its bytes pass the file's end",
        Refusal::AddressTooHigh(_) => "the segment lies too high: it ends above 4 GiB",
        Refusal::SegmentsOverlap(_, _) => "the two segments overlap: they share a byte",
        Refusal::NoEntry => {
            "no entry address: there is no entry address tag, and the file names no entry in a \
             segment"
        }
        Refusal::EntryOutside => {
            "the entry lies in no segment at its linked address; of a Linux kernel by the 64-bit \
             entry: the payload has at most 0x200 bytes"
        }
        Refusal::BadAlign => {
            "the alignment is no power of two: kernel_alignment of a relocatable kernel"
        }
        Refusal::NotUsable => {
            "a part at a fixed address has a byte that is not usable, or is avoided"
        }
        Refusal::NoRoom => "no address is permitted for a part",
        Refusal::NoPool => "the pool is too small for the files: in all, or beside the parts",
        Refusal::NotBzImage => "not a bzImage",
        Refusal::OldProtocol => "the boot protocol is older than 2.10",
        Refusal::NotHigh => "the kernel is not loaded high",
        Refusal::SetupCut => {
            "the setup is cut: the setup header ends too early, or there is no payload"
        }
        Refusal::BadPreferred => {
            "the kernel can't be relocated, and its preferred address is not from 1 MiB to 4 GiB"
        }
        Refusal::LineTooLong => {
            "a line is too long: it has more than 4095 bytes, or more than the kernel takes"
        }
        Refusal::LineHasNul => "a line has a zero byte",
        Refusal::MapTooLong => "the memory map has too many runs for a Linux kernel: more than 128",
        Refusal::No64Entry => {
            "no 64-bit entry: the boot protocol is older than 2.12, or xloadflags has bit 0 clear"
        }
        // <<<
    }
}
