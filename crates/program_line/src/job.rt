//! What the program is to do.

/// The order in which a file's pieces come: as they were asked for, or the last one first.
#[derive(Clone, Copy, Debug, PartialEq, Eq)]
pub enum Order {
    Forward,
    Reverse,
}

/// What the program is to do, with the paths of its files.
#[derive(Clone, Copy, Debug, PartialEq, Eq)]
pub enum Job<'a> {
    /// Boot an entry of a description, and write the image of the handover.
    Boot {
        description: &'a str,
        image: &'a str,
        order: Order,
    },
    /// Say the memory map of a description's machine.
    Map {
        description: &'a str,
    },
    /// Say what a kernel sees in an image.
    Walk {
        image: &'a str,
    },
    /// Write an image anew, in the version of the format that is written.
    Convert {
        image: &'a str,
        new: &'a str,
    },
    /// Tell the boot of a description for a person, without an image.
    Explain {
        description: &'a str,
        order: Order,
    },
    /// Say the digests of the image that the boot of a description would write, and write none.
    Digest {
        description: &'a str,
    },
    /// Say the digests of an image that is there.
    DigestImage {
        image: &'a str,
    },
}
