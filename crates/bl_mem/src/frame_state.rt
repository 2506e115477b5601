//! What one frame of memory is.
ghost use Rattle.std.specs.Prelude.{◌≡◌};
ghost use Rattle.bl_mem.specs.FrameState.{has_room, cleared, slot_read};

/// How many bytes a frame has.
pub const FRAME_SIZE: u64 = 4096;

/// A frame: whether it has room, and what it reads as.
#[derive(Clone, Copy)]
pub enum FrameState {
    /// It has no room.
    Bare,
    /// It has room and no slot, and each of its bytes is this.
    Plain(u8),
    /// Its bytes are kept, in the slot of this number.
    Kept(u32),
    /// It was cleared after it was written, so each of its bytes is 0. The slot is still its own.
    Wiped(u32),
    /// Its bytes are kept in a slot of its own, which one other frame reads too.
    Lent { slot: u32, to: u32 },
    /// It has room, and reads as the frame that lends it its slot.
    Borrowed { slot: u32, from: u32 },
}

impl FrameState {
    /// Whether it has room.
    pub fn has_room(self) -> bool
        ensures { result ≡ has_room self }
    {
        match self {
            FrameState::Bare => false,
            FrameState::Plain(_)
            | FrameState::Kept(_)
            | FrameState::Wiped(_)
            | FrameState::Lent { .. }
            | FrameState::Borrowed { .. } => true,
        }
    }

    /// The slot that it reads, if it does.
    pub fn slot_read(self) -> Option<u32>
        ensures { result ≡ slot_read self }
    {
        match self {
            FrameState::Bare | FrameState::Plain(_) | FrameState::Wiped(_) => None,
            FrameState::Kept(slot)
            | FrameState::Lent { slot, .. }
            | FrameState::Borrowed { slot, .. } => { Some(slot) }
        }
    }

    /// The frame after it was cleared: each of its bytes is 0. One without room stays as it is.
    pub fn cleared(self) -> FrameState
        ensures { result ≡ cleared self }
    {
        match self {
            FrameState::Bare => FrameState::Bare,
            FrameState::Plain(_) | FrameState::Borrowed { .. } => FrameState::Plain(0),
            FrameState::Kept(slot) | FrameState::Wiped(slot) | FrameState::Lent { slot, .. } => {
                FrameState::Wiped(slot)
            }
        }
    }
}
