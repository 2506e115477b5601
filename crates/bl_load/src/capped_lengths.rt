//! How long parts are that hold a file.
ghost use Rattle.std.specs.Prelude.{◌≡◌};
ghost use Rattle.bl_load.specs.internal.Placing as kept;

use bl_map::round_up_to_frames;

/// As how many bytes a file counts at most.
const LENGTH_CAP: u64 = 1 << 40;

/// How many bytes the part of a module or an initrd takes, by the length of its file. A file that
/// no machine can hold is told as one of 2^40 bytes, which no machine can hold either, so that no
/// sum wraps.
pub fn capped_length(size: u64) -> u64
    ensures { result ≡ kept.capped_length size }
{
    round_up_to_frames(size.min(LENGTH_CAP).max(1))
}
