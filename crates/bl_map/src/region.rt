//! A region of the firmware's memory map.
use crate::kind::Kind;
use crate::limits::MAX_REGION_END;

/// The addresses from `base` up to `base + length`, in bytes, and their kind. A length of 0 holds
/// nothing.
#[derive(Clone, Copy, Debug, PartialEq, Eq)]
pub struct Region {
    pub base: u64,
    pub length: u64,
    pub kind: Kind,
}

impl Region {
    ghost use Rattle.std.specs.Prelude.{◌≡◌, MatchBool};
    ghost use Rattle.bl_map.specs.NormalMap as normal_map;
    ghost use Rattle.bl_map.specs.Faults.{HasAllowedEnd};

    /// Whether the region holds this address.
    pub(crate) fn holds(&self, a: u64) -> bool
        ensures { result ≡ normal_map.region_holds self.now a }
    {
        self.base <= a && a - self.base < self.length
    }

    /// Whether the region ends at most at 2^52.
    pub(crate) fn has_allowed_end(&self) -> bool
        ensures { MatchBool result (HasAllowedEnd self.now) (¬ HasAllowedEnd self.now) }
    {
        self.base <= MAX_REGION_END && self.length <= MAX_REGION_END - self.base
    }
}
