//! Sums that may pass 2^64, compared without being taken.
ghost use Rattle.std.specs.Prelude.{◌≡◌, ◌+◌, nat_le, nat_lt};

/// Whether `count` units from `start` on end at `end` or before.
pub fn ends_within(start: u64, count: u64, end: u64) -> bool
    ensures { result ≡ nat_le (start + count) end }
{
    if end < count {
        return false;
    }
    start <= end - count
}

/// Whether `a` lies before the end of `count` units from `start` on.
pub fn is_before_end(a: u64, start: u64, count: u64) -> bool
    ensures { result ≡ nat_lt a (start + count) }
{
    if a < start {
        return true;
    }
    a - start < count
}
