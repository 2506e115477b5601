//! Multiples of an alignment.
ghost use Rattle.std.specs.Prelude.{◌≡◌, ℕ, ◌%◌, ◌<◌, ◌≤◌, ◌^◌, MatchOption};

/// The least multiple of `align` that is not below `n`, or none where that is no `u64`.
#[tactic(auto, using(crate::proofs::Align::up_multiple, crate::proofs::Align::least_multiple))]
pub fn round_up(n: u64, align: u64) -> Option<u64>
    requires { 1 ≤ align }
    ensures aligned { MatchOption result (Unit {0}) (λ a. a % align ≡ 0) }
    ensures above { MatchOption result (Unit {0}) (λ a. n ≤ a) }
    ensures least { (a : ℕ) → a % align ≡ 0 → n ≤ a
        → MatchOption result (2 ^ 64 ≤ a) (λ least. least ≤ a) }
{
    let over = n % align;
    if over == 0 {
        return Some(n);
    }
    n.checked_add(align - over)
}

/// The greatest multiple of `align` that is not above `n`.
#[tactic(auto, using(crate::proofs::Align::cut_multiple, crate::proofs::Align::greatest_multiple))]
pub fn round_down(n: u64, align: u64) -> u64
    requires { 1 ≤ align }
    ensures aligned { result % align ≡ 0 }
    ensures below { result ≤ n }
    ensures greatest { (a : ℕ) → a % align ≡ 0 → a ≤ n → a ≤ result }
{
    n - n % align
}
