//! The lowest bytes of a number, the lowest first.
ghost use Rattle.std.specs.Prelude.{◌≡◌, ◌*◌};
ghost use Rattle.bl_params.specs.FieldBytes as spec;

/// What the high half of a number of 64 bits counts.
pub const HALF: u64 = 0x1_0000_0000;

/// Two bytes.
#[tactic(auto, unfolding(crate::specs::FieldBytes::number_bytes))]
pub fn two_bytes(n: u32) -> [u8; 2]
    ensures { result ≡ spec.number_bytes 2 n }
{
    [(n % 0x100) as u8, (n / 0x100 % 0x100) as u8]
}

/// Four bytes.
#[tactic(auto, unfolding(crate::specs::FieldBytes::number_bytes))]
pub fn four_bytes(n: u64) -> [u8; 4]
    ensures { result ≡ spec.number_bytes 4 n }
{
    [
        (n % 0x100) as u8,
        (n / 0x100 % 0x100) as u8,
        (n / 0x1_0000 % 0x100) as u8,
        (n / 0x100_0000 % 0x100) as u8,
    ]
}

/// A product, which fits 64 bits.
pub fn product(a: u32, b: u32) -> u64
    ensures { result ≡ a * b }
{
    a as u64 * b as u64
}
