//! The bytes that are still to be read.
ghost use Rattle.std.specs.Prelude.{◌≡◌, ◌+◌, ◌<◌, ◌^◌, length, take, drop};
ghost use Rattle.bl_mbi.specs.Size.{padded};

/// The bytes that are left, and the offset at which they stand.
#[derive(Clone, Copy)]
pub(crate) struct Rest<'a> {
    pub(crate) at: u64,
    pub(crate) bytes: &'a [u8],

    // Where the end cuts a tag's padding, the offset after the tag is that of the bytes in full.
    ghost small: { at + padded (length bytes.now) < 2 ^ 63 },
}

/// The first bytes, so many of them as there are.
#[tactic(auto, using(std::proofs::lemmas::List::take_min))]
pub(crate) fn first(bytes: &[u8], count: usize) -> &[u8]
    ensures { result.now ≡ take count bytes.now }
{
    &bytes[..count.min(bytes.len())]
}

/// The bytes from a place on: none where it lies past the end.
#[tactic(auto, using(std::proofs::lemmas::List::drop_min))]
pub(crate) fn behind(bytes: &[u8], place: usize) -> &[u8]
    ensures { result.now ≡ drop place bytes.now }
{
    &bytes[place.min(bytes.len())..]
}
