//! The setup header's bytes.
ghost use Rattle.std.specs.Prelude.{◌≡◌, ◌≤◌, ◌+◌, ◌-◌, ℕ, List, length, take, slice_range};

use crate::fields::{MAX_HEADER, SETUP_SECTS};
use bl_mem::ByteView;
use std::marker::Model;

/// The bytes of a setup header, from 0x1F1 to its end: at most 0x9F, as many as `boot_params` has
/// room for. No memory is taken for them. Contracts see them as a list.
#[derive(Drop)]
pub struct SetupHeaderBytes {
    bytes: [u8; 0x9F],
    count: usize,
}

impl Model for SetupHeaderBytes {
    ghost Value = { List ℕ };

    ghost view = { λ header. take header.count header.bytes };

    ghost invariant = { λ header. header.count ≤ 0x9F };
}

impl SetupHeaderBytes {
    /// All of the bytes.
    pub fn as_slice(&self) -> &[u8]
        ensures same { result.now ≡ self.now }
        ensures few { length result.now ≤ 0x9F }
    {
        &self.bytes[..self.count]
    }
}

/// The header that ends at `end`.
pub(crate) fn header_upto<V: ByteView>(view: &V, end: u64) -> SetupHeaderBytes
    requires begins { SETUP_SECTS ≤ end }
    requires fits { end ≤ SETUP_SECTS + 0x9F }
    requires inside { end ≤ length (V.bytes view.now) }
    ensures { result ≡ slice_range (V.bytes view.now) 0x1F1 end }
{
    let count = (end - SETUP_SECTS) as usize;
    let mut bytes = [0u8; MAX_HEADER];
    view.read(SETUP_SECTS, &mut bytes[..count]);
    SetupHeaderBytes { bytes, count }
}
