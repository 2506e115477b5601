//! Where the header stands.

ghost use Rattle.std.specs.Prelude.{◌≡◌, ◌≤◌, ◌+◌, ◌%◌, ◌↔◌, ℕ, length, IsTrue, MatchOption};
ghost use Rattle.bl_mem.specs.Least.{IsLeast};
ghost use Rattle.bl_mb2head.specs.HeaderPlace.{IsHeaderAt};

use crate::fields::{
    ALIGNMENT, ARCHITECTURE, CHECKSUM, HEADER_LENGTH, MAGIC, SEARCH_END, TAGS, WORD_VALUES,
};
use bl_mem::{ByteView, u32_at};

/// Whether a header stands at `at`, which is a multiple of 8 with 16 bytes after it.
fn is_header_at<V: ByteView>(view: &V, at: u64) -> bool
    requires aligned { at % ALIGNMENT ≡ 0 }
    requires in_file { at + TAGS ≤ length (V.bytes view.now) }
    requires in_front { at + TAGS ≤ SEARCH_END }
    ensures { IsTrue result ↔ IsHeaderAt (V.bytes view.now) at }
{
    let magic = u32_at(view, at);
    if magic != MAGIC {
        return false;
    }
    let architecture = u32_at(view, at + ARCHITECTURE);
    let header_length = u32_at(view, at + HEADER_LENGTH);
    let checksum = u32_at(view, at + CHECKSUM);
    let sum = magic as u64 + architecture as u64 + header_length as u64 + checksum as u64;
    sum % WORD_VALUES == 0
}

/// The place of the header: the least place at which one stands.
pub fn find_header_place<V: ByteView>(view: &V) -> Option<u64>
    ensures { MatchOption result
        ((h : ℕ) → IsHeaderAt (V.bytes view.now) h → ⊥)
        (λ h. IsLeast (IsHeaderAt (V.bytes view.now)) h) }
{
    let end = view.len().min(SEARCH_END);
    let mut at = 0;
    while at + TAGS <= end {
        if is_header_at(view, at) {
            return Some(at);
        }
        at += ALIGNMENT;
    }
    None
}
