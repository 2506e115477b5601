//! Addresses translated by page tables.
ghost use Rattle.std.specs.Prelude.{◌≡◌, ◌+◌, ◌*◌, ◌<◌, IfSome, length};
ghost use Rattle.bl_params.specs.Translation as spec;
ghost use Rattle.bl_params.specs.SizesAndOffsets.{page_tables_size};

use crate::little_endian_slice::u64_in;
use crate::paging::{PAGE_SIZE, TABLES_SIZE};

#[tactic(auto, unfolding(crate::specs::Translation::frame_in_word))]
fn frame_of(base: u64, word: u64) -> Option<usize>
    ensures value { result ≡ spec.frame_in_word base word }
    ensures inside { IfSome result (λ frame. frame < 6) }
{
    if word < base {
        return None;
    }
    let behind = word - base;
    if behind == 3 {
        return Some(0);
    }
    if behind == 0x1003 {
        return Some(1);
    }
    if behind == 0x2003 {
        return Some(2);
    }
    if behind == 0x3003 {
        return Some(3);
    }
    if behind == 0x4003 {
        return Some(4);
    }
    if behind == 0x5003 {
        return Some(5);
    }
    None
}

fn entry_at(tables: &[u8], frame: usize, index: u64) -> u64
    requires size { length tables.now ≡ page_tables_size }
    requires in_tables { frame < 6 }
    requires in_frame { index < 512 }
    ensures { result ≡ spec.table_entry_at tables.now frame index }
{
    u64_in(tables, 0x1000 * frame + 8 * index as usize)
}

#[tactic(auto, unfolding(crate::specs::Translation::in_page))]
fn in_page(a: u64, word: u64) -> Option<u64>
    ensures { result ≡ spec.in_page a word }
{
    if word % PAGE_SIZE != 0x83 {
        return None;
    }
    Some(word / PAGE_SIZE * PAGE_SIZE + a % PAGE_SIZE)
}

#[tactic(auto, unfolding(crate::specs::Translation::page_walk))]
fn page_walk(tables: &[u8], base: u64, a: u64) -> Option<u64>
    requires { length tables.now ≡ page_tables_size }
    ensures { result ≡ spec.page_walk tables.now base a }
{
    let upper = entry_at(tables, 0, a / 0x80_0000_0000 % 512);
    match frame_of(base, upper) {
        None => None,
        Some(pointers) => {
            let pointer = entry_at(tables, pointers, a / 0x4000_0000 % 512);
            match frame_of(base, pointer) {
                None => None,
                Some(directory) => in_page(a, entry_at(tables, directory, a / PAGE_SIZE % 512)),
            }
        }
    }
}

/// The address that `a` is translated to by page tables whose bytes stand at `base`, or `None`
/// (Intel SDM, volume 3, chapter 4.5): where there are not 24576 bytes, where `a` is 2^48 or more,
/// where an upper word leads to none of the six frames by a word that is present and writable, and
/// where the last word is no such page of 2 MiB. Takes no memory.
#[tactic(auto, unfolding(crate::specs::Translation::translation))]
pub fn translate(tables: &[u8], base: u64, a: u64) -> Option<u64>
    ensures { result ≡ spec.translation tables.now base a }
{
    if tables.len() != TABLES_SIZE as usize {
        return None;
    }
    if a >= 0x1_0000_0000_0000 {
        return None;
    }
    page_walk(tables, base, a)
}
