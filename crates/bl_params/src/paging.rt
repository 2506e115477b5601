//! The page tables for the 64-bit entry.
ghost use Rattle.std.specs.Prelude.{◌≡◌, ◌+◌, ◌*◌, ◌%◌, ◌^◌, ◌<◌, ◌≤◌};
ghost use Rattle.bl_params.specs.Paging as spec;
ghost use Rattle.bl_params.specs.SizesAndOffsets.{page_tables_size};
ghost use Rattle.bl_map.specs.Limits.{frame_size};

use crate::field_writer::write_u64;

/// How many bytes page tables take: six frames.
pub const TABLES_SIZE: u32 = 0x6000;

/// How many bytes a page takes: 2 MiB.
pub const PAGE_SIZE: u64 = 0x20_0000;

/// How many pages there are below 4 GiB.
pub const LOW_PAGES: u64 = 2048;

fn next_table_word(base: u64, frame: u64) -> u64
    requires low { base + page_tables_size ≤ 2 ^ 32 }
    requires in_tables { frame < 6 }
    ensures { result ≡ spec.next_table_word base frame }
{
    base + 0x1000 * frame + 3
}

#[tactic(auto, unfolding(crate::specs::Paging::paging_word))]
fn paging_word(base: u64, frame: u64, index: u64) -> u64
    requires low { base + page_tables_size ≤ 2 ^ 32 }
    requires in_tables { frame < 6 }
    requires in_frame { index < 512 }
    ensures { result ≡ spec.paging_word base frame index }
{
    if frame == 0 {
        if index == 0 {
            return next_table_word(base, 1);
        }
        return 0;
    }
    if frame == 1 {
        if index < 4 {
            return next_table_word(base, 2 + index);
        }
        return 0;
    }
    (512 * (frame - 2) + index) * PAGE_SIZE + 0x83
}

/// Writes a frame, 0 to 5, of the page tables that stand at `base`, over whatever stands there: the
/// first 4 GiB, each address translated to itself, in pages of 2 MiB (Linux/x86 Boot Protocol,
/// "64-bit Boot Protocol"; Intel SDM, volume 3, chapter 4.5). The tables take 6 frames of 4096
/// bytes, which end at most at 2^32. Takes no memory.
pub fn page_tables(base: u64, frame: u64, out: &mut [u8; 4096])
    requires aligned { base % frame_size ≡ 0 }
    requires low { base + page_tables_size ≤ 2 ^ 32 }
    requires in_tables { frame < 6 }
    ensures { out.new ≡ spec.paging_frame base frame }
{
    for index in 0..512usize {
        write_u64(out, 8 * index, paging_word(base, frame, index as u64));
    }
}
