//! Each tag of boot information that always stands, appended where there is room for it.
ghost use Rattle.std.specs.Prelude.{◌≡◌, ◌+◌, ◌-◌, ◌*◌, ◌%◌, ◌^◌, ◌<◌, ◌++◌, [], length};
ghost use Rattle.std.specs.List.{flat_map};
ghost use Rattle.bl_mbi.specs.Size.{tag_size, map_entry_size};
ghost use Rattle.bl_mbi.specs.Tags.{padding, tag, text_body, module_tag, memory_body, run_bytes};
ghost use Rattle.bl_mbi.specs.Tags.{map_body};
ghost use Rattle.bl_mbi.specs.internal.Appending.{HasRoomFor, Appends};
ghost use Rattle.bl_mbi.specs.internal.GroupSizes.{modules_size};

use crate::module_to_write::ModuleToWrite;
use crate::tag_types::{ENTRY_SIZE, TAG_BASIC_MEMORY, TAG_END, TAG_MEMORY_MAP, TAG_MODULE};
use bl_map::Region;
use bl_mem::{put_bytes, put_u32, put_u64};
use std::alloc::Allocator;

/// Appends zeros after `len` bytes of a body, up to the next multiple of 8.
pub(crate) fn put_padding<A: Allocator>(out: &mut Vec<u8, A>, len: u64)
    requires { HasRoomFor out.old ((8 - len % 8) % 8) }
    ensures { Appends out.old out.new (padding len) ((8 - len % 8) % 8) }
{
    let zeros = [0u8; 8];
    let count = ((8 - len % 8) % 8) as usize;
    put_bytes(out, &zeros[..count]);
}

/// Appends a tag whose body is a text and its zero (3.6.5 "Boot command line", 3.6.9 "Boot loader
/// name").
pub(crate) fn put_text<A: Allocator>(out: &mut Vec<u8, A>, kind: u32, text: &[u8])
    requires room { HasRoomFor out.old (tag_size (length text.now + 1)) }
    requires small { tag_size (length text.now + 1) < 2 ^ 32 }
    ensures { Appends out.old out.new (tag kind (text_body text.now))
        (tag_size (length text.now + 1)) }
{
    put_u32(out, kind);
    put_u32(out, text.len() as u32 + 9);
    put_bytes(out, text);
    put_bytes(out, &[0]);
    put_padding(out, text.len() as u64 + 1);
}

/// Appends a module's tag.
fn put_module<A: Allocator>(out: &mut Vec<u8, A>, loaded: &ModuleToWrite<'_>)
    requires room { HasRoomFor out.old (tag_size (length loaded.now.line + 9)) }
    requires small { tag_size (length loaded.now.line + 9) < 2 ^ 32 }
    ensures { Appends out.old out.new (module_tag loaded.now)
        (tag_size (length loaded.now.line + 9)) }
{
    let line = loaded.line;
    put_u32(out, TAG_MODULE);
    put_u32(out, line.len() as u32 + 17);
    put_u32(out, loaded.mod_start);
    put_u32(out, loaded.mod_end);
    put_bytes(out, line);
    put_bytes(out, &[0]);
    put_padding(out, line.len() as u64 + 9);
}

/// Appends the tags of modules, in their order.
pub(crate) fn put_modules<A: Allocator>(out: &mut Vec<u8, A>, modules: &[ModuleToWrite<'_>])
    requires room { HasRoomFor out.old (modules_size modules.now) }
    requires small { modules_size modules.now < 2 ^ 32 }
    ensures { Appends out.old out.new (flat_map module_tag modules.now) (modules_size modules.now) }
{
    for module in modules {
        put_module(out, module);
    }
}

/// Appends the sizes of memory.
pub(crate) fn put_memory<A: Allocator>(out: &mut Vec<u8, A>, mem_lower: u32, mem_upper: u32)
    requires { HasRoomFor out.old 16 }
    ensures { Appends out.old out.new (tag TAG_BASIC_MEMORY (memory_body mem_lower mem_upper)) 16 }
{
    put_u32(out, TAG_BASIC_MEMORY);
    put_u32(out, 16);
    put_u32(out, mem_lower);
    put_u32(out, mem_upper);
}

fn put_run<A: Allocator>(out: &mut Vec<u8, A>, run: &Region)
    requires { HasRoomFor out.old map_entry_size }
    ensures { Appends out.old out.new (run_bytes run.now) map_entry_size }
{
    put_u64(out, run.base);
    put_u64(out, run.length);
    put_u32(out, run.kind.number());
    put_u32(out, 0);
}

fn put_runs<A: Allocator>(out: &mut Vec<u8, A>, runs: &[Region])
    requires { HasRoomFor out.old (map_entry_size * length runs.now) }
    ensures { Appends out.old out.new (flat_map run_bytes runs.now)
        (map_entry_size * length runs.now) }
{
    for run in runs {
        put_run(out, run);
    }
}

/// Appends the memory map.
pub(crate) fn put_map<A: Allocator>(out: &mut Vec<u8, A>, runs: &[Region])
    requires room { HasRoomFor out.old (16 + map_entry_size * length runs.now) }
    requires small { 16 + map_entry_size * length runs.now < 2 ^ 32 }
    ensures { Appends out.old out.new (tag TAG_MEMORY_MAP (map_body runs.now))
        (16 + map_entry_size * length runs.now) }
{
    put_u32(out, TAG_MEMORY_MAP);
    put_u32(out, 16 + ENTRY_SIZE * runs.len() as u32);
    put_u32(out, ENTRY_SIZE);
    put_u32(out, 0);
    put_runs(out, runs);
}

/// Appends the tag that ends the information.
pub(crate) fn put_end<A: Allocator>(out: &mut Vec<u8, A>)
    requires { HasRoomFor out.old 8 }
    ensures { out.new.items ≡ out.old.items ++ tag TAG_END [] }
{
    put_u32(out, TAG_END);
    put_u32(out, 8);
}
