//! How many bytes boot information takes, by the lengths of what it tells.
ghost use Rattle.std.specs.Prelude.{◌≡◌, ◌+◌, ◌<◌, ◌^◌, [], IfSome};
ghost use Rattle.bl_mbi.specs.Size.{tag_size};
ghost use Rattle.bl_mbi.specs.Size as spec;

use crate::tag_types::{ENTRY_SIZE, FRAMEBUFFER_BODY};

/// How many bytes a tag takes whose body has so many.
pub(crate) fn tag_len(body: u64) -> u64
    requires { body < 2 ^ 33 }
    ensures { result ≡ tag_size body }
{
    8 + (body + 7) / 8 * 8
}

/// How many bytes a module's tag takes, by the length of its line without the zero byte.
pub fn module_size(line: u64) -> u64
    requires { line < 2 ^ 32 }
    ensures { result ≡ tag_size (line + 9) }
{
    tag_len(line + 9)
}

/// How many bytes a tag takes that may be missing, by how many its body has.
fn tag_len_if(body: Option<u64>) -> u64
    requires { IfSome body (λ n. n < 2 ^ 33) }
    ensures value { result ≡ spec.tag_size_if body }
    ensures small { result < 2 ^ 34 }
{
    match body {
        Some(body) => tag_len(body),
        None => 0,
    }
}

/// A body of so many bytes, where there is one.
fn body_if(given: bool, size: u32) -> Option<u64>
    ensures value { result ≡ spec.body_if given size }
    ensures small { IfSome result (λ n. n < 2 ^ 33) }
{
    if given { Some(size as u64) } else { None }
}

/// Tables that stand in a body after 8 other bytes of it.
fn behind_8(tables: Option<u64>) -> Option<u64>
    requires { IfSome tables (λ n. n < 2 ^ 32) }
    ensures value { result ≡ spec.behind_8 tables }
    ensures small { IfSome result (λ n. n < 2 ^ 33) }
{
    match tables {
        Some(tables) => Some(tables + 8),
        None => None,
    }
}

/// The `total_size` of information with the loader's name `bootcore`, by lengths alone: that of the
/// line without its zero byte, the sum of `module_size` over the modules' lines, how many runs the
/// memory map has, the lengths of the copies of the ACPI tables' roots, whether a load base and
/// whether a screen are told, and the lengths of UEFI's memory map and of SMBIOS's tables. It is
/// what `info_size` answers of facts with these lengths.
pub fn size_by_lengths(
    line: u64,
    module_tags: u64,
    runs: u64,
    rsdp_old: Option<u64>,
    rsdp_new: Option<u64>,
    load_base: bool,
    screen: bool,
    efi: Option<u64>,
    smbios: Option<u64>,
) -> u64
    requires line { line < 2 ^ 32 }
    requires module_tags { module_tags < 2 ^ 32 }
    requires runs { runs < 2 ^ 32 }
    requires old { IfSome rsdp_old (λ n. n < 2 ^ 32) }
    requires new { IfSome rsdp_new (λ n. n < 2 ^ 32) }
    requires efi { IfSome efi (λ n. n < 2 ^ 32) }
    requires smbios { IfSome smbios (λ n. n < 2 ^ 32) }
    ensures { result ≡ spec.size_by_lengths line [] runs rsdp_old rsdp_new load_base screen efi
        smbios + module_tags }
{
    let texts = tag_len(line + 1) + tag_len(b"bootcore".len() as u64 + 1) + module_tags;
    let map = 16 + 16 + ENTRY_SIZE as u64 * runs;
    let screen = tag_len_if(body_if(screen, FRAMEBUFFER_BODY));
    let efi = tag_len_if(body_if(efi.is_some(), 8)) + tag_len_if(behind_8(efi));
    let smbios = tag_len_if(behind_8(smbios));
    let copies = tag_len_if(rsdp_old) + tag_len_if(rsdp_new);
    let load_base = tag_len_if(body_if(load_base, 4));
    8 + texts + map + screen + efi + smbios + copies + load_base + 8
}
