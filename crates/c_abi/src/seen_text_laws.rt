//! What the ranges are that C is told of a walk.
ghost use Rattle.std.specs.Prelude.{◌≡◌, ℕ, List, None, Some, map, take};
ghost use Rattle.bl_map.specs.Firmware.{SmbiosFacts};
ghost use Rattle.bl_mbi.specs.InfoToWriteFacts.{EfiTables};
ghost use Rattle.bl_walk.specs.SeenFacts.{SeenFacts};
ghost use Rattle.c_records.specs.TextRanges.{range_bytes};
ghost use Rattle.c_records.specs.SeenTold.{seen_told, text_seen, walk_records};

/// The text that is told of what a kernel sees begins with its line; the range of a module is its
/// line, that of a copy of the RSDP is the copy, and those of UEFI's memory map and of the tables
/// of SMBIOS are what a kernel has been given.
pub fn ranges_have_their_texts()
    ensures line { (seen : SeenFacts)
        → take (seen_told seen).line_length (text_seen seen) ≡ seen.line }
    ensures modules { (seen : SeenFacts)
        → map (λ m. range_bytes (text_seen seen) m.line) (walk_records seen).modules
        ≡ map (λ m. m.line) seen.modules }
    ensures old { (seen : SeenFacts) (copy : List ℕ) → seen.rsdp_old ≡ Some copy
        → range_bytes (text_seen seen) (seen_told seen).rsdp_old ≡ copy }
    ensures new { (seen : SeenFacts) (copy : List ℕ) → seen.rsdp_new ≡ Some copy
        → range_bytes (text_seen seen) (seen_told seen).rsdp_new ≡ copy }
    ensures efi_map { (seen : SeenFacts) (efi : EfiTables) → seen.firmware.efi_info ≡ None
        → seen.firmware.efi_tables ≡ Some efi
        → range_bytes (text_seen seen) (walk_records seen).firmware.efi.map ≡ efi.map }
    ensures smbios { (seen : SeenFacts) (smbios : SmbiosFacts)
        → seen.firmware.smbios ≡ Some smbios
        → range_bytes (text_seen seen) (walk_records seen).firmware.smbios.tables
        ≡ smbios.tables }
{}
