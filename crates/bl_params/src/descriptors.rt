//! The descriptors of segments, for the 32-bit entry and for the 64-bit one.
ghost use Rattle.std.specs.Prelude.{◌≡◌};
ghost use Rattle.bl_params.specs.Gdt as spec;

/// The descriptors that a Linux kernel is entered with (Linux/x86 Boot Protocol, "32-bit Boot
/// Protocol"): two null descriptors, a code segment at 0x10 and a data segment at 0x18, both flat
/// over 4 GiB.
pub fn gdt() -> [u8; 32]
    ensures { result ≡ spec.gdt }
{
    [
        0, 0, 0, 0, 0, 0, 0, 0, //
        0, 0, 0, 0, 0, 0, 0, 0, //
        0xFF, 0xFF, 0, 0, 0, 0x9A, 0xCF, 0, //
        0xFF, 0xFF, 0, 0, 0, 0x92, 0xCF, 0,
    ]
}

/// The descriptors that a Linux kernel is entered with in 64-bit mode (Linux/x86 Boot Protocol,
/// "64-bit Boot Protocol"): two null descriptors, a segment of 64-bit code at 0x10 and a data
/// segment at 0x18, both flat over 4 GiB.
pub fn gdt64() -> [u8; 32]
    ensures { result ≡ spec.gdt64 }
{
    [
        0, 0, 0, 0, 0, 0, 0, 0, //
        0, 0, 0, 0, 0, 0, 0, 0, //
        0xFF, 0xFF, 0, 0, 0, 0x9A, 0xAF, 0, //
        0xFF, 0xFF, 0, 0, 0, 0x92, 0xCF, 0,
    ]
}
