//! What a kernel is handed by its protocol, beside its registers.
ghost use Rattle.std.specs.Prelude.{◌≡◌};
ghost use Rattle.bl_load.specs.Protocols as protocols;

use bl_params::{gdt, gdt64};
use bl_plan::Protocol;

/// The descriptors of segments that a kernel of this protocol is handed, if any (Linux/x86 boot
/// protocol, "32-bit boot protocol" and "64-bit boot protocol").
pub fn descriptors_of(protocol: Protocol) -> Option<[u8; 32]>
    ensures { result ≡ protocols.descriptors_of protocol }
{
    match protocol {
        Protocol::Multiboot2 => None,
        Protocol::Linux => Some(gdt()),
        Protocol::Linux64 => Some(gdt64()),
    }
}
