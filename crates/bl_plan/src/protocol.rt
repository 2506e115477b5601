//! How a kernel is entered.
ghost use Rattle.std.specs.Prelude.{◌≡◌};
ghost use Rattle.bl_plan.specs.Protocols as protocols;

/// How a kernel is entered: as the Multiboot2 Specification says, or by the 32-bit or the 64-bit
/// entry of the Linux boot protocol. An image names it by its number.
#[derive(Clone, Copy, Debug, PartialEq, Eq)]
pub enum Protocol {
    Multiboot2,
    Linux,
    Linux64,
}

impl Protocol {
    /// The protocol of a Linux entry: the 64-bit entry where it is wide, else the 32-bit one.
    pub fn of_linux(wide: bool) -> Protocol
        ensures { result ≡ protocols.of_linux wide }
    {
        if wide {
            Protocol::Linux64
        } else {
            Protocol::Linux
        }
    }

    /// The protocol's number in an image, 1 to 3.
    pub fn number(self) -> u32
        ensures { result ≡ protocols.protocol_number self }
    {
        match self {
            Protocol::Multiboot2 => 1,
            Protocol::Linux => 2,
            Protocol::Linux64 => 3,
        }
    }

    /// The protocol of a number, or none of another number than 1 to 3.
    #[tactic(auto, unfolding(crate::specs::Protocols::protocol_numbered))]
    pub fn from_number(number: u32) -> Option<Protocol>
        ensures { result ≡ protocols.protocol_numbered number }
    {
        match number {
            1 => Some(Protocol::Multiboot2),
            2 => Some(Protocol::Linux),
            3 => Some(Protocol::Linux64),
            _ => None,
        }
    }

    /// The protocol's name, as a description has it.
    pub fn name(self) -> &'static str
        ensures { result.now ≡ protocols.protocol_name self }
    {
        match self {
            Protocol::Multiboot2 => "multiboot2",
            Protocol::Linux => "linux",
            Protocol::Linux64 => "linux64",
        }
    }

    /// The protocol of this name, or none of any other.
    pub fn from_name(name: &str) -> Option<Protocol>
        ensures { result ≡ protocols.protocol_named name.now }
    {
        match name {
            "multiboot2" => Some(Protocol::Multiboot2),
            "linux" => Some(Protocol::Linux),
            "linux64" => Some(Protocol::Linux64),
            _ => None,
        }
    }
}
