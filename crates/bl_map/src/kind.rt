//! Kinds of memory.
ghost use Rattle.std.specs.Prelude.{◌≡◌};
ghost use Rattle.bl_map.specs.Kinds as kinds;

/// What an address is for (Multiboot2 3.6.8 "Memory map"; an e820 entry has the same numbers).
/// Where regions overlap, the greatest number counts.
#[derive(Clone, Copy, Debug, PartialEq, Eq)]
pub enum Kind {
    Usable,
    Reserved,
    Acpi,
    Nvs,
    Bad,
}

impl Kind {
    /// The kind's number, 1 to 5.
    pub fn number(self) -> u32
        ensures { result ≡ kinds.kind_number self }
    {
        match self {
            Kind::Usable => 1,
            Kind::Reserved => 2,
            Kind::Acpi => 3,
            Kind::Nvs => 4,
            Kind::Bad => 5,
        }
    }

    /// The kind's name, as a description and the lines of a map have it.
    pub fn name(self) -> &'static str
        ensures { result.now ≡ kinds.kind_name self }
    {
        match self {
            Kind::Usable => "usable",
            Kind::Reserved => "reserved",
            Kind::Acpi => "acpi",
            Kind::Nvs => "nvs",
            Kind::Bad => "bad",
        }
    }

    /// The kind of this name, or none of any other.
    pub fn from_name(name: &str) -> Option<Kind>
        ensures { result ≡ kinds.kind_named name.now }
    {
        match name {
            "usable" => Some(Kind::Usable),
            "reserved" => Some(Kind::Reserved),
            "acpi" => Some(Kind::Acpi),
            "nvs" => Some(Kind::Nvs),
            "bad" => Some(Kind::Bad),
            _ => None,
        }
    }

    /// The kind of a number, or none of another number than 1 to 5.
    #[tactic(auto, unfolding(crate::specs::Kinds::kind_of))]
    pub fn from_number(number: u32) -> Option<Kind>
        ensures { result ≡ kinds.kind_of number }
    {
        match number {
            1 => Some(Kind::Usable),
            2 => Some(Kind::Reserved),
            3 => Some(Kind::Acpi),
            4 => Some(Kind::Nvs),
            5 => Some(Kind::Bad),
            _ => None,
        }
    }
}
