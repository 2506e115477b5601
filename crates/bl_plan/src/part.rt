//! The parts of an entry: what each is, how its address is chosen, and where it is placed.
ghost use Rattle.std.specs.Prelude.{◌≡◌};
ghost use Rattle.bl_plan.specs.RoleNumbers as roles;

/// What a part is. An image names it by its number.
#[derive(Clone, Copy, Debug, PartialEq, Eq)]
pub enum Role {
    Kernel,
    Module,
    Information,
    BootParams,
    CommandLine,
    Gdt,
    Initrd,
    PageTables,
}

impl Role {
    /// The role's number in an image, 1 to 8.
    pub fn number(self) -> u32
        ensures { result ≡ roles.role_number self }
    {
        match self {
            Role::Kernel => 1,
            Role::Module => 2,
            Role::Information => 3,
            Role::BootParams => 4,
            Role::CommandLine => 5,
            Role::Gdt => 6,
            Role::Initrd => 7,
            Role::PageTables => 8,
        }
    }

    /// The role of a number, or none of another number than 1 to 8.
    #[tactic(auto, unfolding(crate::specs::RoleNumbers::role_numbered))]
    pub fn from_number(number: u32) -> Option<Role>
        ensures { result ≡ roles.role_numbered number }
    {
        match number {
            1 => Some(Role::Kernel),
            2 => Some(Role::Module),
            3 => Some(Role::Information),
            4 => Some(Role::BootParams),
            5 => Some(Role::CommandLine),
            6 => Some(Role::Gdt),
            7 => Some(Role::Initrd),
            8 => Some(Role::PageTables),
            _ => None,
        }
    }
}

/// Which of the permitted addresses is taken.
#[derive(Clone, Copy, Debug, PartialEq, Eq)]
pub enum Side {
    Lowest,
    Highest,
}

/// Where a part may lie: at a multiple of `align` (any number from 1 on), not below `low`, and with
/// its end at most at `high`. As one value none of the three can be taken for another.
#[derive(Clone, Copy)]
pub(crate) struct Window {
    pub(crate) align: u64,
    pub(crate) low: u64,
    pub(crate) high: u64,
}

/// How a part's address is chosen. An address is permitted for a part where it is a multiple of
/// `align` (any number from 1 on), is not below `low`, the part ends at most at `high`, and each of
/// its bytes is usable, not avoided and in no earlier part.
#[derive(Clone, Copy, Debug, PartialEq, Eq)]
pub enum Choice {
    /// This address.
    Fixed(u64),

    /// The least permitted address.
    Lowest {
        align: u64,
        low: u64,
        high: u64,
    },

    /// The greatest permitted address.
    Highest {
        align: u64,
        low: u64,
        high: u64,
    },

    /// `at` where it is permitted, else the least permitted address.
    Preferred {
        at: u64,
        align: u64,
        low: u64,
        high: u64,
    },
}

/// A line of the table of an entry's parts: what the part is, which of its role it is, its length
/// in bytes, and how its address is chosen.
#[derive(Clone, Copy, Debug, PartialEq, Eq)]
pub struct Row {
    pub role: Role,
    pub index: u32,
    pub length: u64,
    pub choice: Choice,
}

/// A row with the address that was chosen: the part has the bytes from `address` up to
/// `address + length`.
#[derive(Clone, Copy, Debug, PartialEq, Eq)]
pub struct Place {
    pub role: Role,
    pub index: u32,
    pub address: u64,
    pub length: u64,
}
