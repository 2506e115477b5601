//! What a part is called.
ghost use Rattle.std.specs.Prelude.{◌≡◌};
ghost use Rattle.program_say.specs.PartNames as names;

use bl_load::Role;

/// What a part of this role is called in a line.
pub fn part_name(role: Role) -> &'static str
    ensures { result.now ≡ names.part_name role }
{
    match role {
        Role::Kernel => "kernel",
        Role::Module => "module",
        Role::Information => "information",
        Role::BootParams => "parameters",
        Role::CommandLine => "line",
        Role::Gdt => "gdt",
        Role::Initrd => "initrd",
        Role::PageTables => "tables",
    }
}
