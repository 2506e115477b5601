//! What a session and a boot of the same menu have in common.
ghost use Rattle.std.specs.Prelude.{◌≡◌, List, map};
ghost use Rattle.bl_stage.specs.Files.{size_of};
ghost use Rattle.c_abi.specs.Boot.{given_files};
ghost use Rattle.c_abi.specs.Sessions.{HaveTheirLengths, sizes_given};
ghost use Rattle.c_records.specs.declared.given_records.EntryRecord.{EntryRecord};

/// A session of what is given has the sizes of the boot's files, if the length of each file is that
/// of its bytes, or that of one that can't be read. So of the same menu and machine it is the same
/// boot.
pub fn sessions_have_the_sizes_of_boots()
    ensures { (entries : List EntryRecord) → HaveTheirLengths entries
        → sizes_given entries ≡ map size_of (given_files entries) }
{}
