//! What was found for the names that are looked for.

use bl_stage::Fetched;
use program_desc::file_index;
use std::alloc::Allocator;
use std::marker::Model;

/// The names that are looked for, and what was found for each. Contracts see it as these two
/// lists.
#[derive(Drop)]
pub struct Sought<'a, A: Allocator> {
    names: &'a [&'a str],
    files: &'a [Fetched<A>],
}

impl<'a, A: Allocator> Model for Sought<'a, A> {
    ghost use Rattle.std.specs.Prelude.{map};
    ghost use Rattle.bl_stage.specs.Files.{stored_files};
    ghost use Rattle.program_say.specs.Sought.{SoughtFacts};

    ghost Value = { SoughtFacts };

    ghost view = { λ s. record {
      names = map (λ n. n.now) s.names.now;
      files = stored_files s.files.now;
    } };
}

impl<'a, A: Allocator> Sought<'a, A> {
    ghost use Rattle.std.specs.Prelude.{◌≡◌, map};
    ghost use Rattle.bl_stage.specs.Files.{stored_files};
    ghost use Rattle.program_say.specs.Sought.{bytes_found, size_found};

    /// These names, for which these files were found.
    pub fn new(names: &'a [&'a str], files: &'a [Fetched<A>]) -> Sought<'a, A>
        ensures { result ≡ record {
          names = map (λ n. n.now) names.entry.now;
          files = stored_files files.entry.now;
        } }
    {
        Sought { names, files }
    }

    /// The length of what was found for a name, none if there is no such file.
    pub fn size(&self, name: &str) -> Option<u64>
        ensures { result ≡ size_found self.now name.now }
    {
        match self.files.get(file_index(self.names, name)) {
            Some(file) => file.size(),
            None => None,
        }
    }

    /// The bytes of what was found for a name, none if there is no such file or it is too long.
    pub fn bytes(&self, name: &str) -> &[u8]
        ensures { result.now ≡ bytes_found self.now name.now }
    {
        match self.files.get(file_index(self.names, name)) {
            Some(Fetched::Bytes(bytes)) => bytes.as_slice(),
            _ => &[],
        }
    }
}
