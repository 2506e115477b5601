//! Files in memory.
use crate::described::files::{AskedNames, Files, copy_of};
use bl_session::Fetched;
use program_desc::{FileRow, file_named};
use std::alloc::{AllocError, Allocator};
use std::marker::Model;

/// Files in memory. Of two with one name the first counts.
#[derive(Drop)]
pub struct MemFiles<A: Allocator> {
    rows: Vec<FileRow<A>, A>,
    faults: u64,
    asked: AskedNames,
}

impl<A: Allocator> Model for MemFiles<A> {
    ghost use Rattle.std.specs.Prelude.{map};
    ghost use Rattle.program_desc.specs.Views.{file_view};
    ghost use Rattle.program_boots.specs.described.Files.{MemFilesFacts};

    ghost Value = { MemFilesFacts };

    ghost view = { λ f. record {
      files = map file_view f.rows.items;
      faults = f.faults;
      asked = f.asked.names;
    } };
}

impl<A: Allocator> MemFiles<A> {
    ghost use Rattle.std.specs.Prelude.{◌≡◌, [], map};
    ghost use Rattle.program_desc.specs.Views.{file_view};

    /// These files, for which no name was missing or asked for yet.
    pub fn new(rows: Vec<FileRow<A>, A>) -> MemFiles<A>
        ensures { result ≡ record { files = map file_view rows.items; faults = 0; asked = [] } }
    {
        MemFiles {
            rows,
            faults: 0,
            asked: AskedNames::new(),
        }
    }
}

impl<A: Allocator> Files for MemFiles<A> {
    ghost use Rattle.std.specs.Prelude.{◌≡◌};
    ghost use Rattle.program_boots.specs.described.Files.{inline_answer};

    ghost answers = { λ f name answer. answer ≡ inline_answer f.files name };

    ghost faults = { λ f. f.faults };

    ghost asked = { λ f. f.asked };

    fn fetch<B: Allocator>(&mut self, alloc: B, name: &str) -> Result<Fetched<B>, AllocError> {
        self.asked = self.asked.with_name(name.as_bytes());
        match file_named(name, &self.rows) {
            Some(bytes) => copy_of(alloc, bytes),
            None => {
                self.faults += 1;
                Ok(Fetched::Missing)
            }
        }
    }

    fn faults(&self) -> u64 {
        self.faults
    }
}
