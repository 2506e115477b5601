//! Files of the operating system.
ghost use Rattle.std.specs.Prelude.{IfOk};
ghost use Rattle.program_commands.specs.internal.WholeReads.{IsReadWhole};

use bl_mem::Bytes;
use program_commands::{AskedNames, FILE_LIMIT, Fetched, Files};
use std::alloc::{AllocError, Allocator};
use std::io::{Eprint, Read};
use std::marker::Model;
use std::{fs, io, rt};

/// Reads the regular file at a path whole, unless it is longer than `limit` bytes.
///
/// The length is taken first: above the limit nothing is read, and of a file that grows meanwhile
/// at most one byte more than the limit. A path at which no regular file stands is an error, since
/// a device may never end and a pipe may never begin.
pub fn read_file<R: rt::Files, A: Allocator>(
    rt: &R,
    alloc: A,
    path: &str,
    limit: u64,
) -> io::Result<Fetched<A>>
    ensures { IfOk result (IsReadWhole limit) }
{
    let metadata = fs::metadata(rt, path)?;
    if !metadata.is_file() {
        return Err(io::Error::new(io::ErrorKind::InvalidInput, "no regular file"));
    }
    let length = metadata.len();
    if length > limit {
        return Ok(Fetched::TooLong(length));
    }
    // One byte more, so that the end is found with no larger room for it.
    let mut bytes = Vec::with_capacity(alloc, length.saturating_add(1) as usize)?;
    let file = fs::open(rt, path)?;
    file.take(limit.saturating_add(1)).read_to_end(&mut bytes)?;
    let count = bytes.len() as u64;
    if count > limit {
        return Ok(Fetched::TooLong(count));
    }
    Ok(Fetched::Bytes(Bytes::from(bytes)))
}

/// Says on standard error which file can't be read, and what the system says of it.
pub fn tell_fault<R: Eprint>(rt: &R, path: &str, error: &io::Error) {
    let _ = eprintln!(rt; "file fault: {path}: {error}");
}

/// Files by their paths, as the operating system reads them relative to the current folder. Each
/// one that can't be read, and each path at which no regular file stands, is a fault; it is told
/// where the files were asked to tell.
///
/// What a real file holds is not claimed: anything may be answered for a path.
#[derive(Drop)]
pub struct PathFiles<'a, R: rt::Files + Eprint> {
    rt: &'a R,
    tells: bool,
    faults: u64,
    asked: AskedNames,
}

impl<'a, R: rt::Files + Eprint> Model for PathFiles<'a, R> {
    ghost use Rattle.bootcore.specs.PathFilesFacts.{PathFilesFacts};

    ghost Value = { PathFilesFacts };

    ghost view = { λ f. record { faults = f.faults; asked = f.asked.names } };
}

impl<'a, R: rt::Files + Eprint> PathFiles<'a, R> {
    ghost use Rattle.std.specs.Prelude.{◌≡◌, []};

    /// The files that this runtime reaches, of which none was missing or asked for yet.
    pub fn new(rt: &'a R) -> PathFiles<'a, R>
        ensures { result ≡ record { faults = 0; asked = [] } }
    {
        PathFiles {
            rt,
            tells: false,
            faults: 0,
            asked: AskedNames::new(),
        }
    }

    /// The same, but each fault is told on standard error, with what the system says.
    pub fn telling(rt: &'a R) -> PathFiles<'a, R>
        ensures { result ≡ record { faults = 0; asked = [] } }
    {
        PathFiles {
            rt,
            tells: true,
            faults: 0,
            asked: AskedNames::new(),
        }
    }
}

impl<R: rt::Files + Eprint> Files for PathFiles<'_, R> {
    ghost answers = { λ _ _ _. Unit {0} };

    ghost faults = { λ f. f.faults };

    ghost asked = { λ f. f.asked };

    fn fetch<A: Allocator>(&mut self, alloc: A, name: &str) -> Result<Fetched<A>, AllocError> {
        self.asked = self.asked.with_name(name.as_bytes());
        match read_file(self.rt, alloc, name, FILE_LIMIT) {
            Ok(file) => Ok(file),
            Err(error) if error.kind() == io::ErrorKind::OutOfMemory => Err(AllocError),
            Err(error) => {
                self.faults += 1;
                if self.tells {
                    tell_fault(self.rt, name, &error);
                }
                Ok(Fetched::Missing)
            }
        }
    }

    fn faults(&self) -> u64 {
        self.faults
    }
}
