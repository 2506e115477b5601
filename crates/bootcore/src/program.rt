//! The program's jobs, on real files.
ghost use Rattle.std.specs.Prelude.{◌≡◌, ◌⊎◌, ◌≤◌, option_map, IfErr};
ghost use Rattle.bootcore.specs.StatusMessages as statuses;

use crate::image_file::ImageFile;
use crate::image_jobs::{convert_path, digest_image_path, walk_path};
use crate::path_files::{PathFiles, read_file, tell_fault};
use bl_mem::Bytes;
use program_commands::{Fetched, boot, digest_to, explain_to, map_to};
use program_line::{Job, LineFault, Order, read_line};
use std::alloc::Global;
use std::io;
use std::io::Write;

const USAGE: &str = "\
bootcore 1.0
usage: bootcore boot DESC --out IMAGE [--order forward|reverse]
       bootcore map DESC
       bootcore walk IMAGE
       bootcore convert IMAGE --out NEW
       bootcore explain DESC [--order forward|reverse]
       bootcore digest DESC
       bootcore digest --image IMAGE
";

/// Writes to standard output, whose faults are not told.
pub fn tell(rt: &HostRuntime, text: &[u8]) {
    let mut out = rt.stdout();
    let _ = out.write_all(text);
    let _ = out.flush();
}

/// What is said on standard error as the program ends with a status.
fn status_message(status: u8) -> Option<&'static str>
    ensures { option_map (λ word. word.now) result ≡ statuses.status_message status }
{
    match status {
        2 => Some("bad description"),
        3 => Some("file fault"),
        4 => Some("no memory"),
        64 => Some("bad command line"),
        _ => None,
    }
}

/// Says on standard error what a status means, where it has a word, and answers it.
pub fn tell_status(rt: &HostRuntime, status: u8) -> u8
    ensures { result ≡ status }
{
    if let Some(word) = status_message(status) {
        let _ = rt.eprintln(word);
    }
    status
}

/// The description at a path, or the status where it can't be read.
fn read_desc(rt: &HostRuntime, path: &str) -> Result<Bytes<Global>, u8>
    ensures { IfErr result (λ status. (status ≡ 3) ⊎ (status ≡ 4)) }
{
    match read_file(rt, rt.alloc(), path, u64::MAX) {
        Ok(Fetched::Bytes(desc)) => Ok(desc),
        Err(error) if error.kind() == io::ErrorKind::OutOfMemory => Err(4),
        _ => Err(3),
    }
}

/// Boots the description at a path, and writes the image to another.
fn boot_path(rt: &HostRuntime, path: &str, image: &str, order: Order) -> u8
    ensures { result ≤ 4 }
{
    let desc = match read_desc(rt, path) {
        Ok(desc) => desc,
        Err(status) => return status,
    };
    let mut files = PathFiles::new(rt);
    let mut out = ImageFile::new(rt, image);
    let mut say = Vec::new(rt.alloc());
    let status = boot(
        rt.alloc(),
        rt.alloc(),
        desc.as_slice(),
        &mut files,
        order,
        &mut out,
        &mut say,
    );
    // The image is closed before anything is told. In a process that began without standard output
    // the image's file has its number, and the lines would be written behind the image.
    drop(out);
    tell(rt, &say);
    status
}

/// Says what the boot of the description at a path comes to, and the digests of its image.
fn digest_path(rt: &HostRuntime, path: &str) -> u8
    ensures { result ≤ 4 }
{
    let desc = match read_desc(rt, path) {
        Ok(desc) => desc,
        Err(status) => return status,
    };
    let mut files = PathFiles::new(rt);
    let mut say = Vec::new(rt.alloc());
    let status = digest_to(
        rt.alloc(),
        rt.alloc(),
        desc.as_slice(),
        &mut files,
        &mut say,
    );
    tell(rt, &say);
    status
}

/// The description at a path, or the status where it can't be read, and then why is told.
fn read_desc_or_tell(rt: &HostRuntime, path: &str) -> Result<Bytes<Global>, u8>
    ensures { IfErr result (λ status. (status ≡ 3) ⊎ (status ≡ 4)) }
{
    match read_file(rt, rt.alloc(), path, u64::MAX) {
        Ok(Fetched::Bytes(desc)) => Ok(desc),
        Ok(_) => Err(tell_status(rt, 3)),
        Err(error) if error.kind() == io::ErrorKind::OutOfMemory => Err(tell_status(rt, 4)),
        Err(error) => {
            tell_fault(rt, path, &error);
            Err(3)
        }
    }
}

/// Tells the boot of the description at a path for a person, and which files can't be read.
fn explain_path(rt: &HostRuntime, path: &str, order: Order) -> u8
    ensures { result ≤ 4 }
{
    let desc = match read_desc_or_tell(rt, path) {
        Ok(desc) => desc,
        Err(status) => return status,
    };
    let mut files = PathFiles::telling(rt);
    let mut say = Vec::new(rt.alloc());
    let status = explain_to(
        rt.alloc(),
        rt.alloc(),
        desc.as_slice(),
        &mut files,
        order,
        &mut say,
    );
    tell(rt, &say);
    tell_status(rt, status)
}

/// Says the map of the description at a path.
fn map_path(rt: &HostRuntime, path: &str) -> u8
    ensures { result ≤ 4 }
{
    let desc = match read_desc(rt, path) {
        Ok(desc) => desc,
        Err(status) => return status,
    };
    let mut say = Vec::new(rt.alloc());
    let status = map_to(rt.alloc(), rt.alloc(), desc.as_slice(), &mut say);
    tell(rt, &say);
    status
}

/// Does what a command line asks for, and answers the program's status.
pub fn run_line(rt: &HostRuntime, words: &[&str]) -> u8
    ensures { (result ≤ 4) ⊎ (result ≡ 64) }
{
    match read_line(rt.alloc(), words) {
        Ok(
            Job::Boot {
                description,
                image,
                order,
            },
        ) => tell_status(rt, boot_path(rt, description, image, order)),
        Ok(Job::Map { description }) => tell_status(rt, map_path(rt, description)),
        Ok(Job::Walk { image }) => walk_path(rt, image),
        Ok(Job::Convert { image, new }) => convert_path(rt, image, new),
        Ok(Job::Explain { description, order }) => explain_path(rt, description, order),
        Ok(Job::Digest { description }) => tell_status(rt, digest_path(rt, description)),
        Ok(Job::DigestImage { image }) => digest_image_path(rt, image),
        Err(LineFault::Help) => {
            tell(rt, USAGE.as_bytes());
            0
        }
        Err(LineFault::Refused) => tell_status(rt, 64),
        Err(LineFault::NoMemory) => tell_status(rt, 4),
    }
}
