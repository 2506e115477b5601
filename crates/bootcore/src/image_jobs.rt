//! The program's jobs on images, in real files.
ghost use Rattle.std.specs.Prelude.{◌≡◌, ◌⊎◌, ◌≤◌, IfErr};

use crate::image_file::ImageFile;
use crate::program::{tell, tell_status};
use bl_image::IoSource;
use program_commands::{convert, digest_image_to, walk_to};
use std::io::Write;
use std::{fs, io, rt};

/// Opens the regular file at a path, or answers the status where there is none that can be opened.
fn open_image<R: rt::Files>(rt: &R, path: &str) -> Result<R::File, u8>
    ensures { IfErr result (λ status. (status ≡ 3) ⊎ (status ≡ 4)) }
{
    match fs::metadata(rt, path) {
        Ok(metadata) if metadata.is_file() => {}
        Err(error) if error.kind() == io::ErrorKind::OutOfMemory => return Err(4),
        _ => return Err(3),
    }
    match fs::open(rt, path) {
        Ok(file) => Ok(file),
        Err(error) if error.kind() == io::ErrorKind::OutOfMemory => Err(4),
        Err(_) => Err(3),
    }
}

/// Says on standard error what is wrong with an image, where the status is 2, or what the status
/// means, and answers it.
fn tell_blame(rt: &HostRuntime, status: u8, blame: &[u8]) -> u8
    ensures { result ≡ status }
{
    if status != 2 {
        return tell_status(rt, status);
    }
    let mut err = rt.stderr();
    let _ = err.write_all(blame);
    status
}

/// Says what a kernel sees in the image at a path, or what is wrong with it.
pub fn walk_path(rt: &HostRuntime, path: &str) -> u8
    ensures { result ≤ 4 }
{
    let file = match open_image(rt, path) {
        Ok(file) => file,
        Err(status) => return tell_status(rt, status),
    };
    let mut source = IoSource::new(file);
    let mut say = Vec::new(rt.alloc());
    let mut blame = Vec::new(rt.alloc());
    let status = walk_to(rt.alloc(), &mut source, &mut say, &mut blame);
    tell(rt, &say);
    tell_blame(rt, status, &blame)
}

/// Says the digests of the image at a path, or what is wrong with it.
pub fn digest_image_path(rt: &HostRuntime, path: &str) -> u8
    ensures { result ≤ 4 }
{
    let file = match open_image(rt, path) {
        Ok(file) => file,
        Err(status) => return tell_status(rt, status),
    };
    let mut source = IoSource::new(file);
    let mut say = Vec::new(rt.alloc());
    let mut blame = Vec::new(rt.alloc());
    let status = digest_image_to(rt.alloc(), &mut source, &mut say, &mut blame);
    tell(rt, &say);
    tell_blame(rt, status, &blame)
}

/// Writes the image at a path to another, in the version that is written, or says what is wrong
/// with it.
pub fn convert_path(rt: &HostRuntime, path: &str, new: &str) -> u8
    ensures { result ≤ 4 }
{
    let file = match open_image(rt, path) {
        Ok(file) => file,
        Err(status) => return tell_status(rt, status),
    };
    let mut source = IoSource::new(file);
    let mut out = ImageFile::new(rt, new);
    let mut blame = Vec::new(rt.alloc());
    let status = convert(rt.alloc(), &mut source, &mut out, &mut blame);
    // Closed before anything is told, as the image of a boot is.
    drop(out);
    tell_blame(rt, status, &blame)
}
