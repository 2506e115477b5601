//! The program: from a boot description to the image of a handover or to its digests, or to the map
//! of a machine; from an image to what a kernel sees in it, or to its digests.
#![tactic(auto)]

ghost use Rattle.std.specs.Prelude.{◌≡◌, ◌⊎◌, ◌≤◌};

mod image_file;
mod image_jobs;
mod path_files;
mod program;

pub use image_file::ImageFile;
pub use path_files::{PathFiles, read_file};
use program::{run_line, tell_status};
pub use program_commands::{
    AskedNames, FILE_LIMIT, Fetched, Files, MemFiles, boot, digest_image_to, digest_to, explain_to,
    map_to, walk_to,
};
pub use program_line::{Job, LineFault, Order, read_line};
use std::process::ExitCode;
use std::{env, io};

/// The words of the command line, run; or the status where they are no text.
fn run_words(rt: &HostRuntime) -> u8
    ensures { (result ≤ 4) ⊎ (result ≡ 64) }
{
    let args = match env::args(rt) {
        Ok(args) => args,
        Err(error) if error.kind() == io::ErrorKind::OutOfMemory => return tell_status(rt, 4),
        Err(_) => return tell_status(rt, 64),
    };
    let Ok(words) = args.collect::<Vec<String>>(rt.alloc()) else {
        return tell_status(rt, 4);
    };
    let mut texts = Vec::new(rt.alloc());
    for word in &words {
        if texts.push(word.as_str()).is_err() {
            return tell_status(rt, 4);
        }
    }
    run_line(rt, &texts)
}

fn main(rt: HostRuntime) -> ExitCode {
    ExitCode::from(run_words(&rt))
}
