//! The file that an image is written to.
use bl_image::{DeviceFault, IoSink, Sink};
use std::fs;
use std::fs::File;
use std::marker::Model;

/// A sink that creates its file, or empties an older one, at its first write. A file that can't be
/// created is a fault of that write. A file that was begun stays after a fault.
#[derive(Drop)]
pub struct ImageFile<'a> {
    rt: &'a HostRuntime,
    path: &'a str,
    sink: Option<IoSink<File>>,
    not_created: u64,
}

impl<'a> Model for ImageFile<'a> {
    ghost use Rattle.std.specs.Prelude.{◌+◌};
    ghost use Rattle.bootcore.specs.ImageFileFacts.{ImageFileFacts, sink_contents, sink_faults};

    ghost Value = { ImageFileFacts };

    ghost view = { λ f.
        record { contents = sink_contents f.sink; faults = f.not_created + sink_faults f.sink } };
}

impl<'a> ImageFile<'a> {
    ghost use Rattle.std.specs.Prelude.{◌≡◌, []};

    /// A file at this path that is not touched yet.
    pub fn new(rt: &'a HostRuntime, path: &'a str) -> ImageFile<'a>
        ensures { result ≡ record { contents = []; faults = 0 } }
    {
        ImageFile {
            rt,
            path,
            sink: None,
            not_created: 0,
        }
    }
}

impl Sink for ImageFile<'_> {
    ghost contents = { λ f. f.contents };

    ghost faults = { λ f. f.faults };

    fn write(&mut self, part: &[u8]) -> Result<usize, DeviceFault> {
        let mut sink = match self.sink.take() {
            Some(sink) => sink,
            None => match fs::create(self.rt, self.path) {
                Ok(file) => IoSink::new(file),
                Err(_) => {
                    self.not_created += 1;
                    return Err(DeviceFault);
                }
            },
        };
        let taken = sink.write(part);
        self.sink = Some(sink);
        taken
    }

    fn faults(&self) -> u64 {
        let written = match &self.sink {
            Some(sink) => sink.faults(),
            None => 0,
        };
        self.not_created + written
    }
}
