//! A sink over a writer.
use crate::ghost_history::History;
use crate::sink::{DeviceFault, Sink};
use std::io::Write;
use std::marker::Model;

/// A sink over a writer of std. Each error of the writer is a fault, and so is a write that takes
/// nothing of a part that is not empty.
///
/// Its contents are what the writer told that it held at the start, and after it what the writer
/// said it took. A writer that always tells, as a `Vec` does, holds just that. Of a device no
/// contract knows what it holds.
#[derive(Drop)]
pub struct IoSink<W: Write + Drop> {
    writer: W,
    history: History,
    faults: u64,
}

impl<W: Write + Drop> Model for IoSink<W> {
    ghost use Rattle.std.specs.Prelude.{◌≡◌, Some};
    ghost use Rattle.bl_image.specs.SinkFacts.{IoSinkFacts, AlwaysTells};

    ghost Value = { IoSinkFacts };

    ghost view = { λ s. record { contents = s.history.bytes; faults = s.faults } };

    ghost invariant = { λ s. AlwaysTells W.contents → W.contents s.writer ≡ Some s.history.bytes };
}

impl<W: Write + Drop> IoSink<W> {
    ghost use Rattle.std.specs.Prelude.{◌≡◌, [], unwrap_or};
    ghost use Rattle.bl_image.specs.SinkFacts.{AlwaysTells};

    /// A sink that writes to `writer`. A writer that does not tell what it holds counts as empty.
    pub fn new(writer: W) -> IoSink<W>
        ensures { result ≡ record { contents = unwrap_or (W.contents writer) []; faults = 0 } }
    {
        let history = History::of(&writer);
        IoSink {
            writer,
            history,
            faults: 0,
        }
    }

    /// The writer, which has what was taken.
    pub fn into_writer(self) -> W
        ensures { AlwaysTells W.contents → W.contents result ≡ Some self.contents }
    {
        let IoSink {
            writer,
            history: _,
            faults: _,
        } = self;
        writer
    }
}

impl<W: Write + Drop> Sink for IoSink<W> {
    ghost contents = { λ s. s.contents };

    ghost faults = { λ s. s.faults };

    fn write(&mut self, part: &[u8]) -> Result<usize, DeviceFault> {
        match self.writer.write(part) {
            Ok(count) if count > 0 || part.is_empty() => {
                self.history = self.history.with_part(&part[..count]);
                Ok(count)
            }
            _ => {
                self.faults += 1;
                Err(DeviceFault)
            }
        }
    }

    fn faults(&self) -> u64 {
        self.faults
    }
}
