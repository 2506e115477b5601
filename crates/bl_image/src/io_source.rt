//! A source over a reader.
use crate::ghost_history::History;
use crate::sink::DeviceFault;
use crate::source::Source;
use std::io::{self, Read};
use std::marker::Model;

/// A source over a reader of std. Each error of the reader is a fault. Once the reader said that
/// its input ended, the source is at its end for good, and asks no more.
///
/// Of a reader that tells what it still has, as a slice does, the source knows what is to come. Of
/// a device it knows only what came.
#[derive(Drop)]
pub struct IoSource<R: Read + Drop> {
    reader: R,
    history: History,
    is_ended: bool,
    faults: u64,
}

impl<R: Read + Drop> Model for IoSource<R> {
    ghost use Rattle.bl_image.specs.SourceFacts.{IoSourceFacts, rest_of};

    ghost Value = { IoSourceFacts };

    ghost view = { λ s. record {
      input = record {
        given = s.history.bytes;
        rest = rest_of s.is_ended (R.remaining s.reader);
      };
      faults = s.faults;
    } };
}

impl<R: Read + Drop> IoSource<R> {
    ghost use Rattle.std.specs.Prelude.{◌≡◌, []};

    /// A source that reads from `reader`. Nothing came yet.
    pub fn new(reader: R) -> IoSource<R>
        ensures { result
            ≡ record { input = record { given = []; rest = R.remaining reader }; faults = 0 } }
    {
        // A history begins with what a writer holds: this one, nothing.
        let history = History::of(&io::sink());
        IoSource {
            reader,
            history,
            is_ended: false,
            faults: 0,
        }
    }
}

impl<R: Read + Drop> Source for IoSource<R> {
    ghost input = { λ s. s.input };

    ghost faults = { λ s. s.faults };

    fn read(&mut self, out: &mut [u8]) -> Result<usize, DeviceFault> {
        if self.is_ended {
            return Ok(0);
        }
        match self.reader.read(out) {
            Ok(count) => {
                self.history = self.history.with_part(&out[..count]);
                self.is_ended = count == 0 && !out.is_empty();
                Ok(count)
            }
            Err(_) => {
                self.faults += 1;
                Err(DeviceFault)
            }
        }
    }

    fn faults(&self) -> u64 {
        self.faults
    }
}
