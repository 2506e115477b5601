//! Where bytes are written to.
ghost use Rattle.std.specs.Prelude.{◌≡◌, ℕ, List, ◌+◌, ◌-◌, ◌≤◌, ◌<◌, ◌^◌, ◌++◌, length, take};
ghost use Rattle.std.specs.Prelude.{IfOk, OnOk, OnErr};
ghost use Rattle.bl_image.specs.SinkFacts.{TookBeginning};

use thiserror::Error;

/// A device did not do what it was asked.
#[derive(Clone, Copy, Debug, PartialEq, Eq, Error)]
#[error("device fault")]
pub struct DeviceFault;

/// Somewhere that bytes are written to. It counts its own faults, so that whoever is told of one
/// can be shown it.
pub trait Sink {
    /// The bytes that were taken so far.
    ghost contents: { Self → List ℕ };

    /// How many faults there were.
    ghost faults: { Self → ℕ };

    /// Takes a beginning of `part`, of one byte or more where `part` is not empty, and answers its
    /// length. At a fault it takes nothing.
    fn write(&mut self, part: &[u8]) -> Result<usize, DeviceFault>
        requires { faults self.old < 2 ^ 64 - 1 }
        ensures within { IfOk result (λ count. count ≤ length part.now) }
        ensures some { IfOk result (λ count. 1 ≤ length part.now → 1 ≤ count) }
        ensures took { IfOk result
            (λ count. contents self.new ≡ contents self.old ++ take count part.now) }
        ensures sound { OnOk result (faults self.new ≡ faults self.old) }
        ensures nothing { OnErr result (contents self.new ≡ contents self.old) }
        ensures fault { OnErr result (faults self.new ≡ faults self.old + 1) };

    /// How many faults there were.
    fn faults(&self) -> u64
        requires { faults self.now < 2 ^ 64 }
        ensures { result ≡ faults self.now };
}

/// Writes all of these bytes; or a beginning of them, where the sink has a fault.
pub fn write_all<S: Sink>(sink: &mut S, bytes: &[u8]) -> Result<(), DeviceFault>
    requires { S.faults sink.old < 2 ^ 63 }
    ensures ok { OnOk result (S.contents sink.new ≡ S.contents sink.old ++ bytes.now) }
    ensures sound { OnOk result (S.faults sink.new ≡ S.faults sink.old) }
    ensures begun { OnErr result
        (TookBeginning (S.contents sink.old) (S.contents sink.new) bytes.now) }
    ensures fault { OnErr result (S.faults sink.new ≡ S.faults sink.old + 1) }
{
    let mut done = 0;
    while done < bytes.len() {
        done += sink.write(&bytes[done..])?;
    }
    Ok(())
}
