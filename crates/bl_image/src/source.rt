//! Where bytes are read from.
ghost use Rattle.std.specs.Prelude.{◌≡◌, ℕ, [], ◌+◌, ◌-◌, ◌≤◌, ◌<◌, ◌^◌, length, take};
ghost use Rattle.std.specs.Prelude.{IfOk, OnOk, OnErr};
ghost use Rattle.bl_image.specs.SourceFacts.{SourceFacts, Comes, IsEnded};

use crate::sink::DeviceFault;

/// Somewhere that bytes are read from. It counts its own faults, so that whoever is told of one can
/// be shown it.
pub trait Source {
    /// The bytes that reads gave so far, and those to come, where they are known.
    ghost input: { Self → SourceFacts };

    /// How many faults there were.
    ghost faults: { Self → ℕ };

    /// Puts the next bytes at the front of `out`, one or more, and answers how many; 0 only at the
    /// end of the input, or where `out` is empty. At a fault it gives nothing.
    fn read(&mut self, out: &mut [u8]) -> Result<usize, DeviceFault>
        requires { faults self.old < 2 ^ 64 - 1 }
        ensures within { IfOk result (λ count. count ≤ length out.new) }
        ensures gave { IfOk result
            (λ count. Comes (input self.old) (input self.new) (take count out.new)) }
        ensures ended { IfOk result
            (λ count. count ≡ 0 → 1 ≤ length out.new → IsEnded (input self.new)) }
        ensures sound { OnOk result (faults self.new ≡ faults self.old) }
        ensures nothing { OnErr result (Comes (input self.old) (input self.new) []) }
        ensures fault { OnErr result (faults self.new ≡ faults self.old + 1) };

    /// How many faults there were.
    fn faults(&self) -> u64
        requires { faults self.now < 2 ^ 64 }
        ensures { result ≡ faults self.now };
}

/// Fills `out`, or as much of it as comes before the end of the input, and answers how much.
pub(crate) fn fill<S: Source>(source: &mut S, out: &mut [u8]) -> Result<usize, DeviceFault>
    requires { S.faults source.old < 2 ^ 63 }
    ensures within { IfOk result (λ count. count ≤ length out.new) }
    ensures gave { IfOk result
        (λ count. Comes (S.input source.old) (S.input source.new) (take count out.new)) }
    ensures ended { IfOk result (λ count. count < length out.new → IsEnded (S.input source.new)) }
    ensures sound { OnOk result (S.faults source.new ≡ S.faults source.old) }
    ensures fault { OnErr result (S.faults source.new ≡ S.faults source.old + 1) }
{
    let mut done = 0;
    while done < out.len() {
        let count = source.read(&mut out[done..])?;
        if count == 0 {
            return Ok(done);
        }
        done += count;
    }
    Ok(done)
}
