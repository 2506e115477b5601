//! What a reader asks of a file.
ghost use Rattle.std.specs.Prelude.{◌≡◌, ℕ, ◌+◌, ◌≤◌, List, length, slice_range, IfSome};

/// A file whose bytes can be copied out from any offset, in any order. They need not lie side by
/// side.
pub trait ByteView {
    /// The file's bytes, in order.
    ghost bytes: { Self → List ℕ };

    /// The file's length in bytes.
    fn len(&self) -> u64
        ensures { result ≡ length (bytes self.now) };

    /// Copies bytes from offset `at` on, as many as `out` holds.
    fn read(&self, at: u64, out: &mut [u8])
        requires { at + length out.old ≤ length (bytes self.now) }
        ensures { out.new ≡ slice_range (bytes self.now) at (at + length out.old) };

    /// Lends the `count` bytes from offset `at` on, so that whoever only hands them on copies none.
    /// A file in which they don't lie together lends nothing; `read` gives them always.
    fn lend(&self, at: u64, count: usize) -> Option<&[u8]>
        requires { at + count ≤ length (bytes self.now) }
        ensures { IfSome result (λ part. part.now ≡ slice_range (bytes self.now) at (at + count)) }
    {
        None
    }
}

/// A file in one slice.
#[derive(Clone, Copy, Debug)]
pub struct SliceView<'a> {
    bytes: &'a [u8],
}

impl<'a> SliceView<'a> {
    /// The slice as a file.
    pub fn new(bytes: &'a [u8]) -> SliceView<'a>
        ensures { result.bytes.now ≡ bytes.now }
    {
        SliceView { bytes }
    }
}

impl ByteView for SliceView<'_> {
    ghost use Rattle.std.specs.Prelude.{IsSome};

    ghost bytes = { λ view. view.bytes.now };

    fn len(&self) -> u64 {
        self.bytes.len() as u64
    }

    fn read(&self, at: u64, out: &mut [u8]) {
        let rest = &self.bytes[at as usize..];
        out.copy_from_slice(&rest[..out.len()]);
    }

    fn lend(&self, at: u64, count: usize) -> Option<&[u8]>
        requires { at + count ≤ length self.now.bytes.now }
        ensures exact { IfSome result
            (λ part. part.now ≡ slice_range self.now.bytes.now at (at + count)) }
        ensures some { IsSome result }
    {
        let from = at as usize;
        Some(&self.bytes[from..from + count])
    }
}
