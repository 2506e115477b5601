//! Files that memory may hold.
ghost use Rattle.std.specs.Prelude.{◌≡◌, ℕ, ◌+◌, ◌<◌, ◌≤◌, List, length, map, slice_range, refl};
ghost use Rattle.std.specs.Prelude.{IfSome};
ghost use Rattle.bl_mem.specs.FileSet.{nth_file, AreAddressesBelow, Agree};

use crate::byte_view::ByteView;
use crate::memory::PhysMem;

/// An entry's files, which may lie in the memory that the entry is loaded into. They go by their
/// place, from 0 on.
pub trait FileSet {
    /// The bytes of each file, where memory has these bytes.
    ghost texts: { Self → List ℕ → List (List ℕ) };

    /// The addresses of memory that the files lie on.
    ghost holds: { Self → ℕ → Type 0 };

    /// A file's length in bytes.
    fn len<M: PhysMem>(&self, memory: &M, file: usize) -> u64
        requires file { file < length (texts self.now (M.bytes memory.now)) }
        ensures { result ≡ length (nth_file (texts self.now (M.bytes memory.now)) file) };

    /// Copies bytes of a file from offset `at` on, as many as `out` holds.
    fn read<M: PhysMem>(&self, memory: &M, file: usize, at: u64, out: &mut [u8])
        requires held { AreAddressesBelow (holds self.now) (length (M.bytes memory.now)) }
        requires file { file < length (texts self.now (M.bytes memory.now)) }
        requires inside { at + length out.old
            ≤ length (nth_file (texts self.now (M.bytes memory.now)) file) }
        ensures { out.new ≡ slice_range (nth_file (texts self.now (M.bytes memory.now)) file)
            at (at + length out.old) };

    /// Lends the `count` bytes of a file from offset `at` on, so that they are copied once on their
    /// way. Files that lie in memory, or in which these bytes don't lie together, lend nothing;
    /// `read` gives them always.
    fn lend<M: PhysMem>(&self, memory: &M, file: usize, at: u64, count: usize) -> Option<&[u8]>
        requires file { file < length (texts self.now (M.bytes memory.now)) }
        requires inside { at + count
            ≤ length (nth_file (texts self.now (M.bytes memory.now)) file) }
        ensures { IfSome result (λ part. part.now
            ≡ slice_range (nth_file (texts self.now (M.bytes memory.now)) file) at
            (at + count)) }
    {
        None
    }

    /// The address from which on the `count` bytes of a file from offset `at` on lie in memory, so
    /// that memory can copy them by itself. Files that don't lie in memory answer none, and so may
    /// others; `read` gives the bytes always.
    fn address<M: PhysMem>(&self, memory: &M, file: usize, at: u64, count: usize) -> Option<u64>
        requires held { AreAddressesBelow (holds self.now) (length (M.bytes memory.now)) }
        requires file { file < length (texts self.now (M.bytes memory.now)) }
        requires inside { at + count
            ≤ length (nth_file (texts self.now (M.bytes memory.now)) file) }
        ensures within { IfSome result (λ address. address + count ≤ length (M.bytes memory.now)) }
        ensures same { IfSome result (λ address.
            slice_range (M.bytes memory.now) address (address + count)
            ≡ slice_range (nth_file (texts self.now (M.bytes memory.now)) file) at
            (at + count)) }
    {
        None
    }

    /// A write beside the files' addresses changes none of them.
    ghost same: { (files : Self) (old new : List ℕ) → Agree (holds files) old new
        → texts files new ≡ texts files old };
}

/// Files beside memory: each is a view.
#[derive(Clone, Copy, Debug)]
pub struct Views<'a, V: ByteView> {
    pub views: &'a [V],
}

impl<V: ByteView> FileSet for Views<'_, V> {
    ghost texts = { λ files _. map V.bytes files.views.now };

    ghost holds = { λ _ _. ⊥ };

    fn len<M: PhysMem>(&self, _memory: &M, file: usize) -> u64 {
        self.views[file].len()
    }

    fn read<M: PhysMem>(&self, _memory: &M, file: usize, at: u64, out: &mut [u8]) {
        self.views[file].read(at, out);
    }

    fn lend<M: PhysMem>(&self, _memory: &M, file: usize, at: u64, count: usize) -> Option<&[u8]> {
        self.views[file].lend(at, count)
    }

    ghost same = { λ files old new agree. refl };
}
