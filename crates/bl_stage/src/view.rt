//! A file in scattered frames, to be read by offset.
ghost use Rattle.std.specs.Prelude.{◌≡◌, ℕ, ◌+◌, ◌-◌, ◌*◌, ◌%◌, ◌/◌, ◌<◌, ◌≤◌, length};
ghost use Rattle.std.specs.Prelude.{slice_range, slice_index, IfSome, IsTrue, ◌↔◌};
ghost use Rattle.bl_stage.specs.Staged.{staged, AreInside};

use bl_map::FRAME_SIZE;
use bl_mem::{ByteView, PhysMem};

/// A file in scattered frames of memory. It borrows the memory, so that none lives across a
/// change of it.
#[derive(Drop)]
pub struct FrameView<'a, M: PhysMem> {
    pub memory: &'a M,
    pub frames: &'a [u64],
    pub size: u64,
    ghost inside: { AreInside frames.now (length (M.bytes memory.now)) },
    ghost enough: { size ≤ 4096 * length frames.now },
}

/// Whether the frame at `end` of the list lies as far after the one at `first` as in the list.
fn is_side(frames: &[u64], first: usize, end: usize) -> bool
    requires first { first ≤ end }
    requires end { end < length frames.now }
    ensures { IsTrue result
        ↔ (slice_index frames.now end ≡ slice_index frames.now first + (end - first)) }
{
    let run = (end - first) as u64;
    frames[end] >= run && frames[end] - run == frames[first]
}

/// How many frames from `first` on lie side by side in memory, of at most `most`.
fn adjoining(frames: &[u64], first: usize, most: usize) -> usize
    requires first { first < length frames.now }
    requires most { 0 < most }
    ensures some { 0 < result }
    ensures within { first + result ≤ length frames.now }
    ensures side { (k : ℕ) → k < result
        → slice_index frames.now (first + k) ≡ slice_index frames.now first + k }
{
    let last = frames.len().min(first.saturating_add(most));
    let mut end = first + 1;
    while end < last && is_side(frames, first, end) {
        end += 1;
    }
    end - first
}

impl<M: PhysMem> FrameView<'_, M> {
    /// The address from which on `count` bytes of the file lie in memory, if they lie in one frame.
    pub fn address(&self, at: u64, count: usize) -> Option<u64>
        requires { at + count ≤ self.now.size }
        ensures within { IfSome result
            (λ address. address + count ≤ length (M.bytes self.now.memory.now)) }
        ensures same { IfSome result (λ address.
            slice_range (M.bytes self.now.memory.now) address (address + count)
            ≡ slice_range (staged (M.bytes self.now.memory.now) self.now.frames.now self.now.size)
            at (at + count)) }
    {
        // For the proof: memory's size is below 2^64.
        let _size = self.memory.size();
        if count == 0 || at % FRAME_SIZE + count as u64 > FRAME_SIZE {
            return None;
        }
        let first = self.frames[(at / FRAME_SIZE) as usize];
        Some(FRAME_SIZE * first + at % FRAME_SIZE)
    }

    /// Reads bytes of one stretch of frames side by side.
    fn read_stretch(&self, at: u64, out: &mut [u8])
        requires inside { at + length out.old ≤ self.now.size }
        requires some { 0 < length out.old }
        requires side { (k : ℕ) → 4096 * k < at % 4096 + length out.old
            → slice_index self.now.frames.now (at / 4096 + k)
            ≡ slice_index self.now.frames.now (at / 4096) + k }
        ensures { out.new ≡ slice_range
            (staged (M.bytes self.now.memory.now) self.now.frames.now self.now.size)
            at (at + length out.old) }
    {
        // For the proof: memory's size is below 2^64.
        let _size = self.memory.size();
        let frame = self.frames[(at / FRAME_SIZE) as usize];
        self.memory.read(FRAME_SIZE * frame + at % FRAME_SIZE, out);
    }
}

#[tactic(auto, using(crate::proofs::FrameLemmas::staged_length))]
impl<M: PhysMem> ByteView for FrameView<'_, M> {
    ghost bytes = { λ view. staged (M.bytes view.memory.now) view.frames.now view.size };

    fn len(&self) -> u64 {
        self.size
    }

    fn read(&self, at: u64, out: &mut [u8]) {
        // For the proof: the size is below 2^64.
        let _size = self.size;
        let mut done = 0;
        while done < out.len() {
            let here = at + done as u64;
            let rest = out.len() - done;
            let most = rest / FRAME_SIZE as usize + 2;
            let frames = adjoining(self.frames, (here / FRAME_SIZE) as usize, most);
            let next = rest.min(
                frames.saturating_mul(FRAME_SIZE as usize) - (here % FRAME_SIZE) as usize,
            );
            self.read_stretch(here, &mut out[done..done + next]);
            done += next;
        }
    }
}
