//! The bytes of one line, and the passes over its samples.
//!
//! A line goes through three stages: bytes are written into `room` and held by `commit`, until `is_full`; a pass goes
//! over the samples; `clear` forgets the line, and its array is used for the next one. An `Intake` (intake.rt) fills it
//! from a reader, `vbi_field::Feeder` from pieces of a stream, and `slice_lanes` (lanes.rt) is all that goes over it.
//!
//! It is a type of its own so that the promises about looks hold by construction. The bytes are private, and samples
//! come out by `next_sample` and `next_block` alone, which count them. `start_pass` requires that fewer than two passes
//! were started, so nobody can look at a sample three times. The readers of this crate need one pass; the second is for
//! a caller's own.
//!
//! A contract sees a `Line` (`specs/Line.antt`): the bytes held, the room, and the cursors of the passes as a list, the
//! latest first. As there are two at most, two numbers hold that list: `cursor`, and `earlier` for the pass before.
//! That file says at its end which fields make it, so a change of the fields changes that. Bytes of an earlier line
//! stay in the array, and aren't seen: a pass needs a whole line that was committed. `looked` counts over all lines.
//! Its limits in the `requires` (2^61, 2^62) only say that there is room for the looks of the next line.
//!
//! The array stands in store.rt, behind one method that lends a part of it, since that lending is the one thing of this
//! crate whose whole proof is written by hand.

ghost use Rattle.std.specs.Prelude.{◌≡◌, ◌+◌, ◌*◌, ◌^◌, ◌<◌, ◌≤◌, ◌↔◌, [], ◌∷◌, ◌++◌, length, take, drop, sum, IsTrue};
ghost use Rattle.std.specs.Borrow.{sem};
ghost use Rattle.vbi_words.specs.Geometry.{width_of, line_bytes};

use crate::blocks::block_at;
use crate::store::LineBytes;
use byteorder::{ByteOrder, LittleEndian};
use std::marker::Model;
use vbi_words::{LONGEST_LINE, System};

/// The bytes of one line while it is read, and at most two passes over its samples. Each sample that a pass looks at is
/// counted. A sample is two bytes, the low one first, as in ld-decode's TBC files.
#[derive(Drop)]
pub struct LineBuf {
    system: System,
    store: LineBytes,
    held: usize,
    passes: usize,
    cursor: usize,
    earlier: usize,
    looked: u64,
}

impl Model for LineBuf {
    ghost use Rattle.vbi_line.specs.Line.{Line};

    ghost Value = { Line };

    ghost use Rattle.vbi_line.specs.Line.{line_of, IsLine};

    ghost view = { line_of };

    ghost invariant = { IsLine };
}

impl LineBuf {
    ghost use Rattle.vbi_line.specs.LineLends.{LendsRoom};
    ghost use Rattle.vbi_line.specs.Line.{IsCleared, IsFull, IsNextBlock, IsNextSample, KeepsPasses, KeepsBytes};

    /// The buffer for a line of this system. It holds no byte, and its count is 0.
    pub fn new(system: System) -> Self
        ensures system { result.system ≡ system }
        ensures held { result.held ≡ [] }
        ensures room { length result.room ≡ line_bytes system }
        ensures cursors { result.cursors ≡ [] }
        ensures looked { result.looked ≡ 0 }
    {
        LineBuf {
            system,
            store: LineBytes {
                bytes: [0; LONGEST_LINE],
            },
            held: 0,
            passes: 0,
            cursor: 0,
            earlier: 0,
            looked: 0,
        }
    }

    /// The part of the line that isn't filled, for writing. What is written there is held once it is committed.
    pub fn room(&mut self) -> &mut [u8]
        ensures* writes_back { sem 𝓛 (LendsRoom self.entry result) }
        ensures value { result.now ≡ self.old.room }
        ensures fits { length self.old.held + length result.now ≡ line_bytes self.old.system }
    {
        let held = self.held;
        let end = self.system.line_bytes();
        self.store.part_mut(held, end)
    }

    /// Holds the first `n` bytes of the room, after those held before.
    pub fn commit(&mut self, n: usize)
        requires { n ≤ length self.old.room }
        ensures held { self.new.held ≡ self.old.held ++ take n self.old.room }
        ensures room { self.new.room ≡ drop n self.old.room }
        ensures rest { KeepsPasses self.old self.new }
    {
        self.held += n;
    }

    /// Whether all bytes of the line are held.
    pub fn is_full(&self) -> bool
        ensures { IsTrue result ↔ IsFull self.now }
    {
        self.held == self.system.line_bytes()
    }

    /// How many bytes are held, no more than a line's.
    pub fn held(&self) -> usize
        ensures count { result ≡ length self.now.held }
        ensures fits { result + length self.now.room ≡ line_bytes self.now.system }
    {
        self.held
    }

    /// The bytes held.
    pub(crate) fn bytes(&self) -> &[u8]
        ensures { result.now ≡ self.now.held }
    {
        &self.store.bytes[..self.held]
    }

    /// The system that the line is made for.
    pub(crate) fn system(&self) -> System
        ensures { result ≡ self.now.system }
    {
        self.system
    }

    /// Forgets the bytes held and the passes over them. The count `looked` goes on.
    pub fn clear(&mut self)
        ensures { IsCleared self.old self.new }
    {
        self.held = 0;
        self.passes = 0;
    }

    /// Starts a pass over the samples, from column 0. A line has at most two passes, so none of its samples is looked
    /// at more than twice.
    pub fn start_pass(&mut self)
        requires full { IsFull self.old }
        requires room { length self.old.cursors < 2 }
        requires looked { self.old.looked ≤ 2 ^ 62 }
        ensures cursors { self.new.cursors ≡ 0 ∷ self.old.cursors }
        ensures rest { KeepsBytes self.old self.new }
        ensures looked { self.new.looked ≡ self.old.looked }
    {
        // In a first pass `earlier` gets a cursor that counts for nothing: only those of `passes` passes are seen.
        self.earlier = self.cursor;
        self.cursor = 0;
        self.passes += 1;
    }

    /// The next sample of the latest pass, or `None` at the line's end.
    pub fn next_sample(&mut self) -> Option<u16>
        requires { 0 < length self.old.cursors }
        ensures gives { IsNextSample self.old result self.new }
    {
        let width = self.system.width();
        if self.cursor == width {
            return None;
        }
        let at = 2 * self.cursor;
        let sample = LittleEndian::read_u16(&self.store.bytes[at..]);
        self.cursor += 1;
        self.looked += 1;
        Some(sample)
    }

    /// The next sixteen samples of the latest pass, or `None` if fewer are left; the pass then stays where it is.
    pub fn next_block(&mut self) -> Option<[u16; 16]>
        requires { 0 < length self.old.cursors }
        ensures gives { IsNextBlock self.old result self.new }
    {
        let width = self.system.width();
        if width - self.cursor < 16 {
            return None;
        }
        let block = block_at(&self.store.bytes, self.cursor);
        self.cursor += 16;
        self.looked += 16;
        Some(block)
    }

    /// How many passes were started since the line was cleared, at most two.
    pub fn passes(&self) -> usize
        ensures count { result ≡ length self.now.cursors }
        ensures most { result ≤ 2 }
    {
        self.passes
    }

    /// How many samples the passes have looked at since the line was cleared.
    pub fn looks(&self) -> usize
        ensures sum { result ≡ sum self.now.cursors }
        ensures most { result ≤ 2 * width_of self.now.system }
    {
        match self.passes {
            0 => 0,
            1 => self.cursor,
            _ => self.cursor + self.earlier,
        }
    }

    /// How many samples the passes have looked at since the buffer was made.
    pub fn looked(&self) -> u64
        ensures { result ≡ self.now.looked }
    {
        self.looked
    }
}
