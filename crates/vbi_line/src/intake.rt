//! Reading lines from a reader, one at a time.

ghost use Rattle.std.specs.Prelude.{◌≡◌, ◌+◌, ◌*◌, ◌^◌, ◌<◌, ◌≤◌, [], ◌∷◌, length, IfOk, OnOk, OnErr};
ghost use Rattle.vbi_words.specs.{Geometry.width_of, Geometry.line_bytes, Levels.row_levels};
ghost use Rattle.vbi_line.specs.{Line.IsFull, Line.KeepsBytes, Line.IsCleared, OneReading.ReadsLine};
ghost use Rattle.vbi_line.specs.{OneReading.reading_of, OneReading.outcome_of};

use crate::counted::Counted;
use crate::line::LineBuf;
use crate::outcome::read_line;
use crate::reading::{read_twice, take_reading};
use std::error::Error;
use std::fmt;
use std::io::Read;
use vbi_words::{Levels, Outcome, Reading, System};

/// How a call of `fill_line` ended.
#[derive(Clone, Copy, Debug, PartialEq, Eq)]
pub enum Filled {
    /// A whole line is held.
    Full,
    /// The reader is at its end, and this many bytes are held, fewer than a line's.
    Ended(usize),
}

/// Why a line was not filled.
#[derive(Clone, Copy, Debug, PartialEq, Eq)]
pub enum IntakeFault {
    /// The reader was interrupted seventeen times in a row, or failed in another way.
    Read,
}

impl fmt::Display for IntakeFault {
    fn fmt<W: fmt::Write>(&self, f: &mut fmt::Formatter<W>) -> fmt::Result {
        match self {
            IntakeFault::Read => write!(f, "read failed"),
        }
    }
}

impl Error for IntakeFault {}

/// A borrowed reader, and the buffer into which its lines are read, one at a time.
#[derive(Drop)]
pub struct Intake<'a, R> {
    device: Counted<'a, R>,
    line: LineBuf,
    fetched: u64,
}

impl<'a, R: Read> Intake<'a, R> {
    ghost use Rattle.vbi_line.specs.Counted.{tries, name_of, device_of, failures_of, NoError, HasCause, IsSameDevice};
    ghost use Rattle.vbi_line.specs.Intake.{counted_of, fetched_of, held_of, line_of};
    ghost use Rattle.vbi_line.specs.Intake.{IsFresh, Fetches, IsFilled, KeepsReader};

    /// An intake for lines of this system. It holds no byte and has not called the reader.
    pub fn new(reader: &'a mut R, system: System) -> Self
        ensures same_reader { name_of (counted_of result) ≡ reader.entry.ghost_name }
        ensures reader { device_of (counted_of result) ≡ reader.old }
        ensures fresh { IsFresh result system }
    {
        Intake {
            device: Counted::new(reader),
            line: LineBuf::new(system),
            fetched: 0,
        }
    }

    /// Gives the borrowed reader back, as the calls have left it.
    pub fn into_reader(self) -> &'a mut R
        ensures same_reader { result.ghost_name ≡ name_of (counted_of self.entry) }
        ensures reader { result.now ≡ device_of (counted_of self.entry) }
    {
        let Intake {
            device,
            line: _,
            fetched: _,
        } = self;
        device.into_inner()
    }

    /// Reads into the line until it is whole or the reader is at its end. An interrupted read is tried again, up to
    /// sixteen times in a row. After `Read` the bytes that were read stay held, and the next call goes on from there;
    /// after `Ended` the next call asks the reader again.
    pub fn fill_line(&mut self) -> Result<Filled, IntakeFault>
        requires room { length (held_of self.old) < line_bytes (line_of self.old).system }
        requires fetched { fetched_of self.old ≤ 2 ^ 62 }
        requires failures { (failures_of (counted_of self.old)).all ≤ 2 ^ 62 }
        ensures same_reader { IsSameDevice (counted_of self.old) (counted_of self.new) }
        ensures bytes { Fetches R.remaining self.old self.new }
        ensures fits { length (held_of self.new) ≤ line_bytes (line_of self.old).system }
        ensures ok { IfOk result (λ f. IsFilled R.remaining f self.new) }
        ensures no_error { OnOk result (NoError (counted_of self.old) (counted_of self.new)) }
        ensures failed { OnErr result (HasCause (counted_of self.old) (counted_of self.new)) }
        ensures streak { (failures_of (counted_of self.new)).streak
            ≤ (failures_of (counted_of self.old)).streak + tries }
        ensures short { OnErr result (length (held_of self.new) < line_bytes (line_of self.old).system) }
    {
        loop {
            let room = self.line.room();
            match self.device.read_some(room) {
                Ok(count) => {
                    self.line.commit(count);
                    self.fetched += count as u64;
                    if self.line.is_full() {
                        return Ok(Filled::Full);
                    }
                    if count == 0 {
                        return Ok(Filled::Ended(self.line.held()));
                    }
                }
                Err(_) => return Err(IntakeFault::Read),
            }
        }
    }

    /// The outcome of the line that is held, by one pass over its samples. Columns in it are counted from 0.
    pub fn outcome(&mut self, slicing: Levels) -> Outcome
        requires full { IsFull (line_of self.old) }
        requires passes { (line_of self.old).cursors ≡ [] }
        requires looked { (line_of self.old).looked ≤ 2 ^ 61 }
        ensures outcome { result ≡ outcome_of (line_of self.old).system (row_levels slicing (held_of self.old)) }

        // One pass has looked at each sample once.
        ensures reader { KeepsReader self.old self.new }
        ensures bytes { KeepsBytes (line_of self.old) (line_of self.new) }
        ensures pass { (line_of self.new).cursors ≡ width_of (line_of self.old).system ∷ [] }
        ensures looked { (line_of self.new).looked ≡ (line_of self.old).looked + width_of (line_of self.old).system }
    {
        let system = self.line.system();
        read_line(&mut self.line, system, slicing)
    }

    /// The reading of the line that is held: its outcome or, if it shows no word, the word that its smoothed levels
    /// show. Columns in it are counted from 0.
    pub fn reading(&mut self, slicing: Levels) -> Reading
        requires full { IsFull (line_of self.old) }
        requires passes { (line_of self.old).cursors ≡ [] }
        requires looked { (line_of self.old).looked ≤ 2 ^ 61 }
        ensures reading { result ≡ reading_of (line_of self.old).system (row_levels slicing (held_of self.old)) }

        // One pass has looked at each sample once.
        ensures reader { KeepsReader self.old self.new }
        ensures bytes { KeepsBytes (line_of self.old) (line_of self.new) }
        ensures pass { (line_of self.new).cursors ≡ width_of (line_of self.old).system ∷ [] }
        ensures looked { (line_of self.new).looked ≡ (line_of self.old).looked + width_of (line_of self.old).system }
    {
        let system = self.line.system();
        read_twice(&mut self.line, system, slicing)
    }

    /// The reading of the line that is held, if it is selected, as `take_reading` says it; the line is held no longer.
    pub fn take_reading(&mut self, slicing: Levels, is_selected: bool) -> Option<Reading>
        requires full { IsFull (line_of self.old) }
        requires passes { (line_of self.old).cursors ≡ [] }
        requires looked { (line_of self.old).looked ≤ 2 ^ 61 }
        ensures reads { ReadsLine slicing is_selected (line_of self.old) (line_of self.new) result }
        ensures reader { KeepsReader self.old self.new }
    {
        take_reading(&mut self.line, slicing, is_selected)
    }

    /// Forgets the bytes held and the passes over them. The counts go on.
    pub fn clear_line(&mut self)
        ensures rest { KeepsReader self.old self.new }
        ensures line { IsCleared (line_of self.old) (line_of self.new) }
    {
        self.line.clear();
    }

    /// The bytes held. Looks at the samples there aren't counted.
    pub fn bytes(&self) -> &[u8]
        ensures { result.now ≡ held_of self.now }
    {
        self.line.bytes()
    }

    /// How many bytes are held, no more than a line's.
    pub fn held(&self) -> usize
        ensures value { result ≡ length (held_of self.now) }
        ensures fits { result ≤ line_bytes (line_of self.now).system }
    {
        self.line.held()
    }

    /// How many passes over the line's samples were started since it was cleared, at most two.
    pub fn passes(&self) -> usize
        ensures value { result ≡ length (line_of self.now).cursors }
        ensures few { result ≤ 2 }
    {
        self.line.passes()
    }

    /// How many bytes the reader has given, over all lines.
    pub fn fetched(&self) -> u64
        ensures { result ≡ fetched_of self.now }
    {
        self.fetched
    }

    /// How many calls of the reader failed, interruptions included.
    pub fn failures(&self) -> u64
        ensures { result ≡ (failures_of (counted_of self.now)).all }
    {
        self.device.failures()
    }

    /// How many calls of the reader failed, interruptions not included.
    pub fn errors(&self) -> u64
        ensures { result ≡ (failures_of (counted_of self.now)).errors }
    {
        self.device.errors()
    }

    /// How many samples the passes have looked at, over all lines.
    pub fn looked(&self) -> u64
        ensures { result ≡ (line_of self.now).looked }
    {
        self.line.looked()
    }
}
