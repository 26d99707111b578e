//! A line's levels as bits.

ghost use Rattle.std.specs.Prelude.{◌≡◌, ℕ, ◌+◌, ◌-◌, ◌^◌, ◌<◌, ◌≤◌, ◌%◌, [], ◌++◌, length};
ghost use Rattle.vbi_words.specs.Levels.{level_at};
ghost use Rattle.vbi_line.specs.Packing.{level_of_bit, levels_in, EqualBits, IsRun};

use std::marker::Model;

/// The levels of a line: one bit for each column, set if the sample is high.
// 18 words have 1,152 bits, for the 1,135 columns of PAL. The bits past the width are 0, so a search that comes there
// finds lows, and needs to ask for the width only once a word has no other level.
#[derive(Drop)]
pub struct Packed {
    words: [u64; 18],
    width: usize,
}

impl Model for Packed {
    ghost use Rattle.std.specs.Prelude.{List, Bool};

    ghost Value = { List Bool };

    ghost use Rattle.vbi_line.specs.Packing.{packed_levels, IsPacked};

    ghost view = { packed_levels };

    ghost invariant = { IsPacked };
}

/// The last column from which there are 64 in the words of a packed line: the first of the last word.
pub(crate) const LAST_WINDOW: usize = 1088;

/// How many bits of the word have this level, from a place on up to the first that has the other.
pub(crate) fn equal_bits(word: u64, place: usize, level: bool) -> usize
    requires { place < 64 }
    ensures { EqualBits word place level result }
{
    let other_bits = if level { !word } else { word };
    let others = other_bits >> place;
    if others == 0 {
        64 - place
    } else {
        others.trailing_zeros() as usize
    }
}

impl Packed {
    /// No levels yet.
    pub(crate) fn new() -> Self
        ensures { result ≡ [] }
    {
        Packed {
            words: [0; 18],
            width: 0,
        }
    }

    /// Adds the levels in the lowest `count` bits, the lowest first. They fit what is left of the last word.
    pub(crate) fn push(&mut self, bits: u64, count: usize)
        requires word { length self.old % 64 + count ≤ 64 }
        requires room { length self.old + count ≤ 1152 }
        requires some { 0 < count }
        requires bits { bits < 2 ^ count }
        ensures { self.new ≡ self.old ++ levels_in count bits }
    {
        let column = self.width;
        self.words[column / 64] |= bits << (column % 64);
        self.width = column + count;
    }

    /// How many columns the line has.
    pub fn width(&self) -> usize
        ensures { result ≡ length self.now }
    {
        self.width
    }

    /// The level of a column, counted from 0: whether its sample is high.
    pub fn level(&self, column: usize) -> bool
        requires { column < length self.now }
        ensures { result ≡ level_at self.now column }
    {
        self.words[column / 64] >> (column % 64) & 1 == 1
    }

    /// The levels of 64 columns from this one on, the lowest bit for the first; those past the line's end are low.
    pub(crate) fn window(&self, column: usize) -> u64
        requires { column ≤ LAST_WINDOW }
        ensures { (i : ℕ) → i < 64 → level_of_bit result i ≡ level_at self.now (column + i) }
    {
        let place = column % 64;
        let here = self.words[column / 64] >> place;
        if place == 0 {
            here
        } else {
            here | self.words[column / 64 + 1] << (64 - place)
        }
    }

    /// The level of a column, counted from 0, and how many columns have it from there on, that column included.
    pub fn next_run(&self, column: usize) -> (bool, u16)
        requires { column < length self.now }
        ensures { IsRun self.now column result.0 result.1 }
    {
        let level = self.level(column);
        (level, (self.run_end(column, level) - column) as u16)
    }

    /// The column after the run of a level that a column is in.
    pub(crate) fn run_end(&self, column: usize, level: bool) -> usize
        requires inside { column < length self.now }
        requires level { level ≡ level_at self.now column }
        ensures run { IsRun self.now column level (result - column) }
        ensures fits { result < 2 ^ 16 }
    {
        let mut end = column;
        while end < self.width {
            let place = end % 64;
            let equal = equal_bits(self.words[end / 64], place, level);
            if place + equal < 64 {
                return (end + equal).min(self.width);
            }
            // The next word's first column, by the place, so that the next search needn't wait for this one's count.
            end = end - place + 64;
        }
        self.width
    }
}
