//! The outcome of a line, and its reading.

ghost use Rattle.std.specs.Prelude.{◌≡◌};
ghost use Rattle.vbi_words.specs.Outcomes.{word_of};

use crate::word::Word24;

/// What a line shows: its word, or why it shows none. Columns are counted from 0. A column is hopeless if no list of
/// levels that begins like the line up to it, and with it, shows a word.
#[derive(Clone, Copy, Debug, PartialEq, Eq)]
pub enum Outcome {
    /// The line shows this word.
    Word(Word24),
    /// No sample is high.
    Blank,
    /// No column is hopeless: a longer line could still show a word.
    Unfinished,
    /// The first hopeless column, where the level changes or the line begins.
    Change(u16),
    /// The first hopeless column, where the level is that of the column before.
    Hold(u16),
}

impl Outcome {
    /// The word that the line shows, if it shows one.
    pub fn word(self) -> Option<Word24>
        ensures { result ≡ word_of self }
    {
        match self {
            Outcome::Word(word) => Some(word),
            _ => None,
        }
    }
}

/// The reading of a line: the outcome of its own levels, or, if these show no word and aren't blank, the word that
/// its smoothed levels show.
#[derive(Clone, Copy, Debug, PartialEq, Eq)]
pub struct Reading {
    /// The word, or why the line's own levels show none.
    pub outcome: Outcome,
    /// 1 for a word of the line's own levels, 2 for one of the smoothed levels, 0 for no word.
    pub pass: u8,
}
