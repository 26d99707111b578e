//! How a word is drawn on a row of samples.

ghost use Rattle.std.specs.Prelude.{◌≡◌, ◌+◌, ◌≤◌, ◌<◌, ◌&&◌, nat_lt, false, Some, length, slice_index_or};
ghost use Rattle.vbi_words.specs.Drawn.{boundary, drawn_sample_of, drawn_line_of};
ghost use Rattle.vbi_words.specs.Geometry.{width_of, start_of, line_bytes};
ghost use Rattle.vbi_words.specs.Words.{halves_of};

use crate::levels::Levels;
use crate::system::System;
use crate::word::Word24;

/// The half cell of a drawn word, counted from 0, in which a column lies; from 48 on the word has ended.
// Half cell j begins at the whole part of j microseconds in samples. So a column that is c columns into the word lies
// in the last half cell j with j * 315/22 < c + 1 (NTSC).
fn half_at(system: System, column: usize) -> usize
    requires from_start { start_of system ≤ column }
    requires on_line { column < width_of system }
    ensures begun { boundary system result ≤ column }
    ensures not_ended { column < boundary system (result + 1) }
{
    let columns = column - system.start() + 1;
    match system {
        System::Ntsc => (columns * 22 - 1) / 315,
        System::Pal => (columns * 40000 - 1) / 709379,
    }
}

/// The sample at a column, counted from 0, of the row drawn for a word or for none: white in a high half cell of the
/// word, black elsewhere. The word's 48 half cells last one microsecond each (IEC 60857 and IEC 60856).
#[tactic(auto, unfolding(crate::specs::Drawn::drawn_sample_of))]
pub fn drawn_sample(system: System, slicing: Levels, word: Option<Word24>, column: usize) -> u16
    requires { column < width_of system }
    ensures { result ≡ drawn_sample_of system slicing word column }
{
    match word {
        Some(word) => word_sample(system, slicing, word, column),
        None => slicing.black(),
    }
}

/// The sample at a column of the row drawn for a word.
fn word_sample(system: System, slicing: Levels, word: Word24, column: usize) -> u16
    requires { column < width_of system }
    ensures { result ≡ drawn_sample_of system slicing (Some word) column }
{
    if column < system.start() {
        return slicing.black();
    }
    if is_high_half(word, half_at(system, column)) {
        slicing.white()
    } else {
        slicing.black()
    }
}

/// Whether a half cell of a word, counted from 0, is high; from 48 on there is none.
fn is_high_half(word: Word24, half: usize) -> bool
    ensures { result ≡ (nat_lt half 48 && slice_index_or (halves_of word) half false) }
{
    half < 48 && word.half(half)
}

/// Writes the row drawn for a word, or for none, into the bytes of a line: two for each sample, the low one first.
pub fn draw_line(system: System, slicing: Levels, word: Option<Word24>, line: &mut [u8])
    requires { length line.old ≡ line_bytes system }
    ensures { line.new ≡ drawn_line_of system slicing word }
{
    let word = &word;
    for column in 0..system.width() {
        let sample = drawn_sample(system, slicing, *word, column);
        line[2 * column] = (sample % 256) as u8;
        line[2 * column + 1] = (sample / 256) as u8;
    }
}
