//! The codes of words, the format of a field by its words, and the drawing of a line with one.

ghost use Rattle.std.specs.Prelude.{◌≡◌, ◌≢◌, ◌↔◌, ◌<◌, length, IfOk};
ghost use Rattle.vbi_words.specs.{Codes.code_of, Formats.format_of_lines, Words.IsWord, Words.IsWordOrNone};
ghost use Rattle.vbi_words.specs.{Drawn.drawn_line_of, Drawn.drawn_reading};
ghost use Rattle.vbi_c.specs.{Numbers.three_words, Numbers.code_for_c, Numbers.format_for_c, Statuses.Answers};
ghost use Rattle.vbi_c.specs.{Readings.line_reading, Readings.reading_for_c, Setups.drawing_of};

use crate::numbers::{LdvbiCode, code_for_c, format_for_c, word_or_none};
use crate::setup::{Setup, line_setup};
use crate::status::{DONE, Refusal, Settled, settled};
use vbi_words::{Word24, classify, draw_line, format_of};

/// What a word says, by its six hexadecimal digits.
#[unsafe(no_mangle)]
pub extern "C" fn ldvbi_classify(word: u32, code: &mut LdvbiCode) -> u32
    ensures done { (result ≡ 0) ↔ IsWord word }
    ensures refused { result ≢ 0 → result ≡ 4 }
    ensures classifies { result ≡ 0 → code.new ≡ code_for_c (code_of word) }
    ensures unwritten { result ≢ 0 → code.new ≡ code.old }
{
    let word = settled!(Word24::new(word).map_err(|_| Refusal::Word));
    *code = code_for_c(classify(word));
    DONE
}

/// The words with these three numbers, each a word or 0 for none.
fn three_words(first: u32, second: u32, third: u32) -> Settled<[Option<Word24>; 3]>
    ensures { result ≡ three_words first second third }
{
    Ok([
        word_or_none(first)?,
        word_or_none(second)?,
        word_or_none(third)?,
    ])
}

/// The format of a field whose lines 16, 17 and 18 have these words, each 0 if there is none: 1 if some are codes
/// that CAV discs alone have and none are codes that CLV discs alone have, 2 the other way round, 3 if there are
/// both, 0 if there is neither.
#[unsafe(no_mangle)]
pub extern "C" fn ldvbi_format(first: u32, second: u32, third: u32, format: &mut u32) -> u32
    ensures value { Answers (three_words first second third) result
        (λ lines. format.new ≡ format_for_c (format_of_lines lines)) (format.new ≡ format.old) }
{
    let words = settled!(three_words(first, second, third));
    *format = format_for_c(format_of(&words));
    DONE
}

/// What is to be drawn, and how.
#[derive(Clone, Copy)]
pub(crate) struct Drawing {
    pub(crate) setup: Setup,
    pub(crate) word: Option<Word24>,
}

/// The drawing of a word, or of none for 0, on this many bytes.
fn drawing_of(system: u32, black: u32, white: u32, word: u32, length: usize) -> Settled<Drawing>
    ensures drawing { result ≡ drawing_of system black white word length }
    ensures order { IfOk result (λ drawing. drawing.setup.levels.black < drawing.setup.levels.white) }
    ensures word { IfOk result (λ drawing. IsWordOrNone drawing.word) }
{
    let setup = line_setup(system, black, white, length)?;
    let word = word_or_none(word)?;
    Ok(Drawing { setup, word })
}

/// Writes the samples of a line that shows the word, or of a blank line for 0, into `ldvbi_line_bytes(system)` bytes:
/// two for each sample, the low one first. The line is read as the word, in the first pass.
#[unsafe(no_mangle)]
#[tactic(auto, using(crate::proofs::Drawn::reads_drawn))]
pub extern "C" fn ldvbi_draw_line(
    system: u32,
    black: u32,
    white: u32,
    word: u32,
    bytes: &mut [u8],
) -> u32
    ensures draws { Answers (drawing_of system black white word (length bytes.old)) result
        (λ drawing. (bytes.new ≡ drawn_line_of drawing.setup.system drawing.setup.levels drawing.word)
        × (line_reading drawing.setup bytes.new ≡ reading_for_c (drawn_reading drawing.word)))
        (bytes.new ≡ bytes.old) }
{
    let Drawing { setup, word } = settled!(drawing_of(system, black, white, word, bytes.len()));
    draw_line(setup.system, setup.levels, word, bytes);
    DONE
}
