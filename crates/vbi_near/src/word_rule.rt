//! What the nearest words of lines say: by how much they have to be ahead, and whether lines 17 and 18 agree.
//!
//! A nearest word is said if it is clear (`is_clear`): any other row is farther by some columns (`is_ahead`) and by a
//! share of what the word's cells count (`is_ahead_by`), the signal neither goes on beyond the word (`goes_on`) nor has
//! fewer cells (`is_cut`), and each half of the word counts (`is_whole`). A code that may stand on the line is asked
//! first, and is compared with other codes alone (`said_of`). Lines 17 and 18 of most fields have one word: `do_agree`
//! tells whether these two do, and `said_in` by which margins they speak then. A picture number of 80,000 or more that
//! is said is never recovered (`unless_beyond`), but confirms a word of pass 2 (line_rule.rt).
//!
//! margins.rt has by how much a word has to be ahead. specs/WordRule.antt has the same rule, and rule_laws.rt has words
//! at its limits. CONTRIBUTING.md says what else changes with it.

ghost use Rattle.std.specs.Prelude.{◌≡◌, ◌*◌, ◌^◌, ◌≤◌, ◌<◌};
ghost use Rattle.vbi_near.specs.WordRule.{is_ahead, is_ahead_by, goes_on, is_cut, is_whole, is_clear, close_limit};
ghost use Rattle.vbi_near.specs.WordRule.{is_close, said_of, said_if, is_said, is_same, is_one, is_borne};
ghost use Rattle.vbi_near.specs.WordRule.{have_word, have_code, have_one, do_agree, may_agree, stand_of, said_in};
ghost use Rattle.vbi_near.specs.WordRule.{unless_beyond, recovered_by};
ghost use Rattle.vbi_near.specs.{LineCodes.is_beyond_79999, PairRule.SayInPair};

use crate::margins::{Margin, MarginSet, Margins};
use crate::near::{Near, Nears};
use vbi_words::{Word24, digit};

/// The nearest words of line 17, of line 18, and of both together.
#[derive(Clone, Copy)]
pub(crate) struct PairNears {
    pub(crate) second: Option<Nears>,
    pub(crate) third: Option<Nears>,
    pub(crate) both: Option<Nears>,
}

/// How lines 17 and 18 stand to each other.
#[derive(Clone, Copy)]
pub enum Agreement {
    /// One of them, or both, need no nearest word.
    Alone,
    /// Their nearest words don't agree.
    Apart,
    /// They agree.
    Together,
}

/// Whether any other word is farther by this many columns.
pub(crate) fn is_ahead(unit: u32, columns: u32, near: &Near) -> bool
    ensures { result ≡ is_ahead unit columns near.now }
{
    u64::from(near.distance) + u64::from(columns) * u64::from(unit) <= u64::from(near.rival)
}

/// Whether any other word is farther by such a share of how much nearer the word is than none, which is this far.
fn is_ahead_by(share: u8, blank: u32, near: &Near) -> bool
    ensures { result ≡ is_ahead_by share blank near.now }
{
    let share = u64::from(share);
    let distance = u64::from(near.distance);
    let rival = u64::from(near.rival);
    288 * distance + share * u64::from(blank) <= 288 * rival + share * distance
}

/// How much so many columns in each of this many lines count.
fn columns_of_each(unit: u32, columns: u8, lines: u32) -> u64
    requires { lines ≤ 28 }
    ensures value { result ≡ columns * lines * unit }
    ensures range { result < 2 ^ 45 }
{
    let columns = u32::from(columns) * lines;
    u64::from(columns) * u64::from(unit)
}

/// Whether the signal of this many lines goes on beyond the word: by more than so many columns a line, since noise
/// alone makes one more cell somewhat nearer.
fn goes_on(unit: u32, ends: u8, lines: u32, near: &Near) -> bool
    requires { lines ≤ 28 }
    ensures { result ≡ goes_on unit ends lines near.now }
{
    u64::from(near.longer) + columns_of_each(unit, ends, lines) < u64::from(near.distance)
}

/// Whether the signal of this many lines has fewer cells than the word, by more than so many columns a line.
fn is_cut(unit: u32, ends: u8, lines: u32, near: &Near) -> bool
    requires { lines ≤ 28 }
    ensures { result ≡ is_cut unit ends lines near.now }
{
    u64::from(near.shorter) + columns_of_each(unit, ends, lines) < u64::from(near.distance)
}

/// Whether each half of the word counts in lines that are so far from none, and from the nearer row of half of it: a
/// half counts half of the whole if nothing is lost, and a quarter is enough.
fn is_whole(blank: u32, halved: u32, near: &Near) -> bool
    ensures { result ≡ is_whole blank halved near.now }
{
    let distance = u64::from(near.distance);
    4 * distance + u64::from(blank) <= 4 * u64::from(halved) + distance
}

/// A nearest word or code, or none, and how far the lines are from the row of no word, and from the nearer row of half
/// of it.
#[derive(Clone, Copy)]
pub(crate) struct Nearest {
    pub(crate) near: Near,
    pub(crate) blank: u32,
    pub(crate) halved: u32,
}

/// Whether the signal of this many lines begins and ends with the word and has both halves of it, and any other is
/// farther by this margin.
pub(crate) fn is_clear(unit: u32, margin: Margin, ends: u8, lines: u32, word: &Nearest) -> bool
    requires { lines ≤ 28 }
    ensures { result ≡ is_clear unit margin ends lines word.now }
{
    is_ahead(unit, margin.columns, &word.near)
        && is_ahead_by(margin.share, word.blank, &word.near)
        && !goes_on(unit, ends, lines, &word.near)
        && !is_cut(unit, ends, lines, &word.near)
        && is_whole(word.blank, word.halved, &word.near)
}

/// How far a code may be if this is the nearest word: by three columns farther. Any margin of a code is more, so if a
/// code is said, no other one is within the limit.
pub(crate) fn close_limit(unit: u32, word: &Near) -> u64
    ensures { result ≡ close_limit unit word.now }
{
    u64::from(word.distance) + 3 * u64::from(unit)
}

/// Whether no word is nearer than the nearest code by more than three columns.
fn is_close(unit: u32, near: &Nears) -> bool
    ensures { result ≡ is_close unit near.now }
{
    u64::from(near.code.distance) <= close_limit(unit, &near.word)
}

/// The word that this many lines say, if these are their nearest word and their nearest code.
pub(crate) fn said_of(unit: u32, margins: &Margins, lines: u32, near: &Nears) -> Option<Word24>
    requires { lines ≤ 28 }
    ensures { result ≡ said_of unit margins.now lines near.now }
{
    let code = Nearest {
        near: near.code,
        blank: near.blank,
        halved: near.code_halved,
    };
    let word = Nearest {
        near: near.word,
        blank: near.blank,
        halved: near.word_halved,
    };
    if near.code.word.is_some()
        && is_close(unit, near)
        && is_clear(unit, margins.code, margins.ends, lines, &code)
    {
        near.code.word
    } else if is_clear(unit, margins.other, margins.ends, lines, &word) {
        near.word.word
    } else {
        None
    }
}

/// The word that this many lines say, if they have a nearest word and a nearest code.
pub(crate) fn said_if(
    unit: u32,
    margins: &Margins,
    lines: u32,
    near: Option<Nears>,
) -> Option<Word24>
    requires { lines ≤ 28 }
    ensures { result ≡ said_if unit margins.now lines near }
{
    match near {
        Some(near) => said_of(unit, margins, lines, &near),
        None => None,
    }
}

/// Whether a word is that of a picture number of 80,000 or more, the top bit of its first digit counted.
fn is_beyond_79999(word: Word24) -> bool
    ensures { result ≡ is_beyond_79999 word }
{
    let word = word.value();
    digit(word, 1) == 15
        && digit(word, 2) >= 8
        && digit(word, 3) <= 9
        && digit(word, 4) <= 9
        && digit(word, 5) <= 9
        && digit(word, 6) <= 9
}

/// What is said, but no picture number of 80,000 or more.
pub(crate) fn unless_beyond(said: Option<Word24>) -> Option<Word24>
    ensures { result ≡ unless_beyond said }
{
    match said {
        Some(word) if is_beyond_79999(word) => None,
        _ => said,
    }
}

/// The word that is recovered of what this many lines say, if they have a nearest word and a nearest code.
pub(crate) fn recovered_by(
    unit: u32,
    margins: &Margins,
    lines: u32,
    near: Option<Nears>,
) -> Option<Word24>
    requires { lines ≤ 28 }
    ensures { result ≡ recovered_by unit margins.now lines near }
{
    unless_beyond(said_if(unit, margins, lines, near))
}

/// Whether this word is said.
pub(crate) fn is_said(word: Word24, said: Option<Word24>) -> bool
    ensures { result ≡ is_said word said }
{
    said == Some(word)
}

/// Whether both are the same word.
fn is_same(word: Option<Word24>, other: Option<Word24>) -> bool
    ensures { result ≡ is_same word other }
{
    word.is_some() && word == other
}

/// Whether two lines have one word, by that of each and that of both: it is the same, or the common one is little
/// farther. 30 columns are somewhat more than what a cell counts: 20 columns in NTSC and 25 in PAL, without noise.
fn is_one(unit: u32, second: &Near, third: &Near, both: &Near) -> bool
    ensures { result ≡ is_one unit second.now third.now both.now }
{
    let sum = u64::from(second.distance) + u64::from(third.distance);
    is_same(second.word, third.word) || u64::from(both.distance) <= sum + 30 * u64::from(unit)
}

/// Whether the common word is nearer to two lines than the word of the one to that, and none to the other, which is
/// this far: a line of noise agrees with any word beside it. 20 columns are what a cell counts in NTSC, without noise.
fn is_borne(unit: u32, near: &Near, blank: u32, both: &Near) -> bool
    ensures { result ≡ is_borne unit near.now blank both.now }
{
    let both = *both;
    let apart = u64::from(near.distance) + u64::from(blank);
    u64::from(both.distance) + 20 * u64::from(unit) <= apart
}

/// Whether two lines have one word that each of them bears, by their nearest words.
fn have_word(unit: u32, second: &Nears, third: &Nears, both: &Nears) -> bool
    ensures { result ≡ have_word unit second.now third.now both.now }
{
    is_one(unit, &second.word, &third.word, &both.word)
        && is_borne(unit, &second.word, third.blank, &both.word)
        && is_borne(unit, &third.word, second.blank, &both.word)
}

/// Whether two lines have one code that each of them bears, by their nearest codes.
fn have_code(unit: u32, second: &Nears, third: &Nears, both: &Nears) -> bool
    ensures { result ≡ have_code unit second.now third.now both.now }
{
    is_one(unit, &second.code, &third.code, &both.code)
        && is_borne(unit, &second.code, third.blank, &both.code)
        && is_borne(unit, &third.code, second.blank, &both.code)
}

/// Whether two lines have one word that each of them bears.
fn have_one(unit: u32, second: &Nears, third: &Nears, both: &Nears) -> bool
    ensures { result ≡ have_one unit second.now third.now both.now }
{
    have_word(unit, second, third, both) || have_code(unit, second, third, both)
}

/// Whether two lines agree: they have one word, and not each of them goes on beyond its own.
fn do_agree(unit: u32, ends: u8, second: &Nears, third: &Nears, both: &Nears) -> bool
    ensures { result ≡ do_agree unit ends second.now third.now both.now }
{
    have_one(unit, second, third, both)
        && !(goes_on(unit, ends, 1, &second.word) && goes_on(unit, ends, 1, &third.word))
}

/// Whether two lines agree, if each has a nearest word, and both together.
fn may_agree(unit: u32, ends: u8, near: &PairNears) -> bool
    ensures { result ≡ may_agree unit ends near.now.second near.now.third near.now.both }
{
    match (near.second, near.third, near.both) {
        (Some(second), Some(third), Some(both)) => do_agree(unit, ends, &second, &third, &both),
        _ => false,
    }
}

/// How two open lines stand to each other.
fn stand_of(margins: &MarginSet, unit: u32, near: &PairNears) -> Agreement
    ensures { result ≡ stand_of margins.now unit near.now }
{
    if may_agree(unit, margins.lone.ends, near) {
        Agreement::Together
    } else {
        Agreement::Apart
    }
}

/// The word that an open line says by its nearest word, or by that of lines 17 and 18 together.
fn said_in(
    margins: &MarginSet,
    stand: Agreement,
    unit: u32,
    near: Option<Nears>,
    both: Option<Nears>,
) -> Option<Word24>
    ensures { result ≡ said_in margins.now stand unit near both }
{
    match stand {
        Agreement::Alone => recovered_by(unit, &margins.lone, 1, near),
        Agreement::Apart => recovered_by(unit, &margins.apart, 1, near),
        Agreement::Together => recovered_by(unit, &margins.both, 2, both),
    }
}

/// The words that two open lines say by their nearest words and by those of both together.
pub(crate) fn said_by_pair(
    margins: &MarginSet,
    unit: u32,
    near: &PairNears,
) -> (Option<Word24>, Option<Word24>)
    ensures { SayInPair margins.now unit near.now result }
{
    let stand = stand_of(margins, unit, near);
    (
        said_in(margins, stand, unit, near.second, near.both),
        said_in(margins, stand, unit, near.third, near.both),
    )
}
