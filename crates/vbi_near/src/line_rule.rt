//! The word that a line says by itself, and which words of pass 2 its nearest words confirm.
//!
//! A search takes some microseconds, so one is made only if its answer counts: a line as it is is searched only if the
//! levelled one says no word, and codes only if one may be said (silence.rt). The contracts say that a call answers as
//! the definitions do by whatever nearest words the line has: there is one of each.

ghost use Rattle.std.specs.Prelude.{◌≡◌, ℕ, ◌∷◌, [], ◌||◌, Option, Some};
ghost use Rattle.vbi_near.specs.Margins.{levelled_margins, given_margins};
ghost use Rattle.vbi_near.specs.WordRule.{said_of, said_if, is_said};
ghost use Rattle.vbi_near.specs.Candidates.{Candidates, given_samples, given_line, levelled_line, has_swing, AreOf};
ghost use Rattle.vbi_near.specs.Candidates.{HasNear, HasNearIf};
ghost use Rattle.vbi_near.specs.Recovery.{recovered_alone, other_than, is_stretched, is_confirmed};
ghost use Rattle.vbi_near.specs.{declared.near.Nears.Nears, Lines.row_in, Lines.line_in, Common.unit_of};
ghost use Rattle.vbi_near.specs.{LevelledLines.levelled_unit, StretchedCells.IsStretched};

use crate::candidates::{
    as_levelled, level_row, near_of_one, near_unless_silent, stretched_of_one,
};
use crate::levelled_lines::is_swing;
use crate::lines::Line;
use crate::margins::{GIVEN, LEVELLED, Margins, unit_of};
use crate::near::{Near, Nears, WIDEST};
use crate::word_rule::{is_said, said_if, said_of, unless_beyond};
use vbi_words::Word24;

/// The word that a line says by these margins.
fn said_as(line: &Line, margins: &Margins) -> Option<Word24>
    ensures { (near : Nears) → HasNear (given_line (line_in line.now)) near
        → result ≡ said_of (unit_of line.now.levels) margins.now 1 near }
{
    let near = near_unless_silent(line, margins);
    said_if(unit_of(line.levels), margins, 1, near)
}

/// The word that a line says levelled, if it swings as one with a word does.
fn said_levelled(line: &Line) -> Option<Word24>
    ensures { (near : Option Nears) → HasNearIf (levelled_line (line_in line.now))
        (has_swing line.now.system line.now.levels (row_in line.now)) near
        → result ≡ said_if levelled_unit levelled_margins.lone 1 near }
{
    let mut buffer = [0; 2 * WIDEST];
    let bytes = &mut buffer[..line.bytes.len()];
    let swing = level_row(line, bytes);
    if !is_swing(unit_of(line.levels), swing) {
        return None;
    }
    let levelled = as_levelled(line.system, line.number, bytes, line.erased);
    said_as(&levelled, &LEVELLED.lone)
}

/// The word that is recovered of what a line says by itself. It is searched as it is only if it says none levelled.
pub(crate) fn recovered_alone(line: &Line) -> Option<Word24>
    ensures { (near : Candidates) → AreOf (line_in line.now) near
        → result ≡ recovered_alone (unit_of line.now.levels) near }
{
    let said = unless_beyond(said_levelled(line));
    if said.is_some() {
        return said;
    }
    unless_beyond(said_as(line, &GIVEN.lone))
}

/// How far a line is from the nearest row of any other word than this, or of none.
fn other_than(word: Word24, near: &Near) -> u32
    ensures { result ≡ other_than word near.now }
{
    if is_said(word, near.word) {
        near.rival
    } else {
        near.distance
    }
}

/// Whether a word on somewhat longer or shorter cells is ahead of any other word by eight columns, the margin of a word
/// that is no code on one line as it is (word_rule.rt).
fn is_stretched(unit: u32, stretched: u32, word: Word24, near: &Near) -> bool
    ensures { result ≡ is_stretched unit stretched word near.now }
{
    u64::from(stretched) + 8 * u64::from(unit) <= u64::from(other_than(word, near))
}

/// Whether a word of pass 2 is confirmed: the line says it by itself, or it is ahead on somewhat longer or shorter
/// cells.
pub(crate) fn is_confirmed(line: &Line, word: Word24) -> bool
    ensures { (near : Candidates) (stretched : ℕ) → AreOf (line_in line.now) near
        → IsStretched line.now.system line.now.levels (given_samples (row_in line.now) ∷ []) word stretched
        → result ≡ is_confirmed (unit_of line.now.levels) near stretched word }
{
    let unit = unit_of(line.levels);
    let levelled = said_levelled(line);
    if is_said(word, levelled) {
        return true;
    }
    let near = near_of_one(line);
    let is_given = levelled.is_none() && is_said(word, said_of(unit, &GIVEN.lone, 1, &near));
    let stretched = stretched_of_one(line, word);
    is_given || is_stretched(unit, stretched, word, &near.word)
}
