//! The words of a field's three lines, by their readings and the words that they may have.
//!
//! `word_rule.rt` has what a nearest word says, `candidates.rt` finds the nearest words of a line and of two, as they
//! are and levelled (`levelled_lines.rt`), `line_rule.rt` has what a line says by itself, and `pair_rule.rt` what lines
//! 17 and 18 say. Here a line's reading and what it says become what it shows.
//!
//! What a line shows is decided in this order, and a change of the order changes what a field shows:
//!
//! 1. a word of pass 1 and a blank line stay (`own`);
//! 2. a word of pass 2 stays if the line says it by itself, or a somewhat stretched row confirms it (`own`);
//! 3. if lines 17 and 18 are both open now, they are asked together first (`shown_pair`);
//! 4. any other open line says its word alone (`shown_alone`).
//!
//! `rule_laws.rt` has worked rows of the rule. Whatever changes a word here changes the tables of docs/measured, too.
//!
//! Lines as they are are searched only if the levelled ones say no word; `line_rule.rt` says what contracts make of it.

ghost use Rattle.std.specs.Prelude.{◌≡◌, ℕ, ◌+◌, ◌*◌, ◌&&◌, List, ◌∷◌, [], length, IsTrue};
ghost use Rattle.vbi_near.specs.Common.{line_bytes, width_of, row_levels, reading_of, unit_of};
ghost use Rattle.vbi_near.specs.Candidates.{Candidates, AreOf, AreOfBoth};
ghost use Rattle.vbi_near.specs.Lines.{row_in, line_in};
ghost use Rattle.vbi_near.specs.Recovery.{Seen, own_of, is_open, are_open, stands_by, stands_of, said_by, recovered_as};
ghost use Rattle.vbi_near.specs.Recovery.{IsSeen, IsOwn, IsRecovered, IsKept, row_reading, alone, shown_in};

use crate::line_rule::{is_confirmed, recovered_alone};
use crate::lines::{Line, Pair, Rows};
use crate::margins::GIVEN;
use crate::pair_rule::{AskedLines, levelled_said, pair_said};
use vbi_line::{read_bytes_twice, read_packed, slice_bytes};
use vbi_words::{Levels, Outcome, Reading, System, Word24};

/// What a line is taken to show.
#[derive(Clone, Copy)]
pub struct Recovered {
    /// The word, or why the line's own levels show none.
    pub outcome: Outcome,
    /// 1 for a word of the line's own levels, 2 for one of the smoothed levels, 3 for the nearest word, 0 for no word.
    pub pass: u8,
}

/// What a line is taken to show by its own levels.
fn own(line: &Line) -> Recovered
    ensures { IsOwn (line_in line.now) result }
{
    let reading = &read_bytes_twice(line.bytes, line.system, line.levels);
    let read = Recovered {
        outcome: reading.outcome,
        pass: reading.pass,
    };
    let word = match reading.outcome {
        Outcome::Word(word) => word,
        _ => return read,
    };
    if reading.pass != 2 || is_confirmed(line, word) {
        return read;
    }
    Recovered {
        outcome: read_packed(
            &slice_bytes(line.bytes, line.system, line.levels),
            line.system,
        ),
        pass: 0,
    }
}

/// Whether a line has no word and isn't blank.
fn is_open(outcome: Outcome) -> bool
    ensures { result ≡ is_open outcome }
{
    match outcome {
        Outcome::Word(_) | Outcome::Blank => false,
        _ => true,
    }
}

/// The word said, as one of pass 3, else what the line showed.
fn recovered_as(own: Recovered, said: Option<Word24>) -> Recovered
    ensures { result ≡ recovered_as own said }
{
    match said {
        Some(word) => Recovered {
            outcome: Outcome::Word(word),
            pass: 3,
        },
        None => own,
    }
}

/// What a line shows that has no other beside it.
fn shown_alone(line: &Line, own: Recovered) -> Recovered
    requires { IsOwn (line_in line.now) own }
    ensures { (seen : Seen) (both : Candidates) → IsSeen (line_in line.now) seen
        → result ≡ shown_in alone (unit_of line.now.levels) seen both }
{
    if is_open(own.outcome) {
        recovered_as(own, recovered_alone(line))
    } else {
        own
    }
}

/// The words that lines 17 and 18 say if both are open. They are asked as they are only if one of them says none
/// levelled.
fn said_by_both(pair: &Pair) -> (Option<Word24>, Option<Word24>)
    ensures { (near again both : Candidates) → AreOf (line_in pair.now.second) near
        → AreOf (line_in pair.now.third) again
        → AreOfBoth (line_in pair.now.second) (row_in pair.now.third) both
        → let stands = stands_by (unit_of pair.now.second.levels) near again both in
        (result.0 ≡ said_by stands (unit_of pair.now.second.levels) near both)
        × (result.1 ≡ said_by stands (unit_of pair.now.second.levels) again both) }
{
    let said = levelled_said(pair);
    if said.0.is_some() && said.1.is_some() {
        return said;
    }
    let asked = AskedLines {
        second: true,
        third: true,
        both: true,
    };
    let given = pair_said(&GIVEN, asked, pair);
    (said.0.or(given.0), said.1.or(given.1))
}

/// What lines 17 and 18 show.
fn shown_pair(pair: &Pair) -> (Recovered, Recovered)
    ensures { (second third : Seen) (both : Candidates) → IsSeen (line_in pair.now.second) second
        → IsSeen (line_in pair.now.third) third
        → (IsTrue (are_open (unit_of pair.now.second.levels) second third)
        → AreOfBoth (line_in pair.now.second) (row_in pair.now.third) both)
        → let stands = stands_of (unit_of pair.now.second.levels) second third both in
        (result.0 ≡ shown_in stands (unit_of pair.now.second.levels) second both)
        × (result.1 ≡ shown_in stands (unit_of pair.now.second.levels) third both) }
{
    let own_second = own(&pair.second);
    let own_third = own(&pair.third);
    if is_open(own_second.outcome) && is_open(own_third.outcome) {
        let said = said_by_both(pair);
        return (
            recovered_as(own_second, said.0),
            recovered_as(own_third, said.1),
        );
    }
    (
        shown_alone(&pair.second, own_second),
        shown_alone(&pair.third, own_third),
    )
}

/// What lines 16, 17 and 18 of a field show, by the bytes of their rows, which lie one after the other, as do the
/// marks of their erased columns: those count for no nearest word.
pub fn recover_rows(system: System, levels: Levels, rows: &[u8], erased: &[bool]) -> [Recovered; 3]
    requires rows { length rows.now ≡ 3 * line_bytes system }
    requires erased { length erased.now ≡ 3 * width_of system }
    ensures recovered { IsRecovered system levels rows.now erased.now result }

    // A word of pass 1 is never touched, and a blank line stays blank.
    ensures kept { (first second third : Recovered) → result ≡ first ∷ second ∷ third ∷ []
        → IsKept (row_reading system levels rows.now 0) first × IsKept (row_reading system levels rows.now 1) second
        × IsKept (row_reading system levels rows.now 2) third }
{
    let rows = Rows {
        system,
        levels,
        bytes: rows,
        erased,
        count: 3,
    };
    let second = rows.line(17, 1);
    let third = rows.line(18, 2);
    let pair = Pair { second, third };
    let line = rows.line(16, 0);
    let first = shown_alone(&line, own(&line));
    let others = shown_pair(&pair);
    [first, others.0, others.1]
}
