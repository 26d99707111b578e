//! The straight way to a line's word, cell by cell, without a branch on whether a run is one half cell or two, which no
//! processor foresees. It finds the word of most lines that show one, and no cause.
//!
//! The middles of the cells are enough. In the middle of every cell the level changes, and the level after that change
//! is the cell's bit; where one cell ends and the next begins, the level may change or not:
//!
//! ```text
//!        middle       end         middle
//! .........############...........####    two runs of one half cell each, at most `half_max` columns long
//! .........#######################....    one run of two half cells, at least twice `half_min` columns long
//! ```
//!
//! Twice `half_min` is more than `half_max`. So the next middle is the first change that is more than `half_max`
//! columns away, in either case, and a change before that can only be the cell's end. `next_middle` looks for both in
//! the 64 columns after a middle, which is enough as two half cells have 44 at most, and then asks whether the lengths
//! are right. If there is one run, its two halves are the half cells. A glitch makes changes of its own, with which
//! the lengths come out wrong, and the answer is `None`.
//!
//! A word that is found here is proved to be the one that the line shows: `IsMiddle` says that the machine of
//! decoder.rt, after the columns up to a middle, is in the state `Second` with the same bits. That a word is found
//! isn't proved: `None` is a right answer to every line, and `find_outcome` (outcome.rt) then goes run by run. PAL
//! lines whose word begins so late that the middle of its last cell but one is past `LAST_WINDOW` are read that way
//! too.
//!
//! Tests hold each line's outcome against one that is written down, whichever way found it. Drawn words take this one,
//! lines with a cause the other, and so do the words at the very end of a PAL line (`EDGES` in `vbi_line_tests`), which
//! lie too late for this one. If it found no word any more, no check or test would fail: only `bench/lines.sh` would
//! tell.

ghost use Rattle.std.specs.Prelude.{◌≡◌, ℕ, ◌+◌, ◌*◌, ◌/◌, ◌^◌, ◌<◌, ◌≤◌, ◌⊎◌, [], ◌∷◌, ◌++◌, true, IfSome};
ghost use Rattle.vbi_words.specs.{Geometry.half_max, Levels.level_at, Outcomes.IsOutcome, Words.lowest_bits};
ghost use Rattle.vbi_words.specs.{declared.outcome.Outcome.TheVariants.Word};
ghost use Rattle.vbi_line.specs.{Packing.level_of_bit, Packing.EqualBits, Straight.IsMiddle, Straight.ReachesMiddle};

use crate::decoder::{with_bit, word_of};
use crate::packed::{LAST_WINDOW, Packed, equal_bits};
use vbi_words::{System, Word24};

/// The cells of a word before its last one.
const CELLS_BEFORE: u32 = 23;

/// The level of a word's lowest bit.
fn first_level(word: u64) -> bool
    ensures { result ≡ level_of_bit word 0 }
{
    word & 1 == 1
}

/// Where a cell ends whose middle is before the first column: after the first change of level if that is near, and
/// else in the middle of the columns up to the next.
fn cell_end(first: usize, columns: usize, most: usize) -> usize
    ensures { ((first ≤ most) × (result ≡ first)) ⊎ ((most < first) × (result ≡ columns / 2)) }
{
    if first <= most { first } else { columns / 2 }
}

/// How many columns there are from the middle of a cell to that of the next, by the levels of the columns after it.
/// `None`: the runs up to there aren't one half cell and another, or both in one run.
fn next_middle(window: u64, system: System) -> Option<usize>
    ensures { IfSome result (λ columns. ReachesMiddle system window columns) }
{
    let least = system.half_min();
    let most = system.half_max();
    // The bit of a column is set if the level changes after it. The next middle is the first change that is more
    // than the longest half cell away; a change before that is the cell's end.
    let changes = window ^ (window >> 1);
    let columns = most + 1 + equal_bits(changes, most, false);
    let first = 1 + equal_bits(changes, 0, false);
    let end = cell_end(first, columns, most);
    let rest = 1 + equal_bits(changes, end, false);
    if least <= end && end <= most && least <= rest && rest <= most && end + rest == columns {
        Some(columns)
    } else {
        None
    }
}

/// The middle of the first cell, after the lows before the word.
fn first_middle(packed: &Packed, system: System) -> Option<usize>
    ensures { IfSome result (λ column. IsMiddle system packed.now column (true ∷ [])
        × (level_at packed.now column ≡ true)) }
{
    if packed.width() == 0 || packed.level(0) {
        return None;
    }
    let column = packed.run_end(0, false);
    if column < system.half_min() || column == packed.width() {
        return None;
    }
    Some(column)
}

/// The middle of the last cell, and the bits of the cells before it.
fn last_middle(packed: &Packed, system: System, first: usize) -> Option<(usize, u32)>
    requires middle { IsMiddle system packed.now first (true ∷ []) }
    requires high { level_at packed.now first ≡ true }
    ensures { IfSome result (λ r. (r.1 < 2 ^ 23)
        × IsMiddle system packed.now r.0 (lowest_bits 23 r.1 ++ level_at packed.now r.0 ∷ [])) }
{
    let mut column = first;
    let mut cells: u32 = 0;
    let mut bits: u32 = 0;
    while cells < CELLS_BEFORE {
        // A word of PAL may go on from here, and is read run by run then.
        if column > LAST_WINDOW {
            return None;
        }
        let window = packed.window(column);
        let columns = next_middle(window, system)?;
        bits = with_bit(cells, bits, first_level(window));
        cells += 1;
        column += columns;
        if column >= packed.width() {
            return None;
        }
    }
    Some((column, bits))
}

/// The word of these bits, whose last cell has its middle at a column, if only lows follow that cell.
fn word_from(packed: &Packed, system: System, column: usize, bits: u32) -> Option<Word24>
    requires bits { bits < 2 ^ 24 }
    requires middle { IsMiddle system packed.now column (lowest_bits 24 bits) }
    ensures { IfSome result (λ w. IsOutcome system packed.now (Word w)) }
{
    let width = packed.width();
    let level = packed.level(column);
    let end = packed.run_end(column, level);
    let half = end - column;
    if half < system.half_min() {
        return None;
    }
    if end == width {
        return if level { None } else { Some(word_of(bits)) };
    }
    if level && half <= system.half_max() && packed.run_end(end, false) == width {
        Some(word_of(bits))
    } else {
        None
    }
}

/// The word of the levels, or `None`: they show none, or they do where this way doesn't lead.
pub(crate) fn straight_word(packed: &Packed, system: System) -> Option<Word24>
    ensures { IfSome result (λ w. IsOutcome system packed.now (Word w)) }
{
    let first = first_middle(packed, system)?;
    let (column, bits) = last_middle(packed, system, first)?;
    let word = with_bit(CELLS_BEFORE, bits, packed.level(column));
    word_from(packed, system, column, word)
}
