//! The word that lines say together which all have one word, or none.

ghost use Rattle.std.specs.Prelude.{◌≡◌, ◌*◌, ◌≤◌, ◌-◌, length, map};
ghost use Rattle.std.specs.List.{list_all};
ghost use Rattle.vbi_near.specs.Candidates.{HasNear, HasNearIf, are_alike_by, given_samples, levelled_samples};
ghost use Rattle.vbi_near.specs.Candidates.{some_lines};
ghost use Rattle.vbi_near.specs.PileRule.{pile_margins, swing_alike, are_all_alike, IsSaidTogether, rows_in};
ghost use Rattle.vbi_near.specs.{Common.line_bytes, Common.width_of, LevelledLines.levelled_slicing, Lines.rows_of};

use crate::candidates::{are_alike, level_row};
use crate::levelled_lines::{LEVELLED_UNIT, levelled_levels};
use crate::lines::Rows;
use crate::margins::{Margin, Margins, unit_of};
use crate::near::{Nears, WIDEST};
use crate::pile::Pile;
use crate::word_rule::recovered_by;
use vbi_words::{Levels, System, Word24};

/// This many lines at most: the sums of more could pass 32 bits.
const MOST_LINES: usize = 28;

/// By how much the nearest word has to be ahead, by whether the erased columns are known. If they are, no dropout is
/// left in what is summed up, and a code needs the 4 columns that it needs on one line. Else a dropout at one place of
/// all lines may turn a code into another one, so it needs as many as any other word, 8. What such a dropout says grows
/// with the number of lines, and so do the shares.
fn pile_margins(known: bool) -> Margins
    ensures { result ≡ pile_margins known }
{
    Margins {
        code: Margin {
            columns: if known { 4 } else { 8 },
            share: 4,
        },
        other: Margin {
            columns: 8,
            share: 3,
        },
        ends: 4,
    }
}

/// Whether a line that swings so may be levelled together with each of others.
fn is_like_each(unit: u32, swing: u32, swings: &[u32]) -> bool
    ensures { result ≡ list_all (are_alike_by unit swing) swings.now }
{
    swings.iter().all(|other| are_alike(unit, swing, *other))
}

/// Whether lines that swing so may be levelled together.
fn swing_alike(unit: u32, swings: &[u32]) -> bool
    ensures { result ≡ swing_alike unit swings.now }
{
    swings
        .iter()
        .all(|swing| is_like_each(unit, *swing, swings))
}

/// The nearest ones of lines that have one word.
fn near_of_all(number: u32, rows: &Rows) -> Nears
    requires { rows.now.count ≤ 28 }
    ensures { HasNear (some_lines rows.now.system number rows.now.levels (map given_samples (rows_of rows.now)))
        result }
{
    let mut darks = [0; WIDEST];
    let mut lights = [0; WIDEST];
    let mut pile = Pile::new(rows.system, rows.levels, &mut darks, &mut lights);
    for line in 0..rows.count {
        let row = rows.line(number, line);
        pile.add(row.bytes, row.erased);
    }
    pile.nears(number)
}

/// The nearest ones of lines levelled, if these may be levelled together.
fn levelled_near_of_all(number: u32, rows: &Rows) -> Option<Nears>
    requires { rows.now.count ≤ 28 }
    ensures { HasNearIf (some_lines rows.now.system number levelled_slicing
        (map (levelled_samples rows.now.system rows.now.levels) (rows_of rows.now)))
        (are_all_alike rows.now.system rows.now.levels (rows_of rows.now)) result }
{
    let mut swings = [0; MOST_LINES];
    let mut buffer = [0; 2 * WIDEST];
    let levelled = &mut buffer[..rows.system.line_bytes()];
    let mut darks = [0; WIDEST];
    let mut lights = [0; WIDEST];
    let mut pile = Pile::new(rows.system, levelled_levels(), &mut darks, &mut lights);
    for line in 0..rows.count {
        let row = rows.line(number, line);
        swings[line] = level_row(&row, levelled);
        pile.add(levelled, row.erased);
    }
    if swing_alike(unit_of(rows.levels), &swings[..rows.count]) {
        Some(pile.nears(number))
    } else {
        None
    }
}

/// The word that some lines of this number, all with one word, say together, or none. Their samples lie one line after
/// the other, as do the marks of their erased columns. If these are known, a code may be less far ahead.
pub fn recover_pile(
    system: System,
    number: u32,
    levels: Levels,
    known: bool,
    lines: &[u8],
    erased: &[bool],
    count: usize,
) -> Option<Word24>
    requires few { count ≤ 28 }
    requires lines { length lines.now ≡ count * line_bytes system }
    requires erased { length erased.now ≡ count * width_of system }
    ensures { IsSaidTogether system number levels known (rows_in system lines.now erased.now count) result }
{
    let unit = unit_of(levels);
    let rows = Rows {
        system,
        levels,
        bytes: lines,
        erased,
        count,
    };
    let levelled = levelled_near_of_all(number, &rows);
    let given = near_of_all(number, &rows);
    let margins = pile_margins(known);
    let first = recovered_by(LEVELLED_UNIT, &margins, count as u32, levelled);
    let second = recovered_by(unit, &margins, count as u32, Some(given));
    first.or(second)
}
