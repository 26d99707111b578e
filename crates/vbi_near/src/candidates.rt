//! The words that lines may have: those that are nearest to their samples, as they are and levelled.
//!
//! `near_of_one` and `near_of_two` search them in any case, `near_unless_silent` and `both_unless_silent` only if lines
//! may say one by some margins (silence.rt). A levelled row is searched as any other, on the levels of levelled lines.

ghost use Rattle.std.specs.Prelude.{◌≡◌, ◌∷◌, [], length, replicate, IsTrue};
ghost use Rattle.vbi_near.specs.Common.{line_bytes, width_of, samples_of};
ghost use Rattle.vbi_near.specs.Candidates.{HasNear, given_line, given_pair, given_samples, filled_samples, swing_in};
ghost use Rattle.vbi_near.specs.Candidates.{has_swing, are_alike_by, row_of, line_of};
ghost use Rattle.vbi_near.specs.{Lines.row_in, Lines.line_in, LevelledLines.levelled, LevelledLines.levelled_slicing};
ghost use Rattle.vbi_near.specs.{Pile.IsPileOf, Silence.HasNearUnlessSilent, StretchedCells.IsStretched};

use crate::levelled_lines::{Summed, fill, is_swing, level, levelled_levels, sum_samples, swing};
use crate::lines::{Line, Pair};
use crate::margins::{Margins, unit_of};
use crate::near::{Nears, WIDEST};
use crate::pile::Pile;
use vbi_words::{System, Word24};

/// One line, with room for what its columns cost.
fn pile_of_one<'a>(
    line: &Line,
    darks: &'a mut [u32; WIDEST],
    lights: &'a mut [u32; WIDEST],
) -> Pile<'a>
    requires { (darks.old ≡ replicate 1135 0) × (lights.old ≡ replicate 1135 0) }
    ensures pile { IsPileOf line.now.system line.now.levels (given_samples (row_in line.now) ∷ []) result }
    ensures one { result.count ≡ 1 }
{
    let mut pile = Pile::new(line.system, line.levels, darks, lights);
    pile.add(line.bytes, line.erased);
    pile
}

/// Two lines that have one word, with room for what their columns cost.
fn pile_of_two<'a>(
    pair: &Pair,
    darks: &'a mut [u32; WIDEST],
    lights: &'a mut [u32; WIDEST],
) -> Pile<'a>
    requires { (darks.old ≡ replicate 1135 0) × (lights.old ≡ replicate 1135 0) }
    ensures pile { IsPileOf pair.now.second.system pair.now.second.levels
        (given_samples (row_in pair.now.second) ∷ given_samples (row_in pair.now.third) ∷ []) result }
    ensures two { result.count ≡ 2 }
{
    let mut pile = Pile::new(pair.second.system, pair.second.levels, darks, lights);
    pile.add(pair.second.bytes, pair.second.erased);
    pile.add(pair.third.bytes, pair.third.erased);
    pile
}

/// The nearest word and code of one line.
pub(crate) fn near_of_one(line: &Line) -> Nears
    ensures { HasNear (given_line (line_in line.now)) result }
{
    let mut darks = [0; WIDEST];
    let mut lights = [0; WIDEST];
    pile_of_one(line, &mut darks, &mut lights).nears(line.number)
}

/// The nearest word and code of one line, or none if it says nothing by these margins.
pub(crate) fn near_unless_silent(line: &Line, margins: &Margins) -> Option<Nears>
    ensures { HasNearUnlessSilent margins.now 1 (given_line (line_in line.now)) result }
{
    let mut darks = [0; WIDEST];
    let mut lights = [0; WIDEST];
    pile_of_one(line, &mut darks, &mut lights).nears_if(line.number, margins)
}

/// The nearest word and code of lines 17 and 18, if both have one word.
pub(crate) fn near_of_two(pair: &Pair) -> Nears
    ensures { HasNear (given_pair (line_in pair.now.second) (row_in pair.now.third)) result }
{
    let mut darks = [0; WIDEST];
    let mut lights = [0; WIDEST];
    pile_of_two(pair, &mut darks, &mut lights).nears(pair.second.number)
}

/// The nearest word and code of lines 17 and 18, if both have one word, or none if the two say nothing together by
/// these margins.
pub(crate) fn both_unless_silent(pair: &Pair, margins: &Margins) -> Option<Nears>
    ensures { HasNearUnlessSilent margins.now 2 (given_pair (line_in pair.now.second) (row_in pair.now.third)) result }
{
    let mut darks = [0; WIDEST];
    let mut lights = [0; WIDEST];
    pile_of_two(pair, &mut darks, &mut lights).nears_if(pair.second.number, margins)
}

/// How far a line is from the nearest row of this word on cells that are somewhat longer or shorter.
pub(crate) fn stretched_of_one(line: &Line, word: Word24) -> u32
    ensures { IsStretched line.now.system line.now.levels (given_samples (row_in line.now) ∷ []) word result }
{
    let mut darks = [0; WIDEST];
    let mut lights = [0; WIDEST];
    pile_of_one(line, &mut darks, &mut lights).stretched(word)
}

/// Levels a line, if it swings as one with a word does, and answers its swing.
pub(crate) fn level_row(line: &Line, out: &mut [u8]) -> u32
    requires { length out.old ≡ line_bytes line.now.system }
    ensures swing { result ≡ swing_in line.now.system line.now.levels (row_in line.now) }
    ensures levelled { IsTrue (has_swing line.now.system line.now.levels (row_in line.now))
        → samples_of out.new ≡ levelled line.now.system (filled_samples line.now.levels (row_in line.now)) }
    ensures long { length out.new ≡ length out.old }
{
    let mut buffer = [0; 2 * WIDEST];
    let whole = &mut buffer[..line.bytes.len()];
    fill(line.levels, line.bytes, line.erased, whole);
    let mut sums = [0; WIDEST + 1];
    sum_samples(line.system, whole, &mut sums);
    let summed = Summed {
        system: line.system,
        row: whole,
        sums: &sums,
    };
    let swing = swing(&summed);
    if is_swing(unit_of(line.levels), swing) {
        level(&summed, swing, out);
    }
    swing
}

/// A line of levelled samples, by their bytes and which of its columns are erased.
pub(crate) fn as_levelled<'a>(
    system: System,
    number: u32,
    bytes: &'a [u8],
    erased: &'a [bool],
) -> Line<'a>
    requires bytes { length bytes.now ≡ line_bytes system }
    requires erased { length erased.now ≡ width_of system }
    ensures { line_in result ≡ line_of system number levelled_slicing (row_of bytes.now erased.now) }
{
    let levels = levelled_levels();
    Line {
        system,
        number,
        levels,
        bytes,
        erased,
    }
}

/// Whether two lines that swing so may be levelled together: neither swings more than twice as much as the other.
/// Levelled lines count the same, and noise of a line that swings less would be made as much as the signal of the
/// other.
pub(crate) fn are_alike(unit: u32, swing: u32, other: u32) -> bool
    ensures { result ≡ are_alike_by unit swing other }
{
    is_swing(unit, swing)
        && is_swing(unit, other)
        && u64::from(swing) <= 2 * u64::from(other)
        && u64::from(other) <= 2 * u64::from(swing)
}
