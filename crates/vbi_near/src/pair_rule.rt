//! The words that lines 17 and 18 say if both are open: together, or each for itself.
//!
//! How the two stand to each other takes the nearest words of each and of both together (word_rule.rt), and most pairs
//! of lines without a word have none that is said, however they stand. So `pair_said` first asks for what may be said,
//! and for all nearest words only if something may (silence.rt). Levelled rows are asked as others are, on the levels
//! of levelled lines: `levelled_said`.

ghost use Rattle.std.specs.Prelude.{None, IsTrue};
ghost use Rattle.vbi_near.specs.Candidates.{HasNearIf, given_line, given_pair};
ghost use Rattle.vbi_near.specs.PairRule.{HaveNear, HaveLevelled, SayInPair};
ghost use Rattle.vbi_near.specs.{declared.word_rule.PairNears.PairNears, Lines.row_in, Lines.line_in, Common.unit_of};
ghost use Rattle.vbi_near.specs.{LevelledLines.levelled_unit, Margins.levelled_margins, Silence.HasNearIfUnlessSilent};

use crate::candidates::{
    are_alike, as_levelled, both_unless_silent, level_row, near_of_one, near_of_two,
    near_unless_silent,
};
use crate::levelled_lines::is_swing;
use crate::lines::{Line, Pair};
use crate::margins::{LEVELLED, MarginSet, Margins, unit_of};
use crate::near::{Nears, WIDEST};
use crate::word_rule::{PairNears, said_by_pair};
use vbi_words::Word24;

/// Which nearest words two lines may have: line 17, line 18, and both together.
#[derive(Clone, Copy)]
pub(crate) struct AskedLines {
    pub(crate) second: bool,
    pub(crate) third: bool,
    pub(crate) both: bool,
}

/// The nearest words of one line, if it may have them.
fn near_if(can: bool, line: &Line) -> Option<Nears>
    ensures { HasNearIf (given_line (line_in line.now)) can result }
{
    if can { Some(near_of_one(line)) } else { None }
}

/// Whether one line says nothing by these margins, or may have no nearest words.
fn is_silent(can: bool, line: &Line, margins: &Margins) -> bool
    ensures { IsTrue result → HasNearIfUnlessSilent margins.now 1 (given_line (line_in line.now)) can None }
{
    !can || near_unless_silent(line, margins).is_none()
}

/// The nearest words of two lines together, if they may have them and say something by these margins.
fn both_if(can: bool, pair: &Pair, margins: &Margins) -> Option<Nears>
    ensures { HasNearIfUnlessSilent margins.now 2 (given_pair (line_in pair.now.second) (row_in pair.now.third)) can
        result }
{
    if can {
        both_unless_silent(pair, margins)
    } else {
        None
    }
}

/// The nearest words of two lines together, if they may have them: those that were found, or else they are searched.
fn both_in_any_case(
    can: bool,
    pair: &Pair,
    margins: &Margins,
    found: Option<Nears>,
) -> Option<Nears>
    requires { HasNearIfUnlessSilent margins.now 2 (given_pair (line_in pair.now.second) (row_in pair.now.third)) can
        found }
    ensures { HasNearIf (given_pair (line_in pair.now.second) (row_in pair.now.third)) can result }
{
    match found {
        Some(near) => Some(near),
        None if can => Some(near_of_two(pair)),
        None => None,
    }
}

/// The words that lines 17 and 18 say by these margins.
pub(crate) fn pair_said(
    margins: &MarginSet,
    asked: AskedLines,
    pair: &Pair,
) -> (Option<Word24>, Option<Word24>)
    ensures { (near : PairNears) → HaveNear (line_in pair.now.second) (line_in pair.now.third) asked near
        → SayInPair margins.now (unit_of pair.now.second.levels) near result }
{
    let both = both_if(asked.both, pair, &margins.both);
    if both.is_none()
        && is_silent(asked.second, &pair.second, &margins.apart)
        && is_silent(asked.third, &pair.third, &margins.apart)
    {
        return (None, None);
    }
    let near = PairNears {
        second: near_if(asked.second, &pair.second),
        third: near_if(asked.third, &pair.third),
        both: both_in_any_case(asked.both, pair, &margins.both, both),
    };
    said_by_pair(margins, unit_of(pair.second.levels), &near)
}

/// The words that lines 17 and 18 say levelled, each if it swings as one with a word does, and together if both swing
/// alike.
pub(crate) fn levelled_said(pair: &Pair) -> (Option<Word24>, Option<Word24>)
    ensures { (near : PairNears) → HaveLevelled (line_in pair.now.second) (line_in pair.now.third) near
        → SayInPair levelled_margins levelled_unit near result }
{
    let mut buffer = [0; 2 * WIDEST];
    let mut other_buffer = [0; 2 * WIDEST];
    let second = &pair.second;
    let third = &pair.third;
    let bytes = &mut buffer[..second.bytes.len()];
    let other_bytes = &mut other_buffer[..third.bytes.len()];
    let swing = level_row(second, bytes);
    let other_swing = level_row(third, other_bytes);
    let unit = unit_of(second.levels);
    let asked = AskedLines {
        second: is_swing(unit, swing),
        third: is_swing(unit, other_swing),
        both: are_alike(unit, swing, other_swing),
    };
    let levelled = Pair {
        second: as_levelled(second.system, second.number, bytes, second.erased),
        third: as_levelled(third.system, third.number, other_bytes, third.erased),
    };
    pair_said(&LEVELLED, asked, &levelled)
}
