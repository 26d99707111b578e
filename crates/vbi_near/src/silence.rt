//! Lines that say nothing, known before their nearest code is.
//!
//! Most lines of noise or of a picture have a nearest word that isn't clear, and seeking their nearest code takes as
//! long as all the rest. But a code is said only if it is close: hardly farther than the nearest word (word_rule.rt).
//! So the starts are gone over once before, and none is looked at whose bound is beyond that limit: of noise few are
//! left. If no code is within the limit, or the nearest one isn't far enough ahead of another, no code is said,
//! whatever the search of all starts would find. Noise often has a code within the limit, but then it has several.

ghost use Rattle.std.specs.Prelude.{◌≡◌, ◌≤◌, false, length, List, IsTrue};
ghost use Rattle.vbi_near.specs.Common.{Slicing, starts, Samples, Shades, unit_of};
ghost use Rattle.vbi_near.specs.Rows.{IsRowOf, IsNearCode};
ghost use Rattle.vbi_near.specs.Silence.{says_word, IsLeadWithin, StandsFor, IsUnsaid, HasNearUnlessSilent};
ghost use Rattle.vbi_near.specs.{Candidates.some_lines, WordRule.close_limit, LineSearch.IsSought};

use crate::codes::{none, with_start, with_start_by};
use crate::line_search::LineSearch;
use crate::margins::Margins;
use crate::near::{Near, Nears, code_or_none};
use crate::word_rule::{close_limit, is_ahead, is_clear};
use crate::word_search::Found;

/// By what some lines say their nearest word or code.
#[derive(Clone, Copy)]
pub(crate) struct Terms<'a> {
    /// How far white is from black.
    pub(crate) unit: u32,
    /// By how much it has to be ahead.
    pub(crate) margins: &'a Margins,
    /// How many lines there are.
    pub(crate) lines: u32,
    ghost few: { lines ≤ 28 },
}

/// The nearest code among those that begin at the first start, or where a word may be within a limit; or none.
fn nearest_within(sought: &LineSearch, line: u32, limit: u64) -> Found
    ensures { IsLeadWithin sought.now.sums line limit (starts sought.now.sums.system) result }
{
    let sums = &sought.sums;
    let mut best = with_start(sums, line, sought.first, none(sums));
    for start in 0..sought.bounds.len() {
        let bound = sought.bounds[start];
        if u64::from(bound) <= limit {
            best = with_start_by(sums, line, start, bound, best);
        }
    }
    best
}

/// Whether the nearest word of some lines is said if no code is.
fn says_word(sought: &LineSearch, terms: &Terms) -> bool
    ensures { result ≡ says_word terms.now.unit terms.now.margins.now terms.now.lines sought.now.word }
{
    let margins = terms.margins;
    sought.word.near.word.is_some()
        && is_clear(
            terms.unit,
            margins.other,
            margins.ends,
            terms.lines,
            &sought.word,
        )
}

/// Whether the nearest code of lines of this number may be said: whether it is close enough, and ahead of the others.
fn may_say_code(sought: &LineSearch, number: u32, terms: &Terms) -> bool
    ensures { result ≡ false → IsUnsaid sought.now.sums number terms.now.unit terms.now.margins.now.code.columns
        (close_limit terms.now.unit sought.now.word.near) }
{
    let limit = close_limit(terms.unit, &sought.word.near);
    let found = nearest_within(sought, number, limit);
    let code = code_or_none(found, 0, 0);
    code.word.is_some()
        && u64::from(code.distance) <= limit
        && is_ahead(terms.unit, terms.margins.code.columns, &code)
}

/// Whether lines of this number say neither their nearest word nor a code.
fn is_silent(sought: &LineSearch, number: u32, terms: &Terms) -> bool
    ensures word { IsTrue result → says_word terms.now.unit terms.now.margins.now terms.now.lines sought.now.word
        ≡ false }
    ensures code { IsTrue result → IsUnsaid sought.now.sums number terms.now.unit terms.now.margins.now.code.columns
        (close_limit terms.now.unit sought.now.word.near) }
{
    !says_word(sought, terms) && !may_say_code(sought, number, terms)
}

/// The nearest word of some lines, and the nearest of the codes that may stand on a line of this number, or none if
/// they say nothing.
#[tactic(auto, using(crate::proofs::Unsaid::silent))]
pub(crate) fn nears_if(sought: &LineSearch, number: u32, terms: &Terms) -> Option<Nears>
    requires { IsSought sought.now }
    ensures { (slicing : Slicing) (lines : List Samples) (costs : Shades)
        → terms.now.unit ≡ unit_of slicing → IsRowOf sought.now.sums slicing lines costs
        → HasNearUnlessSilent terms.now.margins.now terms.now.lines
        (some_lines sought.now.sums.system number slicing lines) result }
{
    if is_silent(sought, number, terms) {
        None
    } else {
        Some(sought.nears(number))
    }
}
