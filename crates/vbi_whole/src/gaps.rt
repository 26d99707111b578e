//! Where the numbers of a capture and its fields don't go on together.
//!
//! `find_gaps` is one pass over the answers. It holds the last believed number, how many fields stand since the last
//! end of a side, and what is told of the gaps so far (`Walk`; gaps_so_far.rt), and writes the gaps into the caller's
//! room as far as it goes; the tally counts those too for which there is no room. `neighbours_at` says of each field
//! which pair ends there, if one does, gap.rt what lies between the two, and detour.rt which gaps are a detour.
//!
//! clock_search.rt makes its pass with `neighbours_at` and `last_at`, and verdict.rt counts with `since_at`. What this
//! file tells is `IsTold` of `specs/Tallies.antt`; a change of what counts as an end changes ends.rt and
//! include/ldvbi.h too.

ghost use Rattle.std.specs.Prelude.{◌≡◌, ◌≢◌, ℕ, suc, ◌+◌, ◌*◌, ◌<◌, ◌≤◌, ◌^◌, length, slice_set, List, [], Bool};
ghost use Rattle.std.specs.Prelude.{Option, Some, None, IfSome, true};
ghost use Rattle.vbi_whole.specs.Gaps.{gap_of, skipped, ended_between, shown_between, AreNeighbours, IsFree, IsLast};
ghost use Rattle.vbi_whole.specs.{Types.Gap, Types.Clock, Types.Number, Types.Sightings, Tallies.IsTold};
ghost use Rattle.vbi_whole.specs.{Tallies.IsTelling};
ghost use Rattle.vbi_whole.specs.{Tallies.waiting, Tallies.stage_of, Gaps.is_end, Gaps.since_end, Gaps.judged_in};
ghost use Rattle.vbi_side.specs.{Numbers.IsMarked, Sightings.shows_between};

use crate::detour::Waiting;
use crate::gap::{Amid, Gap, Neighbours, between, skipped};
use crate::gaps_so_far::Telling;
use crate::side::Side;
use crate::tally::Tally;
use vbi_side::{Clock, LEAD_IN, LEAD_OUT, Number, Place, Sightings, believed_at};

/// How many fields between the two show a number between theirs, on both lines in pass 1.
fn shown_between(seen: &[Sightings], pair: Neighbours) -> u64
    requires { pair.there.field ≤ length seen.now }
    ensures { result ≡ shown_between seen.now pair.here pair.there }
{
    let between = &seen[pair.here.field + 1..pair.there.field];
    between
        .iter()
        .filter(|field| field.shows_between(pair.here.number, pair.there.number))
        .count() as u64
}

/// How far a pass over the answers has come.
#[derive(Clone, Copy)]
pub(crate) struct Reached {
    /// The next field.
    pub(crate) field: usize,
    /// The last field before it with a believed number.
    pub(crate) last: Option<Place>,
}

/// The number of the next field, if one is believed, with the one before it, if there is one.
pub(crate) fn neighbours_at(numbers: &[Number], at: Reached) -> Option<Neighbours>
    requires inside { at.field < length numbers.now }
    requires last { IsLast numbers.now at.field at.last }
    ensures some { IfSome result (λ pair. (pair.there.field ≡ at.field)
        × AreNeighbours numbers.now pair.here pair.there) }
    ensures none { result ≡ None → IsFree numbers.now at.field }
{
    let there = believed_at(numbers, at.field)?;
    let here = at.last?;
    Some(Neighbours { here, there })
}

/// What a walk over the fields knows before the next one.
#[derive(Clone, Copy)]
struct Walk {
    /// Which that is, and the last number before it.
    at: Reached,
    /// How many fields stand between it and the last end of a side.
    since: usize,
    /// What is told of the gaps before it.
    telling: Telling,
}

/// Tells what lies between two neighbours.
fn tell(side: &Side, walk: Walk, pair: Neighbours, out: &mut [Gap]) -> Telling
    requires inside { pair.there.field ≤ length side.now.seen.now }
    requires since { walk.since ≤ pair.there.field }
    requires few { walk.telling.tally.gaps < 2 ^ 60 }
    ensures { (old : List Gap)
        → AreNeighbours side.now.numbers.now pair.here pair.there
        → walk.since ≡ since_end side.now.ends.now pair.there.field
        → IsTelling (judged_in side.now) pair.there.field (stage_of walk.telling) old out.old
        → IsTelling (judged_in side.now) (pair.there.field + 1) (stage_of result) old out.new }
{
    let amid = Amid {
        ended: pair.here.field + walk.since + 1 < pair.there.field,
        shown: shown_between(side.seen, pair),
    };
    match between(side.rule, amid, pair) {
        None => {
            let more = skipped(
                side.rule.numbering.clock,
                pair.here.number,
                pair.there.number,
            );
            walk.telling.with_unread(more)
        }
        Some(gap) => walk.telling.with_gap(side.rule, Waiting { gap }, out),
    }
}

/// Tells what lies between the number of a field, if one is believed, and the one before it, if there is one.
fn visit(side: &Side, walk: Walk, out: &mut [Gap]) -> Telling
    requires inside { walk.at.field < length side.now.numbers.now }
    requires since { walk.since ≤ walk.at.field }
    requires few { walk.telling.tally.gaps ≤ walk.at.field }
    requires last { IsLast side.now.numbers.now walk.at.field walk.at.last }
    ensures { (old : List Gap) → walk.since ≡ since_end side.now.ends.now walk.at.field
        → IsTelling (judged_in side.now) walk.at.field (stage_of walk.telling) old out.old
        → IsTelling (judged_in side.now) (walk.at.field + 1) (stage_of result) old out.new }
{
    let Some(pair) = neighbours_at(side.numbers, walk.at) else {
        return walk.telling;
    };
    tell(side, walk, pair, out)
}

/// The last believed number before the next field.
pub(crate) fn last_at(numbers: &[Number], field: usize, last: Option<Place>) -> Option<Place>
    requires inside { field < length numbers.now }
    requires last { IsLast numbers.now field last }
    ensures { IsLast numbers.now (field + 1) result }
{
    let here = believed_at(numbers, field);
    if here.is_some() { here } else { last }
}

/// Whether a field with this answer is of lead-in or lead-out.
fn is_end(answer: u32) -> bool
    ensures { result ≡ is_end (Some answer) }
{
    answer == LEAD_OUT || answer == LEAD_IN
}

/// How many fields stand before the next one and after the last end of a side.
pub(crate) fn since_at(ends: &[u32], field: usize, since: usize) -> usize
    requires inside { field < length ends.now }
    requires since { since ≡ since_end ends.now field }
    requires few { since ≤ field }
    ensures since { result ≡ since_end ends.now (field + 1) }
    ensures few { result ≤ field + 1 }
{
    if is_end(ends[field]) { 0 } else { since + 1 }
}

/// The gaps of a side: writes the first of them into the room, as far as it goes, and says what all come to.
pub fn find_gaps(side: &Side, out: &mut [Gap]) -> Tally
    ensures { IsTold (judged_in side.now) (length side.now.numbers.now) result out.old out.new }
{
    let mut telling = Telling::none();
    let mut last: Option<Place> = None;
    let mut since = 0;
    for field in 0..side.numbers.len() {
        let at = Reached { field, last };
        let walk = Walk { at, since, telling };
        telling = visit(side, walk, out);
        last = last_at(side.numbers, field, last);
        since = since_at(side.ends, field, since);
    }
    telling.ended(side.rule, out)
}
