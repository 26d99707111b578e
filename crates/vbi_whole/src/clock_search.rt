//! Which clock a disc's numbers keep to, as the believed ones tell: the one that explains most of the places at which
//! they don't go on.
//!
//! Three clocks are tried: drop-frame, and one number left out in 1,000 or in 1,001, which is what 29.97 pictures a
//! second lose to 30. Of the latter two the phase isn't known, so one pass finds the phase in the lead (`Leader`, the
//! vote of Boyer and Moore), and a second one counts what its clock explains and what it speaks against (`Pairs`).
//!
//! It takes three explained places, since one or two may be losses that fall where the clock would leave a number out,
//! and at least twice as many as are opposed. Of a disc without a clock, and if clocks explain as much, it is the one
//! that the rule has.
//!
//! gaps.rt has the pass and gap.rt the test whether two numbers go on; clock.rt says what each clock leaves out.
//! Another bound, or a clock more, changes `specs/ClockSearch.antt` and the contract of `find_clock`.

ghost use Rattle.std.specs.Prelude.{◌≡◌, ◌+◌, ◌*◌, ◌<◌, ◌≤◌, ◌^◌, ◌↔◌, ◌⊎◌, true, false, length};
ghost use Rattle.vbi_whole.specs.ClockSearch.{explains, opposes, with_pair, ArePairs, IsClockTold, IsWeight};
ghost use Rattle.vbi_whole.specs.{Types.DropFrame, ClockSearch.ExplainsMost, Gaps.IsLast};
ghost use Rattle.vbi_whole.specs.{Gaps.has_clock};
ghost use Rattle.vbi_side.specs.{Paces.nearly, Clocks.nearly_by, Clocks.IsProper};

use crate::gap::{Neighbours, Rule};
use crate::gaps::{Reached, last_at, neighbours_at};
use vbi_side::{Clock, Number, Place, goes_on, goes_on_by};

/// How many neighbouring numbers a clock explains, and against how many it speaks.
#[derive(Clone, Copy)]
struct Pairs {
    /// They go on by the clock, and not without.
    explained: u64,
    /// They go on without it, and not by it.
    opposed: u64,
}

/// The pairs with one more.
fn with_pair(rule: Rule, clock: Clock, pair: Neighbours, pairs: Pairs) -> Pairs
    requires explained { pairs.explained < 2 ^ 60 }
    requires opposed { pairs.opposed < 2 ^ 60 }
    ensures value { result ≡ with_pair clock rule pair.here pair.there pairs }
    ensures explained { result.explained ≤ pairs.explained + 1 }
    ensures opposed { result.opposed ≤ pairs.opposed + 1 }
{
    let on = goes_on(rule.pace, rule.slack, pair.here, pair.there);
    let by = goes_on_by(clock, rule.pace, rule.slack, pair.here, pair.there);
    Pairs {
        explained: pairs.explained + if by && !on { 1 } else { 0 },
        opposed: pairs.opposed + if on && !by { 1 } else { 0 },
    }
}

/// The pairs with the one that ends in the next field, if one does.
fn pairs_after(numbers: &[Number], rule: Rule, clock: Clock, at: Reached, pairs: Pairs) -> Pairs
    requires inside { at.field < length numbers.now }
    requires last { IsLast numbers.now at.field at.last }
    requires explained { pairs.explained ≤ at.field }
    requires opposed { pairs.opposed ≤ at.field }
    ensures value { ArePairs clock rule numbers.now at.field pairs
        → ArePairs clock rule numbers.now (at.field + 1) result }
    ensures explained { result.explained ≤ at.field + 1 }
    ensures opposed { result.opposed ≤ at.field + 1 }
{
    let Some(pair) = neighbours_at(numbers, at) else {
        return pairs;
    };
    with_pair(rule, clock, pair, pairs)
}

/// What a clock says of all neighbouring numbers.
fn pairs_by(numbers: &[Number], rule: Rule, clock: Clock) -> Pairs
    ensures value { ArePairs clock rule numbers.now (length numbers.now) result }
    ensures range { result.opposed < 2 ^ 60 }
{
    let mut pairs = Pairs {
        explained: 0,
        opposed: 0,
    };
    let mut last: Option<Place> = None;
    for field in 0..numbers.len() {
        pairs = pairs_after(numbers, rule, clock, Reached { field, last }, pairs);
        last = last_at(numbers, field, last);
    }
    pairs
}

/// A phase that leads, and by how many votes.
#[derive(Clone, Copy)]
struct Leader {
    phase: u32,
    votes: u64,
}

impl Leader {
    /// With one vote more.
    fn with_vote(self, phase: u32) -> Leader
        requires { self.votes < 2 ^ 60 }
        ensures phase { (result.phase ≡ phase) ⊎ (result.phase ≡ self.phase) }
        ensures votes { result.votes ≤ self.votes + 1 }
    {
        if self.votes == 0 {
            Leader { phase, votes: 1 }
        } else if self.phase == phase {
            Leader {
                phase,
                votes: self.votes + 1,
            }
        } else {
            Leader {
                phase: self.phase,
                votes: self.votes - 1,
            }
        }
    }
}

/// The leader with the vote of the next field, if its number is the next but one, and just one is left out before it.
fn with_vote_of(numbers: &[Number], rule: Rule, period: u32, at: Reached, leader: Leader) -> Leader
    requires period { 0 < period }
    requires inside { at.field < length numbers.now }
    requires last { IsLast numbers.now at.field at.last }
    requires phase { leader.phase < period }
    requires votes { leader.votes ≤ at.field }
    ensures phase { result.phase < period }
    ensures votes { result.votes ≤ at.field + 1 }
{
    let Some(pair) = neighbours_at(numbers, at) else {
        return leader;
    };
    if u64::from(pair.here.number) + 2 != u64::from(pair.there.number)
        || goes_on(rule.pace, rule.slack, pair.here, pair.there)
    {
        return leader;
    }
    leader.with_vote((pair.there.number - 1) % period)
}

/// The phase of more than half of the places at which just one number is left out, if one has this many.
fn leading(numbers: &[Number], rule: Rule, period: u32) -> u32
    requires period { 0 < period }
    ensures { result < period }
{
    let mut leader = Leader { phase: 0, votes: 0 };
    let mut last: Option<Place> = None;
    for field in 0..numbers.len() {
        leader = with_vote_of(numbers, rule, period, Reached { field, last }, leader);
        last = last_at(numbers, field, last);
    }
    leader.phase
}

/// A clock that was tried, and how many neighbouring numbers it explains, if that is enough to believe in it, else 0.
#[derive(Clone, Copy)]
struct Trial {
    clock: Clock,
    explained: u64,
}

/// What all neighbouring numbers tell of a clock.
fn tried(numbers: &[Number], rule: Rule, clock: Clock) -> Trial
    ensures clock { result.clock ≡ clock }
    ensures told { IsWeight clock rule numbers.now result.explained }
{
    let pairs = pairs_by(numbers, rule, clock);
    let is_enough = pairs.explained >= 3 && pairs.explained >= 2 * pairs.opposed;
    Trial {
        clock,
        explained: if is_enough { pairs.explained } else { 0 },
    }
}

/// What they tell of the clock that leaves out one number in this many, with the phase that leads.
fn tried_in(numbers: &[Number], rule: Rule, period: u32) -> Trial
    requires period { 0 < period }
    ensures proper { IsProper result.clock }
    ensures told { IsWeight result.clock rule numbers.now result.explained }
{
    let phase = leading(numbers, rule, period);
    tried(numbers, rule, Clock::OneIn { period, phase })
}

/// The clock that explains most of the places at which the numbers of an NTSC CLV disc don't go on, of those that
/// explain at least three, and at least twice as many as they speak against. If drop-frame explains as much as one
/// number in 1,000 or 1,001 it is drop-frame; if these two explain as much it is neither. The phase of one in 1,000 or
/// 1,001 is that of more than half of the places at which just one number is missing; if none has so many, it may be
/// any of theirs. Else, and of another disc, it is the clock of the rule.
pub fn find_clock(numbers: &[Number], rule: Rule) -> Clock
    ensures told { (result ≡ rule.numbering.clock) ⊎ (IsProper result × IsClockTold result rule numbers.now) }
    ensures drop { has_clock rule.numbering ≡ true → ExplainsMost DropFrame rule numbers.now
        → result ≡ DropFrame }
    ensures none { has_clock rule.numbering ≡ false → result ≡ rule.numbering.clock }
{
    if !rule.numbering.has_clock() {
        return rule.numbering.clock;
    }
    let drop = tried(numbers, rule, Clock::DropFrame);
    let one = tried_in(numbers, rule, 1000);
    let two = tried_in(numbers, rule, 1001);
    if drop.explained > 0 && drop.explained >= one.explained && drop.explained >= two.explained {
        return Clock::DropFrame;
    }
    if one.explained > two.explained {
        one.clock
    } else if two.explained > one.explained {
        two.clock
    } else {
        rule.numbering.clock
    }
}
