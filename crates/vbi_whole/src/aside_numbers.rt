//! Numbers that are set aside.
//!
//! Over a run of numbers between two gaps those around may go on (detour.rt, `REPLACED`). Then the run's own numbers
//! were misread, or two cuts cancel each other. Words of which the same bits are misread, by a scratch that stands
//! still, show none of the numbers that are due in their fields, and few numbers of the side are in their row. So the
//! run is set aside if the rows around weigh more. A player that skips a few pictures, and goes back by as many, shows
//! most of those that are due.
//!
//! Each run takes four passes over the numbers. A change of a bound changes `specs/AsideNumbers.antt`, `aside_laws`,
//! include/ldvbi.h and docs/SIDES.md.

ghost use Rattle.std.specs.Prelude.{◌≡◌, ℕ, ◌+◌, ◌-◌, ◌<◌, ◌≤◌, ◌^◌, nat_le, ◌&&◌, length, slice_get, Some};
ghost use Rattle.vbi_whole.specs.AsideNumbers.{are_in_row, is_in_row, has_of_row, row_weight, is_lighter, numbers_in};
ghost use Rattle.vbi_whole.specs.AsideNumbers.{has_due, is_set_aside, begun, is_of_run, left_of, AreLeft};
ghost use Rattle.vbi_whole.specs.{Types.Number, Gaps.from_of, Gaps.to_of, Verdicts.count_of};

use crate::gap::{Gap, REPLACED, Rule};
use crate::numbers_on_both::counted;
use crate::verdict::count_of;
use vbi_side::{BELIEVED, DOUBTFUL, Number, Pace, Place, by_clock};

/// Whether one place is in the row of the other.
fn are_in_row(pace: Pace, slack: u64, here: Place, there: Place) -> bool
    ensures { result ≡ are_in_row pace slack here there }
{
    let (field, number) = (here.field as u128, u128::from(here.number));
    let (other, count) = (there.field as u128, u128::from(there.number));
    let slack = u128::from(slack);
    match pace {
        Pace::Video => {
            other + 2 * number <= field + 2 * count + slack
                && field + 2 * count <= other + 2 * number + slack
        }
        Pace::Film => {
            2 * other + 5 * number <= 2 * field + 5 * count + 4
                && 2 * field + 5 * count <= 2 * other + 5 * number + 4
        }
    }
}

/// Whether one place is in the row of the other by the clock.
fn is_in_row(rule: Rule, here: Place, there: Place) -> bool
    ensures { result ≡ is_in_row rule here there }
{
    let clock = rule.numbering.clock;
    are_in_row(
        rule.pace,
        rule.slack,
        by_clock(clock, here),
        by_clock(clock, there),
    )
}

/// Whether a field has a believed number of this row.
fn has_of_row(rule: Rule, here: Place, field: usize, answer: Number) -> bool
    ensures { result ≡ has_of_row rule here field (Some answer) }
{
    let there = Place {
        field,
        number: answer.number,
    };
    answer.is_believed() && is_in_row(rule, here, there)
}

/// How many believed numbers are in this row.
fn row_weight(numbers: &[Number], rule: Rule, here: Place) -> usize
    ensures { result ≡ row_weight rule numbers.now here (length numbers.now) }
{
    let mut weight = 0;
    for field in 0..numbers.len() {
        weight = counted(weight, has_of_row(rule, here, field, numbers[field]));
    }
    weight
}

/// Whether the first row weighs less than the second one.
fn is_lighter(numbers: &[Number], rule: Rule, run: Place, around: Place) -> bool
    ensures { result ≡ is_lighter rule numbers.now run around }
{
    row_weight(numbers, rule, run) < row_weight(numbers, rule, around)
}

/// How many numbers so many fields have at least, one after the other.
fn numbers_in(pace: Pace, fields: u128) -> u128
    requires { fields < 2 ^ 65 }
    ensures value { result ≡ numbers_in pace fields }
    ensures few { result ≤ fields }
{
    match pace {
        Pace::Video => fields / 2,
        Pace::Film => (2 * fields + 1) / 5,
    }
}

/// How many numbers the fields of a gap have at least.
fn numbers_over(rule: Rule, gap: Gap) -> u128
    ensures value { result ≡ numbers_in rule.pace (gap.before - gap.after + rule.slack) }
    ensures few { result < 2 ^ 65 }
{
    let fields = gap.before.saturating_sub(gap.after) as u128;
    numbers_in(rule.pace, fields + u128::from(rule.slack))
}

/// Whether a number of the run between two gaps may be due there.
fn has_due(rule: Rule, first: Gap, second: Gap) -> bool
    ensures { result ≡ has_due rule first second }
{
    let clock = rule.numbering.clock;
    u128::from(clock.kept(first.from)) + numbers_over(rule, first)
        <= u128::from(clock.kept(second.from))
        && u128::from(clock.kept(first.to)) + numbers_over(rule, second)
            <= u128::from(clock.kept(second.to))
}

/// Whether the rows around the run between two gaps weigh more.
fn is_light(numbers: &[Number], rule: Rule, first: Gap, second: Gap) -> bool
    ensures { result ≡ (is_lighter rule numbers.now (to_of first) (from_of first)
        && is_lighter rule numbers.now (from_of second) (to_of second)) }
{
    is_lighter(numbers, rule, first.to_place(), first.from_place())
        && is_lighter(numbers, rule, second.from_place(), second.to_place())
}

/// Whether the numbers of the run between two gaps are set aside.
fn is_set_aside(numbers: &[Number], rule: Rule, first: Gap, second: Gap) -> bool
    ensures { result ≡ is_set_aside rule numbers.now first second }
{
    // Where a number stays the player stood still.
    let stays = first.from == first.to || second.from == second.to;
    !stays && !has_due(rule, first, second) && is_light(numbers, rule, first, second)
}

/// An answer in doubt, if it was believed and is set aside, else as it was.
fn left_of(answer: Number, aside: bool) -> Number
    ensures { result ≡ left_of aside answer }
{
    if aside && answer.state == BELIEVED {
        Number {
            state: DOUBTFUL,
            ..answer
        }
    } else {
        answer
    }
}

/// Sets aside the numbers of these fields.
fn mark(from: usize, to: usize, left: &mut [Number])
    ensures count { length left.new ≡ length left.old }
    ensures each { (i : ℕ) (answer : Number) → slice_get left.old i ≡ Some answer
        → slice_get left.new i ≡ Some (left_of (nat_le from i && nat_le i to) answer) }
{
    for field in 0..left.len() {
        left[field] = left_of(left[field], from <= field && field <= to);
    }
}

/// The first gap of a run that replaces others, if one begins with this gap.
fn begun(first: Option<Gap>, gap: Gap) -> Option<Gap>
    ensures { result ≡ begun first (Some gap) }
{
    (first.is_none() && gap.kind == REPLACED).then_some(gap)
}

/// Sets aside the numbers of the run that ends with this gap, if one does and the rows around weigh more.
fn end_run(numbers: &[Number], rule: Rule, first: Option<Gap>, gap: Gap, left: &mut [Number])
    ensures count { length left.new ≡ length left.old }
    ensures each { (i : ℕ) (answer : Number) → slice_get left.old i ≡ Some answer
        → slice_get left.new i ≡ Some (left_of (is_of_run rule numbers.now i first (Some gap)) answer) }
{
    if let Some(one) = first {
        if gap.kind == REPLACED && is_set_aside(numbers, rule, one, gap) {
            mark(one.before, gap.after, left);
        }
    }
}

/// Leaves the numbers of a side as they are, but for those of runs that replace what is due there: where the rows
/// around weigh more these are in doubt. `gaps` are those that `judge_whole` tells. Returns how many were set aside.
pub fn set_aside(gaps: &[Gap], numbers: &[Number], rule: Rule, left: &mut [Number]) -> usize
    requires { length left.old ≡ length numbers.now }
    ensures left { AreLeft rule gaps.now numbers.now left.new }
    ensures count { result ≡ count_of 1 numbers.now - count_of 1 left.new }
{
    left.copy_from_slice(numbers);
    let mut first: Option<Gap> = None;
    for index in 0..gaps.len() {
        end_run(numbers, rule, first, gaps[index], left);
        first = begun(first, gaps[index]);
    }
    count_of(numbers, BELIEVED).saturating_sub(count_of(left, BELIEVED))
}
