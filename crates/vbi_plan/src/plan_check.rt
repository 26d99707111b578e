//! Whether a plan is done: one pass over its stretches, and over the fields that each takes.
//!
//! A stretch is asked for its order, for its fields, for the numbers that it shows, or, if it is padding, for those
//! that it hides; the first one that isn't as it should be ends the pass. Of the numbers before a field the last one
//! stands for all: a number that counts on from it counts on from each. With numbers on both fields that isn't so,
//! since each may be off by one, and all are counted from the plan's first number.

ghost use Rattle.std.specs.Prelude.{◌≡◌, ℕ, ◌↔◌, ◌+◌, ◌<◌, ◌≤◌, ◌^◌, true, false, length, slice_get, None};
ghost use Rattle.std.specs.Prelude.{Some, IfSome, IfOk, IfErr};
ghost use Rattle.vbi_plan.specs.Plans.{plan_of, AreOf, AreApart, IsOrdered, IsGiven, IsOnce, IsPlaced, HidesNone};
ghost use Rattle.vbi_plan.specs.Plans.{IsGood, IsDone, Breaks, IsFirstFault, Shows, StandsFor, CountsOn, IsInPlace};
ghost use Rattle.vbi_plan.specs.Plans.{IsReached, is_both, out_at, place_of, rank_at, rank_of};

use crate::plan::{
    Capture, Layout, Plan, PlanFault, PlanRule, RankedField, Spacing, Stretch, counts_on, rank_at,
};
use vbi_side::believed_at;

/// Whether a stretch has a field, and one at least for each number for which it stands.
fn is_ordered(plan: &Plan, at: usize) -> bool
    requires { at < length plan.now.stretches.now }
    ensures { (result ≡ true) ↔ IsOrdered (plan_of plan.now) at }
{
    let fields = plan.stretches[at].fields;
    let (from, to) = (rank_at(plan, at), rank_at(plan, at + 1));
    fields > 0 && from <= to && (to - from) as usize <= fields
}

/// Whether the fields of a stretch are all of its capture, of captures that have so many fields together.
fn are_of(count: usize, captures: &[Capture], stretch: Stretch) -> bool
    ensures { (result ≡ true) ↔ AreOf count (slice_get captures.now stretch.capture) stretch }
{
    let Some(capture) = captures.get(stretch.capture) else {
        return false;
    };
    let (first, fields) = (stretch.field as u128, stretch.fields as u128);
    let end = capture.first as u128 + capture.fields as u128;
    capture.first <= stretch.field && first + fields <= end && end <= count as u128
}

/// Whether a stretch is padding, or its fields are all of its capture.
fn is_given(plan: &Plan, at: usize) -> bool
    requires { at < length plan.now.stretches.now }
    ensures { (result ≡ true) ↔ IsGiven (plan_of plan.now) at }
{
    let stretch = plan.stretches[at];
    stretch.padding != 0 || are_of(plan.numbers.len(), plan.captures, stretch)
}

/// Whether two stretches have no field in common.
fn are_apart(one: Stretch, other: Stretch) -> bool
    ensures { (result ≡ true) ↔ AreApart one other }
{
    one.field as u128 + one.fields as u128 <= other.field as u128
        || other.field as u128 + other.fields as u128 <= one.field as u128
}

/// Whether no field of a stretch was taken before.
fn is_once(plan: &Plan, at: usize) -> bool
    requires { at < length plan.now.stretches.now }
    ensures { (result ≡ true) ↔ IsOnce (plan_of plan.now) at }
{
    let stretch = plan.stretches[at];
    if stretch.padding != 0 {
        return true;
    }
    for before in 0..at {
        let other = plan.stretches[before];
        if other.padding == 0 && !are_apart(stretch, other) {
            return false;
        }
    }
    true
}

/// Whether padding stands for no number that is believed of a field.
fn hides_none(plan: &Plan, at: usize) -> bool
    requires { at < length plan.now.stretches.now }
    ensures { (result ≡ true) ↔ HidesNone (plan_of plan.now) at }
{
    let (from, to) = (rank_at(plan, at), rank_at(plan, at + 1));
    if plan.stretches[at].padding == 0 || to <= from {
        return true;
    }
    for field in 0..plan.numbers.len() {
        if let Some(place) = believed_at(plan.numbers, field) {
            let rank = plan.layout.clock.kept(place.number);
            if from <= rank && rank < to {
                return false;
            }
        }
    }
    true
}

/// A check of a plan, as far as it has come.
#[derive(Clone, Copy)]
struct Check<'a> {
    plan: Plan<'a>,
    /// The next stretch.
    at: usize,
    /// What it is.
    stretch: Stretch,
    /// How many fields are before it.
    out: u128,
    ghost there: { slice_get plan.stretches.now at ≡ Some stretch },
    ghost before: { out ≡ out_at plan.stretches.now at },
    ghost few: { out < 2 ^ 125 },
}

/// Where the number of a field stands, if it is in its place after the last one.
fn in_place(check: &Check, last: RankedField, step: usize, number: u32) -> Option<RankedField>
    ensures some { IfSome result (λ here. let plan = plan_of check.now.plan in
        StandsFor plan check.now.at (rank_of plan number)
        × CountsOn plan.layout.spacing last.field last.rank (place_of plan check.now.at step) (rank_of plan number)
        × (here.field ≡ place_of plan check.now.at step) × (here.rank ≡ rank_of plan number)) }
    ensures none { result ≡ None → let plan = plan_of check.now.plan in
        StandsFor plan check.now.at (rank_of plan number)
        → CountsOn plan.layout.spacing last.field last.rank (place_of plan check.now.at step) (rank_of plan number)
        → ⊥ }
{
    let plan = &check.plan;
    let here = RankedField {
        field: check.out + step as u128,
        rank: plan.layout.clock.kept(number),
    };
    let (from, to) = (rank_at(plan, check.at), rank_at(plan, check.at + 1));
    if from <= here.rank && here.rank < to && counts_on(plan.layout.spacing, last, here) {
        Some(here)
    } else {
        None
    }
}

/// The number from which the next ones count on.
fn next_last(layout: Layout, last: RankedField, here: RankedField) -> RankedField
    ensures both { is_both layout.spacing ≡ true → result ≡ last }
    ensures others { is_both layout.spacing ≡ false → result ≡ here }
{
    match layout.spacing {
        Spacing::Both => last,
        _ => here,
    }
}

/// The number from which the next ones count on after a field; None if the field's number is out of its place.
fn place_field(check: &Check, last: RankedField, step: usize) -> Option<RankedField>
    requires taken { check.now.stretch.padding ≡ 0 }
    requires step { step < check.now.stretch.fields }
    requires inside { check.now.stretch.field + check.now.stretch.fields ≤ length check.now.plan.numbers.now }
    requires reached { IsReached (plan_of check.now.plan) check.now.at step last.field last.rank }
    ensures some { IfSome result (λ next. IsReached (plan_of check.now.plan) check.now.at (step + 1) next.field
        next.rank × ((n : ℕ) → Shows (plan_of check.now.plan) check.now.at step n
        → IsInPlace (plan_of check.now.plan) check.now.at step n)) }
    ensures none { result ≡ None → IsPlaced (plan_of check.now.plan) check.now.at → ⊥ }
{
    let Some(place) = believed_at(check.plan.numbers, check.stretch.field + step) else {
        return Some(last);
    };
    let here = in_place(check, last, step, place.number)?;
    Some(next_last(check.plan.layout, last, here))
}

/// The number from which the next ones count on after a stretch; None if one of its numbers is out of its place.
fn place_fields(check: &Check, mut last: RankedField) -> Option<RankedField>
    requires taken { check.now.stretch.padding ≡ 0 }
    requires inside { check.now.stretch.field + check.now.stretch.fields ≤ length check.now.plan.numbers.now }
    requires reached { IsReached (plan_of check.now.plan) check.now.at 0 last.field last.rank }
    ensures some { IfSome result (λ next. IsPlaced (plan_of check.now.plan) check.now.at
        × IsReached (plan_of check.now.plan) (check.now.at + 1) 0 next.field next.rank) }
    ensures none { result ≡ None → IsPlaced (plan_of check.now.plan) check.now.at → ⊥ }
{
    for step in 0..check.stretch.fields {
        last = place_field(check, last, step)?;
    }
    Some(last)
}

/// The number from which the next ones count on after the next stretch, or the rule that this stretch breaks.
fn visit(check: &Check, last: RankedField) -> Result<RankedField, PlanRule>
    requires { IsReached (plan_of check.now.plan) check.now.at 0 last.field last.rank }
    ensures ok { IfOk result (λ next. IsGood (plan_of check.now.plan) check.now.at
        × IsReached (plan_of check.now.plan) (check.now.at + 1) 0 next.field next.rank) }
    ensures err { IfErr result (λ rule. Breaks (plan_of check.now.plan) rule check.now.at) }
{
    let (plan, at) = (&check.plan, check.at);
    if !is_ordered(plan, at) {
        return Err(PlanRule::Disordered);
    }
    if !is_given(plan, at) {
        return Err(PlanRule::NotThere);
    }
    if !is_once(plan, at) {
        return Err(PlanRule::Twice);
    }
    if check.stretch.padding == 0 {
        return place_fields(check, last).ok_or(PlanRule::Misplaced);
    }
    if hides_none(plan, at) {
        Ok(last)
    } else {
        Err(PlanRule::Hidden)
    }
}

/// How many fields are before the next stretch.
fn out_after(out: u128, fields: usize) -> u128
    requires { out < 2 ^ 125 }
    ensures value { result ≡ out + fields }
    ensures most { result ≤ out + 2 ^ 64 }
{
    out + fields as u128
}

/// Where the plan's first number stands.
fn first_stand(plan: &Plan) -> RankedField
    ensures field { result.field ≡ plan.now.layout.begin }
    ensures rank { result.rank ≡ rank_at (plan_of plan.now) 0 }
{
    RankedField {
        field: plan.layout.begin as u128,
        rank: rank_at(plan, 0),
    }
}

/// The first stretch of a plan that isn't as it should be; None if the plan is done.
pub fn check_plan(plan: &Plan) -> Option<PlanFault>
    ensures done { (result ≡ None) ↔ IsDone (plan_of plan.now) }
    ensures fault { IfSome result (IsFirstFault (plan_of plan.now)) }
{
    let mut out: u128 = 0;
    let mut last = first_stand(plan);
    for at in 0..plan.stretches.len() {
        let stretch = plan.stretches[at];
        let check = Check {
            plan: *plan,
            at,
            stretch,
            out,
        };
        last = match visit(&check, last) {
            Ok(here) => here,
            Err(rule) => return Some(PlanFault { stretch: at, rule }),
        };
        out = out_after(out, stretch.fields);
    }
    None
}
