//! Numbers that go on one by one, each to within a field, and don't count to each other over a span.
//!
//! Film has pictures of two and of three fields, and a disc may have its number on both fields of a picture. So two
//! numbers go on if they are within a field of what they count to, and one lost field hides among them. It shows over a
//! span of numbers that go on: there each has to be within a field of each other one. For that it is enough to look at
//! the two that stand earliest and latest for their numbers.

ghost use Rattle.std.specs.Prelude.{◌≡◌, ℕ, ◌+◌, ◌*◌, ◌<◌, ◌≤◌, ◌^◌, ◌⊎◌, true, false, length, Some, None};
ghost use Rattle.vbi_side.specs.Numbers.{IsMarked};
ghost use Rattle.vbi_whole.specs.Gaps.{IsLast, goes_on};
ghost use Rattle.vbi_whole.specs.Drifts.{leads, leads_by, IsApart, IsSpan, IsSpanBefore, IsDrift, IsDriftTold};

use crate::gap::Rule;
use vbi_side::{Number, Pace, Place, believed_at, by_clock};

/// Numbers that go on one by one, over some fields.
#[derive(Clone, Copy)]
pub(crate) struct Span {
    /// The last number before it.
    before: Option<Place>,
    /// Its first number.
    first: Place,
    /// Its last number.
    last: Place,
    /// The one that stands earliest for its number.
    low: Place,
    /// The one that stands latest.
    high: Place,
}

/// Whether a number stands no later, for its number, than another one.
fn leads(pace: Pace, here: Place, there: Place) -> bool
    ensures { result ≡ leads pace here there }
{
    let (field, number) = (here.field as u128, u128::from(here.number));
    let (other, count) = (there.field as u128, u128::from(there.number));
    match pace {
        Pace::Video => field + 2 * count <= other + 2 * number,
        Pace::Film => 2 * field + 5 * count <= 2 * other + 5 * number,
    }
}

/// Whether a number stands no later than another one by the clock.
fn leads_by(rule: Rule, here: Place, there: Place) -> bool
    ensures { result ≡ leads_by rule here there }
{
    let clock = rule.numbering.clock;
    leads(rule.pace, by_clock(clock, here), by_clock(clock, there))
}

/// The span that begins with a number.
fn begun(numbers: &[Number], rule: Rule, before: Option<Place>, first: Place) -> Span
    requires before { IsLast numbers.now first.field before }
    requires first { IsMarked numbers.now first.field first.number }
    requires apart { IsApart rule before first }
    ensures { IsSpan rule numbers.now (first.field + 1) result }
{
    Span {
        before,
        first,
        last: first,
        low: first,
        high: first,
    }
}

/// The span with one number more, which goes on.
fn extended(numbers: &[Number], rule: Rule, span: Span, there: Place) -> Span
    requires span { IsSpan rule numbers.now there.field span }
    requires there { IsMarked numbers.now there.field there.number }
    requires on { goes_on rule span.last there ≡ true }
    ensures { IsSpan rule numbers.now (there.field + 1) result }
{
    let low_leads = leads_by(rule, span.low, there);
    let high_trails = leads_by(rule, there, span.high);
    Span {
        last: there,
        low: if low_leads { span.low } else { there },
        high: if high_trails { span.high } else { there },
        ..span
    }
}

/// The span before the field after this one.
fn span_after(numbers: &[Number], rule: Rule, field: usize, span: Option<Span>) -> Option<Span>
    requires inside { field < length numbers.now }
    requires span { IsSpanBefore rule numbers.now field span }
    ensures { IsSpanBefore rule numbers.now (field + 1) result }
{
    let Some(there) = believed_at(numbers, field) else {
        return span;
    };
    let Some(on) = span else {
        return Some(begun(numbers, rule, None, there));
    };
    if rule.goes_on(on.last, there) {
        Some(extended(numbers, rule, on, there))
    } else {
        Some(begun(numbers, rule, Some(on.last), there))
    }
}

/// Whether the number of a field doesn't count to one before it in its span.
fn drifts_at(numbers: &[Number], rule: Rule, field: usize, span: Option<Span>) -> bool
    requires inside { field < length numbers.now }
    requires span { IsSpanBefore rule numbers.now field span }
    ensures drifts { result ≡ true → IsDrift rule numbers.now field }
    ensures none { result ≡ false → IsDrift rule numbers.now field → ⊥ }
{
    let Some(there) = believed_at(numbers, field) else {
        return false;
    };
    let Some(on) = span else {
        return false;
    };
    rule.goes_on(on.last, there) && !(rule.goes_on(on.low, there) && rule.goes_on(on.high, there))
}

/// Whether the numbers of some span don't count to each other.
pub(crate) fn has_drift(numbers: &[Number], rule: Rule) -> bool
    ensures { IsDriftTold rule numbers.now result }
{
    let mut span: Option<Span> = None;
    for field in 0..numbers.len() {
        if drifts_at(numbers, rule, field, span) {
            return true;
        }
        span = span_after(numbers, rule, field, span);
    }
    false
}
