//! Detours: two neighbouring gaps over which the numbers around go on.
//!
//! A run of believed numbers lies between the two. If the numbers around go on over all fields between, the run's own
//! were read in place of others, or two cuts cancel each other: `REPLACED`. If they go on as if fields between weren't
//! there, and the numbers go back at one of the two, the player left these fields and came back: `INSERTED`.
//!
//! gaps_so_far.rt asks this file of each gap and the one before it. A change of a bound changes `specs/Detours.antt`,
//! `detour_laws`, include/ldvbi.h and docs/SIDES.md.

ghost use Rattle.std.specs.Prelude.{◌≡◌, ◌<◌, ◌≤◌, ◌^◌};
ghost use Rattle.vbi_side.specs.Clocks.{nearly_by};
ghost use Rattle.vbi_whole.specs.Detours.{may_turn, may_replace, count_to, is_inserted, detour_of, fields_by, turned};

use crate::gap::{BACK, Gap, HELD, INSERTED, LOST, OPEN, REPLACED, Rule, STILL};
use vbi_side::Pace;

/// A gap of a capture, which isn't told yet.
#[derive(Clone, Copy)]
pub(crate) struct Waiting {
    pub(crate) gap: Gap,
    ghost order: { gap.after < gap.before },
    ghost far: { gap.before < 2 ^ 60 },
}

/// Whether a gap of this kind may be one of any detour: another side never is, nor a still.
fn may_turn(kind: u32) -> bool
    ensures { result ≡ may_turn kind }
{
    kind == LOST || kind == HELD || kind == BACK || kind == OPEN
}

/// Whether the numbers of a gap of this kind may be replaced. On film, whose numbers fit to within a field, one that is
/// misread may look like a still.
fn may_replace(pace: Pace, kind: u32) -> bool
    ensures { result ≡ may_replace pace kind }
{
    match pace {
        Pace::Video => may_turn(kind),
        Pace::Film => may_turn(kind) || kind == STILL,
    }
}

/// How many fields two numbers count to, of film to within a field.
fn count_to(rule: Rule, from: u32, to: u32) -> u64
    ensures value { result ≡ count_to rule.numbering.clock rule.pace from to }
    ensures few { result < 2 ^ 40 }
{
    let clock = rule.numbering.clock;
    let numbers = u64::from(clock.kept(to).saturating_sub(clock.kept(from)));
    match rule.pace {
        Pace::Video => 2 * numbers,
        Pace::Film => 5 * numbers / 2,
    }
}

/// Whether the numbers go back at one of two gaps, and those around go on as if fields between weren't there.
fn is_inserted(rule: Rule, first: Waiting, second: Waiting) -> bool
    ensures { result ≡ is_inserted rule first.gap second.gap }
{
    let (a, b) = (first.gap, second.gap);
    let count = count_to(rule, a.from, b.to);
    // The run between takes the fields from the first gap's last one to the second one's first one.
    (a.kind == BACK || b.kind == BACK)
        && count > 0
        && u128::from(count) + (a.after as u128) + (b.after as u128)
            < a.before as u128 + b.before as u128 + u128::from(rule.slack)
}

/// What the detour over two neighbouring gaps is, if they are one.
pub(crate) fn detour(rule: Rule, first: Waiting, second: Waiting) -> Option<u32>
    ensures { result ≡ detour_of rule first.gap second.gap }
{
    let (a, b) = (first.gap, second.gap);
    if a.from >= b.to {
        return None;
    }
    let may_replace = may_replace(rule.pace, a.kind) && may_replace(rule.pace, b.kind);
    if may_replace && rule.goes_on(a.from_place(), b.to_place()) {
        Some(REPLACED)
    } else if may_turn(a.kind) && may_turn(b.kind) && is_inserted(rule, first, second) {
        Some(INSERTED)
    } else {
        None
    }
}

/// How many fields a detour of this kind inserts.
pub(crate) fn fields_by(rule: Rule, kind: u32, first: Waiting, second: Waiting) -> u64
    ensures { result ≡ fields_by rule kind first.gap second.gap }
{
    let (a, b) = (first.gap, second.gap);
    if kind == INSERTED {
        (b.before.saturating_sub(a.after) as u64).saturating_sub(count_to(rule, a.from, b.to))
    } else {
        0
    }
}

impl Waiting {
    /// The gap, told to be of this kind, with this many fields.
    pub(crate) fn turned(self, kind: u32, fields: u64) -> Waiting
        ensures { result.gap ≡ turned kind fields self.gap }
    {
        Waiting {
            gap: Gap {
                kind,
                fields,
                ..self.gap
            },
        }
    }
}
