//! The gaps of a side, the clock to which its numbers keep, and the verdict whether its capture is whole.

ghost use Rattle.std.specs.Prelude.{◌≡◌, ◌≤◌, ◌-◌, ◌==◌, length};
ghost use Rattle.vbi_side.specs.declared.clock.Clock as clocks;
ghost use Rattle.vbi_side.specs.declared.pace.Pace as paces;
ghost use Rattle.vbi_whole.specs.{declared.verdict.Finding.Finding, AsideNumbers.AreLeft, Gaps.rule_by};
ghost use Rattle.vbi_whole.specs.{Verdicts.IsFinding, Verdicts.count_of};
ghost use Rattle.vbi_c.specs.WholeSides.{siding_by, siding_with, numbering_of, slack_by, judged_by, side_for_c};
ghost use Rattle.vbi_c.specs.{Judging.are_as_long, Numbers.both_for_c, Numbers.may_end_by, Numbers.clock_for_c};
ghost use Rattle.vbi_c.specs.{WholeSides.IsClockFound, Statuses.Answers};

use crate::judging::{are_as_long, with_lengths};
use crate::numbers::{
    LdvbiClock, both_by, clock_for_c, clock_given, counted_of, pace_given, reasons_for_c,
    verdict_for_c,
};
use crate::status::{DONE, Refusal, Settled, settled};
use vbi_side::{Clock, Number, Pace, Sightings};
use vbi_whole::{
    Finding, Gap, Numbering, Rule, Side, Tally, find_clock, is_on_both, judge_whole, set_aside,
};

/// The rule by which a side is judged, in C's numbers.
#[derive(Clone, Copy)]
#[repr(C)]
pub struct LdvbiSideRule {
    /// 1 for NTSC, 2 for PAL.
    pub system: u32,
    /// 1 for pictures, 2 for times.
    pub counted: u32,
    /// 1 for that of video, 2 for that of film.
    pub pace: u32,
    /// Whether numbers are on both fields of a picture: 0 says no, 3 that it is to be found, any other number yes.
    pub both: u32,
    /// Which numbers the disc leaves out.
    pub clock: LdvbiClock,
}

/// What is said of a side: a `Finding`, whose fields have comments, with its verdict and its reasons in C's numbers.
#[derive(Clone, Copy)]
#[repr(C)]
pub struct LdvbiSide {
    pub tally: Tally,
    pub first: usize,
    pub last: usize,
    pub swap: usize,
    pub padded: usize,
    pub blank: usize,
    /// 1 if it is whole, 2 if it isn't, 0 if that can't be told.
    pub verdict: u32,
    /// Why not: the sum of the numbers of all reasons, each a bit.
    pub reasons: u32,
}

/// What is found of a side, as C sees it.
fn side_for_c(found: Finding) -> LdvbiSide
    ensures { result ≡ side_for_c found }
{
    LdvbiSide {
        tally: found.tally,
        first: found.first,
        last: found.last,
        swap: found.swap,
        padded: found.padded,
        blank: found.blank,
        verdict: verdict_for_c(found.verdict),
        reasons: reasons_for_c(found.reasons),
    }
}

/// What a side is judged by.
#[derive(Clone, Copy)]
pub(crate) struct Siding {
    pub(crate) numbering: Numbering,
    pub(crate) pace: Pace,
}

/// What a rule with this clock asks for, if the lengths of the arrays fit, or why it is refused.
fn siding_with(rule: &LdvbiSideRule, clock: Option<Clock>, fit: bool) -> Settled<Siding>
    ensures { result ≡ siding_with rule.now clock fit }
{
    let system = with_lengths(rule.system, fit)?;
    let counted = counted_of(rule.counted).ok_or(Refusal::Counted)?;
    let pace = pace_given(rule.pace).ok_or(Refusal::Pace)?;
    let clock = clock.ok_or(Refusal::Clock)?;
    Ok(Siding {
        numbering: Numbering {
            system,
            counted,
            clock,
        },
        pace,
    })
}

/// Whether the believed numbers of a side show that its disc has them on both fields of a picture: 1 if they do, else
/// 0.
#[unsafe(no_mangle)]
pub extern "C" fn ldvbi_find_both(numbers: &[Number]) -> u32
    ensures { result ≡ both_for_c numbers.now }
{
    if is_on_both(numbers) { 1 } else { 0 }
}

/// By how many fields numbers may be off from each other: by one of video with numbers on both fields.
fn slack_by(pace: Pace, both: u32, numbers: &[Number]) -> u64
    ensures value { result ≡ slack_by pace both numbers.now }
    ensures range { result ≤ 1 }
{
    match pace {
        Pace::Video if both_by(both, numbers) => 1,
        _ => 0,
    }
}

impl Siding {
    /// The rule by which numbers go on.
    pub(crate) fn rule(self, both: u32, numbers: &[Number]) -> Rule
        ensures { result ≡ rule_by self.pace (slack_by self.pace both numbers.now) self.numbering }
    {
        Rule {
            pace: self.pace,
            slack: slack_by(self.pace, both, numbers),
            numbering: self.numbering,
        }
    }

    /// The clock that the believed numbers tell, or its own.
    fn clock(self, both: u32, numbers: &[Number]) -> Clock
        ensures { IsClockFound self.pace (slack_by self.pace both numbers.now) self.numbering numbers.now result }
    {
        find_clock(numbers, self.rule(both, numbers))
    }
}

/// The clock to which the believed numbers of a side keep. That of the rule isn't looked at.
#[unsafe(no_mangle)]
pub extern "C" fn ldvbi_find_clock(
    rule: &LdvbiSideRule,
    numbers: &[Number],
    clock: &mut LdvbiClock,
) -> u32
    ensures finds { Answers (numbering_of rule.now) result (λ siding. (found : clocks.Clock)
        × IsClockFound siding.pace (slack_by siding.pace rule.now.both numbers.now) siding.numbering numbers.now found
        × (clock.new ≡ clock_for_c found)) (clock.new ≡ clock.old) }
{
    let siding = settled!(siding_with(rule, Some(Clock::Plain), true));
    *clock = clock_for_c(siding.clock(rule.both, numbers));
    DONE
}

/// Where the numbers and the fields of a side don't go on together by a rule, and whether its capture is whole: by what
/// `ldvbi_judge` saw and answered of its fields, and by what `ldvbi_judge_ends` answered of its ends. `gaps` gets the
/// first gaps, as many as it has room for.
#[unsafe(no_mangle)]
pub extern "C" fn ldvbi_judge_side(
    rule: &LdvbiSideRule,
    may_end: u32,
    seen: &[Sightings],
    numbers: &[Number],
    ends: &[u32],
    gaps: &mut [Gap],
    side: &mut LdvbiSide,
) -> u32
    ensures judges { Answers (siding_by rule.now
        (are_as_long (length seen.now) (length numbers.now) (length ends.now))) result
        (λ siding. (found : Finding) × IsFinding (judged_by siding rule.now.both seen.now numbers.now ends.now)
        (may_end_by may_end) found gaps.old gaps.new × (side.new ≡ side_for_c found))
        ((gaps.new ≡ gaps.old) × (side.new ≡ side.old)) }
{
    let fit = are_as_long(seen.len(), numbers.len(), ends.len());
    let siding = settled!(siding_with(rule, clock_given(&rule.clock), fit));
    let judged = Side {
        rule: siding.rule(rule.both, numbers),
        seen,
        numbers,
        ends,
    };
    *side = side_for_c(judge_whole(&judged, may_end != 0, gaps));
    DONE
}

/// Sets aside the numbers of a side that replace others, where the rows of numbers around them weigh more: `gaps` are
/// those that were told of these numbers, with fields counted from 0. What is left goes to `left`, and how many were
/// set aside to `count`. Refused is a rule that `ldvbi_judge_side` refuses, and a `left` that isn't as long as
/// `numbers`; then nothing is written.
#[unsafe(no_mangle)]
pub extern "C" fn ldvbi_set_aside(
    rule: &LdvbiSideRule,
    gaps: &[Gap],
    numbers: &[Number],
    left: &mut [Number],
    count: &mut usize,
) -> u32
    ensures leaves { Answers (siding_by rule.now (length left.old == length numbers.now)) result
        (λ siding. AreLeft (rule_by siding.pace (slack_by siding.pace rule.now.both numbers.now) siding.numbering)
        gaps.now numbers.now left.new × (count.new ≡ count_of 1 numbers.now - count_of 1 left.new))
        ((left.new ≡ left.old) × (count.new ≡ count.old)) }
{
    let fit = left.len() == numbers.len();
    let siding = settled!(siding_with(rule, clock_given(&rule.clock), fit));
    *count = set_aside(gaps, numbers, siding.rule(rule.both, numbers), left);
    DONE
}
