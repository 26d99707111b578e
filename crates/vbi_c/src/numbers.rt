//! What the numbers that C hands over stand for, and the numbers in which it is answered.

ghost use Rattle.std.specs.Prelude.{◌≡◌, ◌≤◌, IfOk};
ghost use Rattle.vbi_words.specs.Words.{IsWordOrNone};
ghost use Rattle.vbi_c.specs.Numbers.{system_of, counted_of, asked_of, pace_given, spacing_given};
ghost use Rattle.vbi_c.specs.Numbers.{both_by, clock_given, word_or_none, pace_for_c, clock_for_c};
ghost use Rattle.vbi_c.specs.Numbers.{code_for_c, format_for_c, rule_for_c, verdict_for_c, reason, reasons_for_c};

use crate::status::{Refusal, Settled};
use vbi_plan::{PlanRule, Spacing};
use vbi_seek::Asked;
use vbi_side::{Clock, Counted, Number, Pace};
use vbi_whole::{Reasons, Verdict, is_on_both};
use vbi_words::{Code, Format, System, Word24};

/// The system of a number: 1 is NTSC, 2 is PAL.
pub(crate) fn system_of(number: u32) -> Option<System>
    ensures { result ≡ system_of number }
{
    match number {
        1 => Some(System::Ntsc),
        2 => Some(System::Pal),
        _ => None,
    }
}

/// What is counted, by its number: 1 for pictures, 2 for times.
pub(crate) fn counted_of(number: u32) -> Option<Counted>
    ensures { result ≡ counted_of number }
{
    match number {
        1 => Some(Counted::Pictures),
        2 => Some(Counted::Times),
        _ => None,
    }
}

/// The pace that is asked for, by its number: 1 for that of video, 2 for that of film, 3 for the one that is found.
pub(crate) fn asked_of(number: u32) -> Option<Asked>
    ensures { result ≡ asked_of number }
{
    match number {
        3 => Some(Asked::Found),
        _ => pace_given(number).map(Asked::Given),
    }
}

/// The pace of this number.
pub(crate) fn pace_given(number: u32) -> Option<Pace>
    ensures { result ≡ pace_given number }
{
    match number {
        1 => Some(Pace::Video),
        2 => Some(Pace::Film),
        _ => None,
    }
}

/// The spacing of this number.
pub(crate) fn spacing_given(number: u32) -> Option<Spacing>
    ensures { result ≡ spacing_given number }
{
    match number {
        1 => Some(Spacing::Video),
        2 => Some(Spacing::Film),
        3 => Some(Spacing::Both),
        4 => Some(Spacing::Rising),
        _ => None,
    }
}

/// Whether the disc has its numbers on both fields of a picture: by what is said, or, of 3, by what is found.
pub(crate) fn both_by(both: u32, numbers: &[Number]) -> bool
    ensures { result ≡ both_by both numbers.now }
{
    match both {
        0 => false,
        3 => is_on_both(numbers),
        _ => true,
    }
}

/// Which numbers a disc leaves out.
#[derive(Clone, Copy)]
#[repr(C)]
pub struct LdvbiClock {
    /// 0 for none, 1 for drop-frame, 2 for one number in a period.
    pub kind: u32,
    /// Of one in a period the period; else 0.
    pub period: u32,
    /// The remainder by the period of the numbers that are left out; else 0.
    pub phase: u32,
}

/// The clock of these numbers, of which C may have made anything.
pub(crate) fn clock_given(clock: &LdvbiClock) -> Option<Clock>
    ensures { result ≡ clock_given clock.now }
{
    match clock.kind {
        0 => Some(Clock::Plain),
        1 => Some(Clock::DropFrame),
        2 if clock.phase < clock.period => Some(Clock::OneIn {
            period: clock.period,
            phase: clock.phase,
        }),
        _ => None,
    }
}

/// A clock as C sees it.
pub(crate) fn clock_for_c(clock: Clock) -> LdvbiClock
    ensures { result ≡ clock_for_c clock }
{
    let (kind, period, phase) = match clock {
        Clock::Plain => (0, 0, 0),
        Clock::DropFrame => (1, 0, 0),
        Clock::OneIn { period, phase } => (2, period, phase),
    };
    LdvbiClock {
        kind,
        period,
        phase,
    }
}

/// The word with this number, or none for 0.
pub(crate) fn word_or_none(number: u32) -> Settled<Option<Word24>>
    ensures word { result ≡ word_or_none number }
    ensures is { IfOk result IsWordOrNone }
{
    if number == 0 {
        return Ok(None);
    }
    Word24::new(number).map(Some).map_err(|_| Refusal::Word)
}

/// A pace as C sees it.
pub(crate) fn pace_for_c(pace: Pace) -> u32
    ensures { result ≡ pace_for_c pace }
{
    match pace {
        Pace::Video => 1,
        Pace::Film => 2,
    }
}

/// What a word says: its kind, and the numbers that go with it.
#[derive(Clone, Copy)]
#[repr(C)]
pub struct LdvbiCode {
    /// The number of its class in texts/classes.txt, 0 for a word of none.
    pub kind: u32,
    /// The picture number, the chapter, the hours, the seconds, the three last digits of a status code as a number, or
    /// the digit of a users' code; else 0.
    pub first: u32,
    /// The minutes, the picture within its second, or the three last digits of a users' code as a number; else 0.
    pub second: u32,
}

/// A code as C sees it.
pub(crate) fn code_for_c(code: Code) -> LdvbiCode
    ensures { result ≡ code_for_c code }
{
    let (kind, first, second) = match code {
        Code::Other => (0, 0, 0),
        Code::Picture(number) => (1, number, 0),
        Code::Chapter(number) => (2, u32::from(number), 0),
        Code::Time { hours, minutes } => (3, u32::from(hours), u32::from(minutes)),
        Code::ClvPicture { seconds, picture } => (4, u32::from(seconds), u32::from(picture)),
        Code::CxOn(number) => (5, u32::from(number), 0),
        Code::CxOff(number) => (6, u32::from(number), 0),
        Code::Users { digit, number } => (7, u32::from(digit), u32::from(number)),
        Code::LeadIn => (8, 0, 0),
        Code::LeadOut => (9, 0, 0),
        Code::PictureStop => (10, 0, 0),
        Code::ClvMark => (11, 0, 0),
    };
    LdvbiCode {
        kind,
        first,
        second,
    }
}

/// A format as C sees it.
pub(crate) fn format_for_c(format: Format) -> u32
    ensures { result ≡ format_for_c format }
{
    match format {
        Format::Neither => 0,
        Format::Cav => 1,
        Format::Clv => 2,
        Format::Both => 3,
    }
}

/// The number of a rule of plans.
pub(crate) fn rule_for_c(rule: PlanRule) -> u32
    ensures { result ≡ rule_for_c rule }
{
    match rule {
        PlanRule::Disordered => 1,
        PlanRule::NotThere => 2,
        PlanRule::Twice => 3,
        PlanRule::Misplaced => 4,
        PlanRule::Hidden => 5,
    }
}

/// The number of a verdict.
pub(crate) fn verdict_for_c(verdict: Verdict) -> u32
    ensures { result ≡ verdict_for_c verdict }
{
    match verdict {
        Verdict::CannotTell => 0,
        Verdict::Yes => 1,
        Verdict::No => 2,
    }
}

/// The number of a reason, if it holds.
fn reason(bit: u32, holds: bool) -> u32
    ensures value { result ≡ reason bit holds }
    ensures range { result ≤ bit }
{
    if holds { bit } else { 0 }
}

/// The sum of the numbers of all reasons.
pub(crate) fn reasons_for_c(reasons: Reasons) -> u32
    ensures { result ≡ reasons_for_c reasons }
{
    reason(1, reasons.is_lost)
        + reason(2, reasons.is_held)
        + reason(4, reasons.goes_back)
        + reason(8, reasons.is_joined)
        + reason(16, reasons.begins_late)
        + reason(32, reasons.is_swapped)
        + reason(64, reasons.is_off)
        + reason(128, reasons.no_numbers)
        + reason(256, reasons.end_unseen)
        + reason(512, reasons.begin_unseen)
        + reason(1024, reasons.many_doubtful)
        + reason(2048, reasons.is_open)
        + reason(4096, reasons.is_inserted)
        + reason(8192, reasons.is_padded)
        + reason(16384, reasons.is_blank)
}
