//! Whether a capture of a side is whole.
//!
//! `judge_whole` asks four passes over the answers: the gaps (gaps.rt), the swapped fields (swaps.rt), the numbers that
//! drift (drift.rt) and the fields without any (blank_fields.rt). What they find is `Findings`, with the first and the
//! last number. Each thing that speaks against the capture is one of its `Reasons`. Some are seen on the capture
//! itself: with one of these the verdict is `No`. The others leave it open, so with these alone it is `CannotTell`. A
//! capture without a number has the reason `no_numbers` alone.
//!
//! A reason more, or another bound, changes `specs/Verdicts.antt`, the worked reasons of `reason_laws`, the numbers of
//! `vbi_c` (whole_side.rt), include/ldvbi.h, `Reason` of python/ldvbi/sides.py and docs/SIDES.md.

ghost use Rattle.std.specs.Prelude.{◌≡◌, ◌<◌, ◌≤◌, ◌^◌, length, true};
ghost use Rattle.vbi_whole.specs.Verdicts.{are_seen, leave_open, verdict_of, too_few, is_off, padded_in};
ghost use Rattle.vbi_whole.specs.Verdicts.{lead_out_follows, count_of, are_doubtful, reasons_of, IsFinding};
ghost use Rattle.vbi_whole.specs.{Gaps.judged_in, Gaps.since_end, Swaps.IsSwapTold};

use crate::blank_fields::first_blank;
use crate::drift::has_drift;
use crate::gap::{Gap, Rule};
use crate::gaps::{find_gaps, since_at};
use crate::side::Side;
use crate::swaps::first_swap;
use crate::tally::Tally;
use vbi_side::{
    BELIEVED, DOUBTFUL, LEAD_OUT, Number, PADDING, Pace, Place, Sightings, by_clock,
    first_believed, last_believed, nearly,
};

/// Whether a capture of a side is whole.
#[derive(Clone, Copy, Debug, PartialEq, Eq)]
pub enum Verdict {
    /// The capture has each field of the disc from its first number to its last one, as far as its numbers tell.
    Yes,
    /// The capture lacks fields of the disc, or isn't one run of it.
    No,
    /// It can't be told.
    CannotTell,
}

/// What speaks against a capture: why it isn't whole, or why that can't be told. By default nothing does.
#[derive(Clone, Copy, Default)]
pub struct Reasons {
    /// Fields are lost.
    pub is_lost: bool,
    /// More fields are there than the numbers count to.
    pub is_held: bool,
    /// The numbers go back.
    pub goes_back: bool,
    /// Another side begins.
    pub is_joined: bool,
    /// The capture begins late: fewer fields stand before the first number than the numbers before it take.
    pub begins_late: bool,
    /// Two fields are swapped: between two numbers that go on a field shows one that stands a field off.
    pub is_swapped: bool,
    /// Numbers that go on one by one, each to within a field, don't count to each other; or the first and the last one
    /// don't, less the fields for which the player stood still or was away, and no gap is open. Of film, or of numbers
    /// on both fields, a field may be lost there, or the disc cut.
    pub is_off: bool,
    /// No number is believed.
    pub no_numbers: bool,
    /// No lead-out is seen after the last number.
    pub end_unseen: bool,
    /// Numbers before the first one may be there, unread.
    pub begin_unseen: bool,
    /// A tenth or more of the numbers that were read is in doubt.
    pub many_doubtful: bool,
    /// Between two numbers the disc itself may have skipped, or fields are lost; or numbers are replaced.
    pub is_open: bool,
    /// Fields are inserted: the player left those around and came back.
    pub is_inserted: bool,
    /// Fields are padding: the capture lacks those for which they stand.
    pub is_padded: bool,
    /// Between two numbers that go on, over a hundred fields in a row have none: as many may be lost there as are too
    /// many.
    pub is_blank: bool,
}

impl Reasons {
    /// Whether one of them is seen on the capture itself.
    fn are_seen(self) -> bool
        ensures { result ≡ are_seen self }
    {
        self.is_lost
            || self.is_held
            || self.goes_back
            || self.is_joined
            || self.begins_late
            || self.is_swapped
            || self.is_inserted
            || self.is_padded
    }

    /// Whether one of them leaves it open whether the capture is whole.
    fn leave_open(self) -> bool
        ensures { result ≡ leave_open self }
    {
        self.is_off
            || self.no_numbers
            || self.end_unseen
            || self.begin_unseen
            || self.many_doubtful
            || self.is_open
            || self.is_blank
    }

    /// The verdict that they leave.
    fn verdict(self) -> Verdict
        ensures { result ≡ verdict_of self }
    {
        if self.are_seen() {
            Verdict::No
        } else if self.leave_open() {
            Verdict::CannotTell
        } else {
            Verdict::Yes
        }
    }
}

/// What is said of a capture.
#[derive(Clone, Copy)]
pub struct Finding {
    /// What its gaps come to.
    pub tally: Tally,
    /// The first field with a believed number, counted from 0; 0 if there is none.
    pub first: usize,
    /// The last one.
    pub last: usize,
    /// The first field that was swapped with one beside it, counted from 0; 0 if there is none.
    pub swap: usize,
    /// How many of its fields are padding.
    pub padded: usize,
    /// The first of over a hundred fields without a number between two that go on, counted from 0; 0 if there are none.
    pub blank: usize,
    /// Whether it is whole.
    pub verdict: Verdict,
    /// Why not: none just if the verdict is `Yes`.
    pub reasons: Reasons,
}

/// How many fields stand before this one and after the last end of a side.
fn since_end(ends: &[u32], field: usize) -> usize
    requires { field ≤ length ends.now }
    ensures value { result ≡ since_end ends.now field }
    ensures few { result ≤ field }
{
    let mut since = 0;
    for place in 0..field {
        since = since_at(ends, place, since);
    }
    since
}

/// Whether a field after this one is of lead-out.
fn lead_out_follows(ends: &[u32], field: usize) -> bool
    requires { field < length ends.now }
    ensures { result ≡ lead_out_follows ends.now field }
{
    let after = &ends[field + 1..];
    after.iter().filter(|end| **end == LEAD_OUT).count() > 0
}

/// Whether this many fields are fewer than the numbers before this one take.
fn too_few(pace: Pace, fields: usize, number: u32) -> bool
    requires { fields < 2 ^ 60 }
    ensures { result ≡ too_few pace fields number }
{
    let fields = fields as u64;
    let before = u64::from(number.saturating_sub(1));
    match pace {
        Pace::Video => fields < 2 * before,
        Pace::Film => 2 * fields + 2 < 5 * before,
    }
}

/// Whether no gap is open, and the first and the last number don't count to each other, less the stills and what
/// detours insert.
fn is_off(rule: Rule, tally: &Tally, first: Place, last: Place) -> bool
    ensures { result ≡ is_off rule tally.now first last }
{
    let field = first.field as u128 + u128::from(tally.stood);
    let field = field + u128::from(tally.inserted);
    let goes_on = nearly(
        rule.pace,
        rule.slack,
        field,
        first.number,
        last.field as u128,
        last.number,
    );
    tally.open_gaps == 0 && !goes_on
}

/// How many answers are of this state.
pub(crate) fn count_of(numbers: &[Number], state: u32) -> usize
    ensures { result ≡ count_of state numbers.now }
{
    numbers.iter().filter(|n| n.state == state).count()
}

/// Whether a tenth or more of the numbers that were read is in doubt. With so much set aside the believed ones say too
/// little of the capture.
fn are_doubtful(numbers: &[Number]) -> bool
    ensures { result ≡ are_doubtful numbers.now }
{
    let believed = count_of(numbers, BELIEVED);
    let doubtful = count_of(numbers, DOUBTFUL);
    believed as u128 + doubtful as u128 <= 10 * doubtful as u128
}

/// How many fields are padding.
fn padded_in(ends: &[u32]) -> usize
    ensures { result ≡ padded_in ends.now }
{
    ends.iter().filter(|end| **end == PADDING).count()
}

/// A field that was swapped, or 0, and whether there is one: by default there is none.
#[derive(Clone, Copy, Default)]
struct Swap {
    field: usize,
    is_seen: bool,
}

/// What was found of a capture with a believed number.
#[derive(Clone, Copy)]
struct Findings {
    /// What its gaps come to.
    tally: Tally,
    /// How many fields are padding.
    padded: usize,
    /// A field that was swapped.
    swap: Swap,
    /// Whether the numbers of some stretch don't count to each other.
    drifts: bool,
    /// The first field of a long stretch without a number.
    blank: usize,
    /// Its first number.
    first: Place,
    /// Its last number.
    last: Place,
}

/// All reasons against a capture.
fn reasons_against(side: &Side, may_end: bool, found: &Findings) -> Reasons
    requires first { found.now.first.field < length side.now.numbers.now }
    requires last { found.now.last.field < length side.now.numbers.now }
    requires padded { found.now.padded ≡ padded_in side.now.ends.now }
    ensures { result ≡ reasons_of (judged_in side.now) may_end found.now }
{
    let tally = &found.tally;
    let rule = side.rule;
    let before = since_end(side.ends, found.first.field);
    let is_ended = lead_out_follows(side.ends, found.last.field);
    let begin = by_clock(rule.numbering.clock, found.first);
    let end = by_clock(rule.numbering.clock, found.last);
    Reasons {
        is_lost: tally.lost > 0,
        is_held: tally.held > 0,
        goes_back: tally.back > 0,
        is_joined: tally.joined > 0,
        begins_late: too_few(rule.pace, before, begin.number),
        is_swapped: found.swap.is_seen,
        is_off: found.drifts || is_off(rule, tally, begin, end),
        no_numbers: false,
        end_unseen: !may_end && !is_ended,
        // Some two seconds show no number: those before the first one may be there, unread.
        begin_unseen: found.first.number > 1 && before > 100,
        many_doubtful: are_doubtful(side.numbers),
        is_open: tally.open_gaps > 0,
        is_inserted: tally.inserted > 0,
        is_padded: found.padded > 0,
        is_blank: found.blank > 0,
    }
}

/// The first field that was swapped, of a disc on which that can be seen: one of video with a number on one field of
/// its pictures.
fn swap_by(side: &Side) -> Swap
    ensures { IsSwapTold side.now.rule side.now.seen.now side.now.numbers.now result.field result.is_seen }
{
    match side.rule.pace {
        Pace::Video if side.rule.slack == 0 => {}
        _ => return Swap::default(),
    }
    match first_swap(side) {
        Some(field) => Swap {
            field,
            is_seen: true,
        },
        None => Swap::default(),
    }
}

/// Whether a capture of a side is whole; `may_end` says that it may end before the disc does. Writes the first gaps
/// into the room, as far as it goes.
pub fn judge_whole(side: &Side, may_end: bool, out: &mut [Gap]) -> Finding
    ensures { IsFinding (judged_in side.now) may_end result out.old out.new }
{
    let tally = find_gaps(side, out);
    let swap = swap_by(side);
    let drifts = has_drift(side.numbers, side.rule);
    let padded = padded_in(side.ends);
    let blank = first_blank(side.numbers, side.rule);
    let Some(first) = first_believed(side.numbers) else {
        let reasons = Reasons {
            no_numbers: true,
            ..Reasons::default()
        };
        return Finding {
            tally,
            first: 0,
            last: 0,
            swap: swap.field,
            padded,
            blank,
            verdict: reasons.verdict(),
            reasons,
        };
    };
    let last = last_believed(side.numbers).unwrap_or(first);
    let found = Findings {
        tally,
        padded,
        swap,
        drifts,
        blank,
        first,
        last,
    };
    let reasons = reasons_against(side, may_end, &found);
    Finding {
        tally,
        first: first.field,
        last: last.field,
        swap: swap.field,
        padded,
        blank,
        verdict: reasons.verdict(),
        reasons,
    }
}
