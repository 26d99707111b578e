//! What lies between two neighbouring numbers of a capture: nothing, if they go on, else a gap.
//!
//! `Gap` and `Tally` are what include/ldvbi.h hands out, with the numbers of its kinds. `Rule` says how a disc counts,
//! `between` judges two `Neighbours` by it, and the methods of `Gap` count which numbers are lost in one.
//!
//! Numbers go on if they are as far apart as their fields: two to a picture of video, five to two pictures of film. On
//! a disc with a number on both fields of a picture they may be one field off, the `slack`. Film is asked to within a
//! field always, since its pictures of two and three fields needn't begin where their numbers say. Places are compared
//! by sums and products, with nothing to divide or to round, and by the numbers that the disc's clock leaves
//! (clock.rt).
//!
//! gaps.rt walks over a capture and asks this file of each pair, drift.rt, swaps.rt and clock_search.rt ask whether
//! numbers go on. A change of a kind or a bound changes `specs/Gaps.antt`, `gap_laws`, include/ldvbi.h and
//! docs/SIDES.md.

ghost use Rattle.std.specs.Prelude.{◌≡◌, ◌+◌, ◌*◌, ◌<◌, ◌≤◌, ◌^◌};
ghost use Rattle.vbi_side.specs.{Paces.stays, Clocks.kept, Clocks.is_plain};
ghost use Rattle.vbi_whole.specs.Gaps.{lacking, has_stills, has_clock, off_by, is_open, kind_of, fields_of, gap_of};
ghost use Rattle.vbi_whole.specs.Tallies.{shown_most, lost_of, undecided_of, fields_if, one_if};
ghost use Rattle.vbi_whole.specs.Gaps.{skipped, goes_on, from_of, to_of};

use std::mem::size_of;
use vbi_side::{Clock, Counted, Pace, Place, by_clock, goes_on, goes_on_by};
use vbi_words::System;

/// Fields of the disc are lost.
pub const LOST: u32 = 1;
/// More fields are there than the numbers count to.
pub const HELD: u32 = 2;
/// The numbers go back.
pub const BACK: u32 = 3;
/// The player stood still: the same number, an even count of fields later.
pub const STILL: u32 = 4;
/// A lead-in or a lead-out stands between, and the number changes: another side begins.
pub const JOINED: u32 = 5;
/// The disc itself may skip there: the clock of an NTSC CLV disc leaves out a number or two; where film is cut a number
/// that wasn't read may stand a field off; and a disc of film may have video there, of two fields to a picture.
pub const OPEN: u32 = 6;
/// One of a detour: the numbers around go on as if fields between weren't there. The player left and came back.
pub const INSERTED: u32 = 7;
/// One of a detour: the numbers around go on over the fields between. Those between are read in place of others, or two
/// cuts cancel each other.
pub const REPLACED: u32 = 8;

/// What lies between two neighbouring believed numbers that don't go on.
#[derive(Clone, Copy)]
#[repr(C)]
pub struct Gap {
    /// The field before it that has a number, counted from 0.
    pub after: usize,
    /// The field after it that has one.
    pub before: usize,
    /// By how many fields: those lost or too many, at least; those of the still; those that a detour inserts, which its
    /// first gap has; else 0. If it is open, how many more or less there are than the numbers count to.
    pub fields: u64,
    /// How many fields between the two show a number between theirs, on both lines in pass 1.
    pub shown: u64,
    /// The number of the field before it.
    pub from: u32,
    /// The number of the field after it.
    pub to: u32,
    /// `LOST`, `HELD`, `BACK`, `STILL`, `JOINED`, `OPEN`, `INSERTED` or `REPLACED`.
    pub kind: u32,
}

// As include/ldvbi.h has it.
const _: () = prove!(size_of::<Gap>() == 48);

/// What the numbers of a disc are.
#[derive(Clone, Copy)]
pub struct Numbering {
    /// The disc's system.
    pub system: System,
    /// What it counts.
    pub counted: Counted,
    /// Which numbers it leaves out.
    pub clock: Clock,
}

impl Numbering {
    /// Whether a player can stand still at a number: a CLV disc has no stills.
    fn has_stills(self) -> bool
        ensures { result ≡ has_stills self }
    {
        matches!(self.counted, Counted::Pictures)
    }

    /// Whether the numbers keep to a clock, for which some are left out, and it isn't known to which.
    pub(crate) fn has_clock(self) -> bool
        ensures { result ≡ has_clock self }
    {
        matches!(
            (self.system, self.counted, self.clock),
            (System::Ntsc, Counted::Times, Clock::Plain)
        )
    }
}

/// How two numbers of a disc go on: at this pace, to within this many fields, which are 1 of a disc with a number on
/// both fields of its pictures, else 0.
#[derive(Clone, Copy)]
pub struct Rule {
    /// The disc's pace.
    pub pace: Pace,
    /// By how many fields they may be off.
    pub slack: u64,
    /// What its numbers are.
    pub numbering: Numbering,
}

impl Rule {
    /// Whether the numbers of two places go on.
    #[inline]
    pub(crate) fn goes_on(self, here: Place, there: Place) -> bool
        ensures { result ≡ goes_on self here there }
    {
        goes_on_by(self.numbering.clock, self.pace, self.slack, here, there)
    }
}

/// Two neighbouring numbers: none is believed of a field between them. No slice of answers has 2^60 of them, so fields
/// and twice or five times their numbers add up in 64 bits.
#[derive(Clone, Copy)]
pub(crate) struct Neighbours {
    pub(crate) here: Place,
    pub(crate) there: Place,
    ghost order: { here.field < there.field },
    ghost far: { there.field < 2 ^ 60 },
}

/// What the fields between two numbers show.
#[derive(Clone, Copy)]
pub(crate) struct Amid {
    /// Whether one is of lead-in or lead-out.
    pub(crate) ended: bool,
    /// How many show a number between the two, on both lines in pass 1.
    pub(crate) shown: u64,
}

/// Whether two fields are of one still.
fn is_still(here: Place, there: Place) -> bool
    ensures { result ≡ stays here.field here.number there.field there.number }
{
    there.number == here.number && (here.field as u128 + there.field as u128) % 2 == 0
}

/// How many fields at least are too few between two numbers.
fn lacking(pace: Pace, here: Place, there: Place) -> u128
    ensures value { result ≡ lacking pace here there }
    ensures few { here.field < 2 ^ 60 → result < 2 ^ 62 }
{
    let (field, number) = (here.field as u128, u128::from(here.number));
    let (other, count) = (there.field as u128, u128::from(there.number));
    match pace {
        Pace::Video => (field + 2 * count).saturating_sub(other + 2 * number),
        Pace::Film => {
            (2 * field + 5 * count)
                .saturating_sub(2 * other + 5 * number)
                .saturating_sub(1)
                / 2
        }
    }
}

/// By how many fields too few or too many the two are apart, at least.
fn off_by(pace: Pace, here: Place, there: Place) -> u128
    ensures value { result ≡ off_by pace here there }
    ensures few { here.field < 2 ^ 60 → there.field < 2 ^ 60 → result < 2 ^ 63 }
{
    lacking(pace, here, there) + lacking(pace, there, here)
}

/// Whether the disc itself may skip between two numbers.
fn is_open(pace: Pace, numbering: Numbering, here: Place, there: Place) -> bool
    ensures { result ≡ is_open pace numbering here there }
{
    let (from, to) = (
        by_clock(numbering.clock, here),
        by_clock(numbering.clock, there),
    );
    match pace {
        Pace::Video => {
            let few = lacking(pace, from, to);
            // The clock leaves out one number in 1,000, or two at the start of a minute, of two fields each.
            numbering.has_clock() && (few == 2 || few == 4)
        }
        Pace::Film => {
            let off = off_by(pace, from, to);
            // Where film is cut the turns of two and three fields begin anew, which moves a number by one field.
            let cut = u64::from(here.number) + 1 < u64::from(there.number) && off == 1;
            // A disc of film may have a stretch of video.
            goes_on(Pace::Video, 0, here, there) || cut
        }
    }
}

/// What lies between two numbers that don't go on.
fn kind(rule: Rule, ended: bool, here: Place, there: Place) -> u32
    ensures { result ≡ kind_of rule ended here there }
{
    let clock = rule.numbering.clock;
    // The last number of a side may stay beside its end.
    if rule.numbering.has_stills() && is_still(here, there) {
        STILL
    } else if ended && there.number != here.number {
        JOINED
    } else if there.number < here.number {
        BACK
    } else if is_open(rule.pace, rule.numbering, here, there) {
        OPEN
    } else if lacking(rule.pace, by_clock(clock, here), by_clock(clock, there)) > 0 {
        LOST
    } else {
        HELD
    }
}

/// By how many fields they don't.
fn fields(rule: Rule, kind: u32, pair: Neighbours) -> u64
    ensures { result ≡ fields_of rule kind pair.here pair.there }
{
    let (here, there) = (pair.here, pair.there);
    if kind == LOST {
        (lacking(rule.pace, here, there) as u64).saturating_sub(rule.slack)
    } else if kind == HELD {
        (lacking(rule.pace, there, here) as u64).saturating_sub(rule.slack)
    } else if kind == STILL {
        (there.field - here.field) as u64
    } else if kind == OPEN {
        off_by(rule.pace, here, there) as u64
    } else {
        0
    }
}

/// The gap between two numbers, or none if they go on.
pub(crate) fn between(rule: Rule, amid: Amid, pair: Neighbours) -> Option<Gap>
    ensures { result ≡ gap_of rule amid pair.here pair.there }
{
    let clock = rule.numbering.clock;
    let by = Neighbours {
        here: by_clock(clock, pair.here),
        there: by_clock(clock, pair.there),
    };
    if goes_on(rule.pace, rule.slack, by.here, by.there) {
        return None;
    }
    let kind = kind(rule, amid.ended, pair.here, pair.there);
    Some(Gap {
        after: pair.here.field,
        before: pair.there.field,
        fields: fields(rule, kind, by),
        shown: amid.shown,
        from: pair.here.number,
        to: pair.there.number,
        kind,
    })
}

/// The numbers that two others skip, but for those that the clock leaves out.
pub(crate) fn skipped(clock: Clock, from: u32, to: u32) -> u64
    ensures { result ≡ skipped clock from to }
{
    let numbers = clock.kept(to).saturating_sub(clock.kept(from));
    u64::from(numbers.saturating_sub(1))
}

impl Gap {
    /// The place before it.
    pub(crate) fn from_place(self) -> Place
        ensures { result ≡ from_of self }
    {
        Place {
            field: self.after,
            number: self.from,
        }
    }

    /// The place after it.
    pub(crate) fn to_place(self) -> Place
        ensures { result ≡ to_of self }
    {
        Place {
            field: self.before,
            number: self.to,
        }
    }

    /// Its fields, if it is of this kind.
    pub(crate) fn fields_if(self, kind: u32) -> u64
        ensures { result ≡ fields_if kind self }
    {
        if self.kind == kind { self.fields } else { 0 }
    }

    /// One, if it is of this kind.
    pub(crate) fn one_if(self, kind: u32) -> u64
        ensures { result ≡ one_if kind self }
    {
        if self.kind == kind { 1 } else { 0 }
    }

    /// The numbers between its own that its fields show or could show.
    fn shown_most(self) -> u64
        requires { self.after < self.before }
        ensures { result ≡ shown_most self }
    {
        self.shown.max(((self.before - self.after - 1) / 2) as u64)
    }

    /// The numbers that are lost in it, at least.
    pub(crate) fn lost_numbers(self, clock: Clock) -> u64
        requires { self.after < self.before }
        ensures { result ≡ lost_of clock self }
    {
        if self.kind == LOST {
            skipped(clock, self.from, self.to).saturating_sub(self.shown_most())
        } else {
            0
        }
    }

    /// The further ones of which it isn't known.
    pub(crate) fn undecided(self, clock: Clock) -> u64
        requires { self.after < self.before }
        ensures { result ≡ undecided_of clock self }
    {
        if self.kind == LOST {
            skipped(clock, self.from, self.to).min(self.shown_most())
        } else if self.kind == OPEN {
            skipped(clock, self.from, self.to)
        } else {
            0
        }
    }
}
