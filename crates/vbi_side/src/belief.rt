//! Which numbers are believed.
//!
//! The code has no check digit: a misread word is a number like any other. What tells them apart is the disc, whose
//! numbers go on at a known pace. So each sighting of a number in the 49 fields around one (24 before it, itself, 24
//! after) is asked whether it **fits**: whether the two numbers are as far apart as their fields. What fits is
//! weighed, 2 for a word of pass 1 and 1 for a word of pass 2, and from 10 on the number is believed: that is five
//! lines in pass 1. If the field's two lines show two numbers, the one with more support is believed, and none if
//! both have as much.
//!
//! The bound of 10 is what the laws rest on: if less than 10 was misread around a field, a believed number is right
//! (`sound`), and with 10 a wrong one may be believed (`worked_sides`). A player that stands still breaks the pace, and
//! shows one number in every second field. So numbers may fit as those of a **still** too, but there 4 are taken off:
//! if a disc runs on, and a number is misread as one that another field rightly shows, that field would stand by the
//! misread one as by a still's, and its two lines weigh up to 4.
//!
//! A field within reach is counted by its `offset` from the first of the 49, so that no distance is negative, and
//! places and numbers are compared by sums and products, with nothing to divide or to round. On film 2 pictures last 5
//! fields, so a picture needn't begin where its number says, and numbers fit to within one field.
//!
//! chapters.rt weighs chapters by the same sums.
//!
//! judging.rt asks `judge_field` of each field, and pace_search.rt counts what is believed at each pace to find the
//! disc's. due_numbers.rt fills in what the believed numbers leave. gap.rt and verdict.rt say by these numbers where a
//! side doesn't go on, and whether it is whole; the Python package believes the same ones, and names what is missing
//! between them (docs/SIDES.md).
//!
//! A change of a bound changes `specs/Beliefs.antt`, the laws and worked sides that are sharp at it (`Truth.antt`,
//! `Worked.antt`), include/ldvbi.h, docs/PROMISES.md, and the plain judge in C that `bench/judge.c` compares this one
//! with.

ghost use Rattle.std.specs.Prelude.{◌≡◌, ◌↔◌, ℕ, ◌+◌, ◌*◌, ◌-◌, ◌≤◌, ◌<◌, length, Some, true};
ghost use Rattle.vbi_side.specs.Beliefs.{reach, enough, field_most, sighting_weight, weight_at, window_weight};
ghost use Rattle.vbi_side.specs.{Beliefs.support_of, Beliefs.Believed, Ahead.fits_as, Ahead.IsAhead, Ahead.IsBelieved};
ghost use Rattle.vbi_side.specs.{Paces.spot};

use crate::pace::Pace;
use crate::sighting::{Sighting, Sightings};

/// The fields that are looked at on either side of one: 12 pictures, about half a second. With more, a number beside a
/// jump is outweighed by those beyond it; with fewer, worn fields find too little support.
pub const REACH: usize = 24;

/// The fields that are looked at for one, itself among them.
const WINDOW: usize = 2 * REACH + 1;

/// The weight from which on a number is believed: five lines of pass 1, so that no two fields bring it about, were each
/// of their four lines misread alike.
pub const ENOUGH: u32 = 10;

/// The most that one field's sightings weigh.
pub(crate) const FIELD_MOST: u32 = 4;

/// How a sighting may stand to a number.
#[derive(Clone, Copy)]
pub(crate) enum Fit {
    /// A number that fits at the disc's pace.
    Runs(Pace),
    /// A number that fits as of one still.
    Stays,
    /// A code that says the chapter.
    Says,
    /// A code that speaks against the chapter: a later one that stands before it, or an earlier one after it.
    Opposes,
}

/// Whether `other` of field i + offset - `REACH` stands in this way to `number` of field i.
fn fits_as(fit: Fit, number: u32, offset: usize, other: u32) -> bool
    requires { offset ≤ 2 * reach }
    ensures { (i : ℕ) → reach ≤ i + offset → result ≡ fits_as fit i number (i + offset - reach) other }
{
    let (wide_number, wide_other) = (u64::from(number), u64::from(other));
    let (offset, middle) = (offset as u64, REACH as u64);
    match fit {
        Fit::Stays => other == number && offset % 2 == 0,
        Fit::Runs(Pace::Video) => offset + 2 * wide_number == middle + 2 * wide_other,
        Fit::Runs(Pace::Film) => {
            let here = 2 * offset + 5 * wide_number;
            let there = 2 * middle + 5 * wide_other;
            here <= there + 2 && there <= here + 2
        }
        Fit::Says => other == number,
        Fit::Opposes => (offset <= middle && number < other)
            || (middle <= offset && other < number),
    }
}

/// The weight of a sighting, if it fits.
fn weight_where_it_fits(fit: Fit, number: u32, offset: usize, sighting: &Sighting) -> u32
    requires { offset ≤ 2 * reach }
    ensures value { (i : ℕ) → reach ≤ i + offset
        → result ≡ sighting_weight (fits_as fit i number (i + offset - reach)) sighting.now }
    ensures range { result ≤ 2 }
{
    if sighting.is_seen() && fits_as(fit, number, offset, sighting.number) {
        sighting.counts()
    } else {
        0
    }
}

/// The weight of what fits a number of this field in the one that is `offset - REACH` fields after it.
fn weight_of_other(fields: &[Sightings], fit: Fit, field: usize, number: u32, offset: usize) -> u32
    requires inside { field < length fields.now }
    requires near { offset ≤ 2 * reach }
    ensures value { result ≡ weight_at (fits_as fit field number) fields.now field offset }
    ensures range { result ≤ field_most }
{
    if field + offset < REACH {
        return 0;
    }
    match fields.get(field + offset - REACH) {
        Some(other) => {
            weight_where_it_fits(fit, number, offset, &other.line_17)
                + weight_where_it_fits(fit, number, offset, &other.line_18)
        }
        None => 0,
    }
}

/// The weight of the sightings within reach of a field that fit this number there.
#[tactic(auto, using(crate::proofs::Weights::weight_below_more))]
pub(crate) fn weight_around(fields: &[Sightings], fit: Fit, field: usize, number: u32) -> u32
    requires { field < length fields.now }
    ensures { result ≡ window_weight (fits_as fit field number) fields.now field }
{
    let mut weight = 0;
    for offset in 0..WINDOW {
        weight += weight_of_other(fields, fit, field, number, offset);
    }
    weight
}

/// What supports this number in a field: the weight of the sightings within reach that fit it at the disc's pace, its
/// own among them, or of those that are of one still with it, less 4.
pub fn support(fields: &[Sightings], pace: Pace, field: usize, number: u32) -> u32
    requires { field < length fields.now }
    ensures { result ≡ support_of pace fields.now field number }
{
    let running = weight_around(fields, Fit::Runs(pace), field, number);
    let still = weight_around(fields, Fit::Stays, field, number);
    running.max(still.saturating_sub(FIELD_MOST))
}

/// Whether the sightings within reach of a field that fit this number there weigh so much.
pub(crate) fn reaches(
    fields: &[Sightings],
    fit: Fit,
    field: usize,
    number: u32,
    wanted: u32,
) -> bool
    requires inside { field < length fields.now }
    requires some { 1 ≤ wanted }
    ensures { (result ≡ true) ↔ (wanted ≤ window_weight (fits_as fit field number) fields.now field) }
{
    let mut weight = 0;
    for offset in 0..WINDOW {
        weight += weight_of_other(fields, fit, field, number, offset);
        // A right number mostly has enough long before the window's end.
        if weight >= wanted {
            return true;
        }
    }
    false
}

/// Whether enough supports this number in a field. The stills are looked at only if it doesn't run.
fn is_supported(fields: &[Sightings], pace: Pace, field: usize, number: u32) -> bool
    requires { field < length fields.now }
    ensures { (result ≡ true) ↔ (enough ≤ support_of pace fields.now field number) }
{
    reaches(fields, Fit::Runs(pace), field, number, ENOUGH)
        || reaches(fields, Fit::Stays, field, number, ENOUGH + FIELD_MOST)
}

/// Whether another number that the field shows has less support.
fn is_ahead(fields: &[Sightings], pace: Pace, field: usize, number: u32, other: &Sighting) -> bool
    requires { field < length fields.now }
    ensures { (result ≡ true) ↔ IsAhead pace fields.now field number other.now }
{
    if !other.is_seen() || other.number == number {
        return true;
    }
    support(fields, pace, field, other.number) < support(fields, pace, field, number)
}

/// The number of a sighting, if it is believed in this field, whose other sighting is given.
fn believed(
    fields: &[Sightings],
    pace: Pace,
    field: usize,
    sighting: &Sighting,
    other: &Sighting,
) -> Option<u32>
    requires { field < length fields.now }
    ensures { (n : ℕ) → (result ≡ Some n) ↔ IsBelieved pace fields.now (spot field n) sighting.now other.now }
{
    let number = sighting.number;
    let is_believed = sighting.is_seen()
        && is_supported(fields, pace, field, number)
        && is_ahead(fields, pace, field, number, other);
    is_believed.then_some(number)
}

/// The number that is believed of a field, if one is.
pub fn judge_field(fields: &[Sightings], pace: Pace, field: usize) -> Option<u32>
    requires { field < length fields.now }
    ensures { (n : ℕ) → (result ≡ Some n) ↔ Believed pace fields.now field n }
{
    let seen = &fields[field];
    match believed(fields, pace, field, &seen.line_17, &seen.line_18) {
        Some(number) => Some(number),
        None => believed(fields, pace, field, &seen.line_18, &seen.line_17),
    }
}
