//! The number that is due in a field, by the believed ones around it.
//!
//! Only what leaves no choice is due. The nearest believed numbers before and after that lie whole pictures away have
//! to count to one number: on video the second field of a picture has no number of its own on most discs, and on film
//! one cannot say which field of five begins a picture. No believed number between the two may be off from it, so that
//! nothing was lost there. If a field shows a chapter or the lead-in, the disc has no number, and none is due. Nor
//! is one due if both lines show the same number, since both were hardly misread alike.

ghost use Rattle.std.specs.Prelude.{◌≡◌, ◌↔◌, ℕ, ◌<◌, ◌≤◌, ◌+◌, ◌*◌, ◌-◌, true, length, Some, None, IfSome};
ghost use Rattle.vbi_side.specs.Nearest.{are_whole, IsBefore, IsAfter, NoneBefore, NoneAfter, AllPass};
ghost use Rattle.vbi_side.specs.{Beliefs.reach, Beliefs.Believed, DueNumbers.slack_of, DueNumbers.IsLeft};
ghost use Rattle.vbi_side.specs.{DueNumbers.Due, Numbers.IsMarked, Paces.Count, Paces.nearly};

use crate::belief::REACH;
use crate::number::Number;
use crate::pace::Pace;
use crate::place::{Place, believed_at, goes_on};
use crate::sighting::Sightings;

/// The fields to which two numbers may be apart that allow one between them to be off by a field, since a disc may have
/// its number on both fields of a picture: four pictures, the first and the last of which count to one number anyway.
const CLOSE: usize = 8;

/// Whether this many fields last whole pictures.
fn are_whole(pace: Pace, fields: usize) -> bool
    ensures { result ≡ are_whole pace fields }
{
    match pace {
        Pace::Video => fields % 2 == 0,
        Pace::Film => fields % 5 == 0,
    }
}

/// The nearest field before this one, within reach and whole pictures away, with a believed number.
fn before(numbers: &[Number], pace: Pace, field: usize) -> Option<Place>
    requires { field < length numbers.now }
    ensures some { IfSome result (λ place. IsBefore (IsMarked numbers.now) pace field place.field place.number) }
    ensures none { result ≡ None → NoneBefore (IsMarked numbers.now) pace field }
{
    for distance in 1..REACH + 1 {
        if distance > field {
            return None;
        }
        let found = believed_at(numbers, field - distance);
        if are_whole(pace, distance) && found.is_some() {
            return found;
        }
    }
    None
}

/// The nearest field after this one, within reach and whole pictures away, with a believed number.
fn after(numbers: &[Number], pace: Pace, field: usize) -> Option<Place>
    requires { field < length numbers.now }
    ensures some { IfSome result (λ place. (place.field < length numbers.now)
        × IsAfter (IsMarked numbers.now) pace field place.field place.number) }
    ensures none { result ≡ None → NoneAfter (IsMarked numbers.now) pace field }
{
    for distance in 1..REACH + 1 {
        let place = field + distance;
        if place >= numbers.len() {
            return None;
        }
        let found = believed_at(numbers, place);
        if are_whole(pace, distance) && found.is_some() {
            return found;
        }
    }
    None
}

/// The pictures that this many fields last, which are whole ones.
fn pictures(pace: Pace, fields: usize) -> u64
    requires whole { are_whole pace fields ≡ true }
    requires few { fields ≤ reach }
    ensures counted { (i m : ℕ) → Count pace i m (i + fields) (m + result) }
    ensures range { result ≤ reach }
{
    let fields = fields as u64;
    match pace {
        Pace::Video => fields / 2,
        Pace::Film => 2 * (fields / 5),
    }
}

/// The number to which both of two others count in a field between them.
fn counted(pace: Pace, before: Place, after: Place, field: usize) -> Option<u32>
    requires first { before.field < field }
    requires last { field < after.field }
    requires near { field ≤ before.field + reach }
    requires far { after.field ≤ field + reach }
    requires whole { are_whole pace (field - before.field) ≡ true }
    requires wholes { are_whole pace (after.field - field) ≡ true }
    ensures { (n : ℕ) → (result ≡ Some n)
        ↔ (Count pace before.field before.number field n × Count pace field n after.field after.number) }
{
    let number = u64::from(before.number) + pictures(pace, field - before.field);
    if number + pictures(pace, after.field - field) == u64::from(after.number) {
        Some(number as u32)
    } else {
        None
    }
}

/// By how many fields a number between two fields may be off.
fn slack_of(before: usize, after: usize) -> u64
    requires { before ≤ after }
    ensures value { result ≡ slack_of before after }
    ensures range { result ≤ 1 }
{
    if after - before <= CLOSE { 1 } else { 0 }
}

/// Whether no believed number between two places is off from that of one between them.
fn all_nearly(numbers: &[Number], pace: Pace, before: Place, after: Place, here: Place) -> bool
    requires first { before.field < here.field }
    requires last { here.field < after.field }
    requires within { after.field < length numbers.now }
    ensures { (result ≡ true) ↔ AllPass (IsMarked numbers.now)
        (nearly pace (slack_of before.field after.field) here) before.field after.field }
{
    let slack = slack_of(before.field, after.field);
    for field in before.field + 1..after.field {
        let other = numbers[field];
        let there = Place {
            field,
            number: other.number,
        };
        if other.is_believed() && !goes_on(pace, slack, here, there) {
            return false;
        }
    }
    true
}

/// The number that the believed ones around a field leave for it.
fn left_around(numbers: &[Number], pace: Pace, field: usize) -> Option<u32>
    requires { field < length numbers.now }
    ensures { (n : ℕ) → (result ≡ Some n) ↔ IsLeft (IsMarked numbers.now) pace field n }
{
    let before = before(numbers, pace, field)?;
    let after = after(numbers, pace, field)?;
    let number = counted(pace, before, after, field)?;
    if all_nearly(numbers, pace, before, after, Place { field, number }) {
        Some(number)
    } else {
        None
    }
}

/// The number that is due in a field, if one is. `numbers` has at each field what is believed of it.
pub(crate) fn number_due(
    fields: &[Sightings],
    pace: Pace,
    numbers: &[Number],
    field: usize,
) -> Option<u32>
    requires inside { field < length fields.now }
    requires same { length numbers.now ≡ length fields.now }
    requires marked { (i n : ℕ) → IsMarked numbers.now i n ↔ Believed pace fields.now i n }
    ensures { (n : ℕ) → (result ≡ Some n) ↔ Due pace fields.now field n }
{
    let seen = &fields[field];
    if numbers[field].is_believed() || seen.shows_instead() || seen.shows_twice() {
        return None;
    }
    left_around(numbers, pace, field)
}
