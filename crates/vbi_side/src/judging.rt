//! What is answered of each field.

ghost use Rattle.std.specs.Prelude.{◌≡◌, ◌↔◌, ℕ, ◌<◌, ◌≤◌, length, Some, slice_get, Option};
ghost use Rattle.vbi_side.specs.Numbers.{AreAnswers, AreMarks, IsAnswer, IsMark};
ghost use Rattle.vbi_side.specs.Parts.{part_most};

use crate::belief::{REACH, judge_field};
use crate::due_numbers::number_due;
use crate::number::{NOTHING, Number};
use crate::pace::Pace;
use crate::sighting::Sightings;

/// The most fields on which the answer of one depends: itself, and those within twice the reach before and after.
pub const PART: usize = 4 * REACH + 1;

/// The believed number of a field, or what it shows in doubt.
fn marked(fields: &[Sightings], pace: Pace, field: usize) -> Number
    requires { field < length fields.now }
    ensures { IsMark pace fields.now field result }
{
    match judge_field(fields, pace, field) {
        Some(number) => Number::believed(number),
        None => Number::doubtful(&fields[field]),
    }
}

/// Answers of each field its believed number, or what it shows in doubt.
fn mark(fields: &[Sightings], pace: Pace, numbers: &mut [Number])
    requires { length numbers.old ≡ length fields.now }
    ensures { AreMarks pace fields.now numbers.new }
{
    for field in 0..fields.len() {
        numbers[field] = marked(fields, pace, field);
    }
}

/// Gives each field without a believed number the one that is due, if one is.
fn fill(fields: &[Sightings], pace: Pace, numbers: &mut [Number])
    requires { AreMarks pace fields.now numbers.old }
    ensures { AreAnswers pace fields.now numbers.new }
{
    // Written over what is read: a due number isn't believed, so those filled in before count for no later field.
    for field in 0..numbers.len() {
        if let Some(number) = number_due(fields, pace, numbers, field) {
            numbers[field] = Number::due(number);
        }
    }
}

/// The number of each field: believed, due, in doubt, or none. `sound`, `sound_still` and `due_sound` say when these
/// are the disc's.
pub fn judge(fields: &[Sightings], pace: Pace, numbers: &mut [Number])
    requires { length numbers.old ≡ length fields.now }
    ensures { AreAnswers pace fields.now numbers.new }
{
    mark(fields, pace, numbers);
    fill(fields, pace, numbers);
}

/// The number of one field of a part of a capture: believed, due, in doubt, or none. If the part has the 48 fields
/// on either side of this one, or all that the capture has there, it is that of the whole capture (`same_in_part`).
pub fn judge_one(fields: &[Sightings], pace: Pace, field: usize) -> Number
    requires few { length fields.now ≤ part_most }
    requires inside { field < length fields.now }
    ensures { IsAnswer pace fields.now field result }
{
    let nothing = Number {
        number: 0,
        state: NOTHING,
    };
    let mut all_numbers = [nothing; PART];
    let numbers = &mut all_numbers[..fields.len()];
    judge(fields, pace, numbers);
    numbers[field]
}
