//! Whether a disc has its numbers on both fields of a picture.

ghost use Rattle.std.specs.Prelude.{◌≡◌, suc, ◌+◌, ◌<◌, ◌≤◌, ◌^◌, ◌&&◌, if◌then◌else◌, length, Some, IfSome};
ghost use Rattle.vbi_whole.specs.NumbersOnBoth.{place_or, last_known, is_turn, is_odd, turns, odd_turns, is_on_both};
ghost use Rattle.vbi_whole.specs.{NumbersOnBoth.AreSteps};

use vbi_side::{Number, Place};

/// The field with its number, if that is believed, else another one.
fn place_or(other: Option<Place>, field: usize, answer: Number) -> Option<Place>
    requires { IfSome other (λ place. place.field < field) }
    ensures value { result ≡ place_or other field (Some answer) }
    ensures earlier { IfSome result (λ place. place.field < field + 1) }
{
    if answer.is_believed() {
        Some(Place {
            field,
            number: answer.number,
        })
    } else {
        other
    }
}

/// Whether the number is believed, and another than the one before.
fn is_turn(last: Option<Place>, answer: Number) -> bool
    ensures { result ≡ is_turn last (Some answer) }
{
    match last {
        Some(place) => answer.is_believed() && answer.number != place.number,
        None => false,
    }
}

/// Whether the field stands an odd count of fields after the last one with a number, if there is one.
fn is_odd(last: Option<Place>, field: usize) -> bool
    requires far { field < 2 ^ 60 }
    requires before { IfSome last (λ place. place.field < field) }
    ensures { result ≡ is_odd last field }
{
    match last {
        Some(place) => (place.field + field) % 2 == 1,
        None => false,
    }
}

/// Whether the number is believed, and another than the one before, an odd count of fields after it.
fn is_odd_turn(last: Option<Place>, field: usize, answer: Number) -> bool
    requires far { field < 2 ^ 60 }
    requires before { IfSome last (λ place. place.field < field) }
    ensures { result ≡ is_turn last (Some answer) && is_odd last field }
{
    is_turn(last, answer) && is_odd(last, field)
}

/// A count, and one more if that holds.
pub(crate) fn counted(count: usize, holds: bool) -> usize
    requires { count < 2 ^ 60 }
    ensures value { result ≡ if holds then suc count else count }
    ensures few { result ≤ count + 1 }
{
    if holds { count + 1 } else { count }
}

/// How the numbers before the next field follow each other.
#[derive(Clone, Copy)]
struct Steps {
    /// The last number that is believed, with its field.
    last: Option<Place>,
    /// How many numbers are others than the one before them.
    all: usize,
    /// How many of these stand an odd count of fields after it.
    odd: usize,
}

/// The steps before the field after this one.
fn steps_after(numbers: &[Number], field: usize, before: Steps) -> Steps
    requires inside { field < length numbers.now }
    requires before { AreSteps numbers.now field before }
    ensures { AreSteps numbers.now (field + 1) result }
{
    let answer = numbers[field];
    Steps {
        last: place_or(before.last, field, answer),
        all: counted(before.all, is_turn(before.last, answer)),
        odd: counted(before.odd, is_odd_turn(before.last, field, answer)),
    }
}

/// How all numbers follow each other.
fn turns(numbers: &[Number]) -> Steps
    ensures all { result.all ≡ turns numbers.now (length numbers.now) }
    ensures odd { result.odd ≡ odd_turns numbers.now (length numbers.now) }
{
    let mut found = Steps {
        last: None,
        all: 0,
        odd: 0,
    };
    for field in 0..numbers.len() {
        found = steps_after(numbers, field, found);
    }
    found
}

/// Whether numbers stand on both fields of a picture: a quarter or more of those that follow another one stand an odd
/// count of fields after it. On such a disc all do if all fields are read, and the fewer the more fields are worn; on
/// another one each takes a lost field.
pub fn is_on_both(numbers: &[Number]) -> bool
    ensures { result ≡ is_on_both numbers.now }
{
    let found = turns(numbers);
    found.odd > 0 && found.all as u128 <= 4 * found.odd as u128
}
