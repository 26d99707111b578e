//! A field with the number that is believed of it, how two of them go on, and the first and the last one of a capture.

ghost use Rattle.std.specs.Prelude.{◌≡◌, ℕ, ◌+◌, ◌-◌, ◌*◌, ◌<◌, ◌≤◌, ◌^◌, length, IfSome, None};
ghost use Rattle.vbi_side.specs.{Clocks.by_clock, Clocks.nearly_by, Numbers.IsMarked, Paces.spot, Paces.nearly};

use crate::clock::Clock;
use crate::number::Number;
use crate::pace::Pace;

/// A field with its number.
#[derive(Clone, Copy)]
pub struct Place {
    pub field: usize,
    pub number: u32,
}

/// Where a number stands among those that the disc has.
pub fn by_clock(clock: Clock, here: Place) -> Place
    ensures { result ≡ by_clock clock here }
{
    Place {
        field: here.field,
        number: clock.kept(here.number),
    }
}

/// Whether numbers go on from one field to another, to within this many fields.
pub fn nearly(pace: Pace, slack: u64, field: u128, number: u32, other: u128, count: u32) -> bool
    requires far { (field < 2 ^ 100) × (other < 2 ^ 100) }
    ensures { result ≡ nearly pace slack (spot field number) (spot other count) }
{
    let (number, count, slack) = (u128::from(number), u128::from(count), u128::from(slack));
    match pace {
        Pace::Video => {
            other + 2 * number <= field + 2 * count + slack
                && field + 2 * count <= other + 2 * number + slack
        }
        Pace::Film => {
            2 * other + 5 * number <= 2 * field + 5 * count + 2
                && 2 * field + 5 * count <= 2 * other + 5 * number + 2
        }
    }
}

/// Whether two numbers go on, to within this many fields.
pub fn goes_on(pace: Pace, slack: u64, here: Place, there: Place) -> bool
    ensures { result ≡ nearly pace slack here there }
{
    nearly(
        pace,
        slack,
        here.field as u128,
        here.number,
        there.field as u128,
        there.number,
    )
}

/// Whether two numbers go on by the clock.
pub fn goes_on_by(clock: Clock, pace: Pace, slack: u64, here: Place, there: Place) -> bool
    ensures { result ≡ nearly_by clock pace slack here there }
{
    goes_on(pace, slack, by_clock(clock, here), by_clock(clock, there))
}

/// A field with its number, if one is believed of it.
pub fn believed_at(numbers: &[Number], field: usize) -> Option<Place>
    requires { field < length numbers.now }
    ensures some { IfSome result (λ one. (one.field ≡ field) × IsMarked numbers.now field one.number) }
    ensures none { result ≡ None → (n : ℕ) → IsMarked numbers.now field n → ⊥ }
{
    let answer = numbers[field];
    answer.is_believed().then_some(Place {
        field,
        number: answer.number,
    })
}

/// The first field with a believed number.
pub fn first_believed(numbers: &[Number]) -> Option<Place>
    ensures some { IfSome result (λ one. (one.field < length numbers.now) × IsMarked numbers.now one.field one.number
        × ((i k : ℕ) → i < one.field → IsMarked numbers.now i k → ⊥)) }
    ensures none { result ≡ None → (i k : ℕ) → IsMarked numbers.now i k → ⊥ }
{
    for field in 0..numbers.len() {
        let found = believed_at(numbers, field);
        if found.is_some() {
            return found;
        }
    }
    None
}

/// The last field with a believed number.
pub fn last_believed(numbers: &[Number]) -> Option<Place>
    ensures some { IfSome result (λ one. (one.field < length numbers.now) × IsMarked numbers.now one.field one.number
        × ((i k : ℕ) → one.field < i → IsMarked numbers.now i k → ⊥)) }
    ensures none { result ≡ None → (i k : ℕ) → IsMarked numbers.now i k → ⊥ }
{
    for later in 0..numbers.len() {
        let found = believed_at(numbers, numbers.len() - 1 - later);
        if found.is_some() {
            return found;
        }
    }
    None
}
