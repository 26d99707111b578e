//! The value of each reading: what the best story that ends at it is worth.

ghost use Rattle.std.specs.Prelude.{◌≡◌, ℕ, ◌+◌, ◌*◌, ◌<◌, ◌≤◌, ◌^◌, length, slice_set, slice_index, None, Some};
ghost use Rattle.vbi_story.specs.Story.{reading_at, AreReadings};
ghost use Rattle.vbi_story.specs.Working.{AreEntered, AreJudged, value_of};

use crate::before::best_before;
use crate::place::{NO_PLACE, word_of};
use crate::reading::{NumberReading, reading_at};
use crate::table::{Entered, enter_before, greater};

/// Judges one reading more.
fn judge_one(
    readings: &[NumberReading],
    values: &mut [u32],
    origins: &mut [u32],
    best_on: &[u32],
    entered: Entered,
    place: usize,
)
    requires inside { place < length readings.now }
    requires few { length readings.now ≤ 2 ^ 28 }
    requires values_are { length values.old ≡ length readings.now }
    requires origins_are { length origins.old ≡ length readings.now }
    requires readings { AreReadings (length best_on.now) readings.now }
    requires entered { AreEntered readings.now values.old entered.count entered.top best_on.now }
    requires count { entered.count ≤ place }
    requires earlier { (k : ℕ) → k < entered.count
        → (reading_at readings.now k).field < (reading_at readings.now place).field }
    requires later { (k : ℕ) → entered.count ≤ k → k < length readings.now
        → (reading_at readings.now place).field ≤ (reading_at readings.now k).field }
    requires judged { AreJudged readings.now values.old origins.old place }
    ensures entered { AreEntered readings.now values.new entered.count entered.top best_on.now }
    ensures judged { AreJudged readings.now values.new origins.new (place + 1) }
{
    let reading = reading_at(readings, place);
    let before = best_before(values, best_on, entered, reading.row);
    values[place] = before.worth + reading.weight;
    let word = word_of(before.origin);
    origins[place] = word;
}

/// Judges each reading.
pub(crate) fn judge_all(
    readings: &[NumberReading],
    values: &mut [u32],
    origins: &mut [u32],
    best_on: &mut [u32],
)
    requires few { length readings.now ≤ 2 ^ 28 }
    requires values_are { length values.old ≡ length readings.now }
    requires origins_are { length origins.old ≡ length readings.now }
    requires readings { AreReadings (length best_on.old) readings.now }
    ensures { AreJudged readings.now values.new origins.new (length readings.now) }
{
    for row in best_on.iter_mut() {
        *row = NO_PLACE;
    }
    let mut entered = Entered {
        count: 0,
        top: None,
    };
    for place in 0..readings.len() {
        entered = enter_before(readings, values, best_on, entered, place);
        judge_one(readings, values, origins, best_on, entered, place);
    }
}

/// The place of the greatest value.
pub(crate) fn greatest(values: &[u32]) -> Option<usize>
    ensures inside { (k : ℕ) → result ≡ Some k → k < length values.now }
    ensures covers { (k : ℕ) → k < length values.now
        → (top : ℕ) × (result ≡ Some top) × (slice_index values.now k ≤ slice_index values.now top) }
{
    let mut top = None;
    for place in 0..values.len() {
        top = Some(greater(values, top, place));
    }
    top
}

/// Returns the value at this place, or 0 if there is none.
pub(crate) fn value_of(values: &[u32], place: Option<usize>) -> u32
    requires { (k : ℕ) → place ≡ Some k → k < length values.now }
    ensures { result ≡ value_of values.now place }
{
    match place {
        Some(place) => values[place],
        None => 0,
    }
}
