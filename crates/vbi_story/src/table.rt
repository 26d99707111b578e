//! The best of the readings of earlier fields.

ghost use Rattle.std.specs.Prelude.{◌≡◌, ◌⊎◌, ℕ, ◌+◌, ◌<◌, ◌≤◌, ◌^◌, length, slice_index, Some};
ghost use Rattle.vbi_story.specs.Story.{reading_at, AreReadings};
ghost use Rattle.vbi_story.specs.Working.{AreEntered};

use crate::place::{place_in, word_of};
use crate::reading::{NumberReading, reading_at};

/// How many readings are entered, and the place of the one with the greatest value.
#[derive(Clone, Copy)]
pub(crate) struct Entered {
    pub(crate) count: usize,
    pub(crate) top: Option<usize>,
}

/// The place of the greater of two values, of which the first may be missing.
pub(crate) fn greater(values: &[u32], old: Option<usize>, new: usize) -> usize
    requires old_in { (k : ℕ) → old ≡ Some k → k < length values.now }
    requires new_in { new < length values.now }
    ensures inside { result < length values.now }
    ensures either { (result ≡ new) ⊎ (old ≡ Some result) }
    ensures old { (k : ℕ) → old ≡ Some k → slice_index values.now k ≤ slice_index values.now result }
    ensures new { slice_index values.now new ≤ slice_index values.now result }
{
    match old {
        Some(place) => {
            if values[place] < values[new] {
                new
            } else {
                place
            }
        }
        None => new,
    }
}

/// Enters one reading more.
fn enter(
    readings: &[NumberReading],
    values: &[u32],
    best_on: &mut [u32],
    entered: Entered,
) -> Entered
    requires inside { entered.count < length readings.now }
    requires few { length readings.now ≤ 2 ^ 28 }
    requires values_are { length values.now ≡ length readings.now }
    requires readings { AreReadings (length best_on.old) readings.now }
    requires entered { AreEntered readings.now values.now entered.count entered.top best_on.old }
    ensures count { result.count ≡ entered.count + 1 }
    ensures entered { AreEntered readings.now values.now result.count result.top best_on.new }
{
    let place = entered.count;
    let row = reading_at(readings, place).row as usize;
    let old = place_in(best_on[row]);
    let best = greater(values, old, place);
    let word = word_of(Some(best));
    best_on[row] = word;
    let top = greater(values, entered.top, place);
    Entered {
        count: place + 1,
        top: Some(top),
    }
}

/// Enters the readings of the fields before that of the reading at this place.
pub(crate) fn enter_before(
    readings: &[NumberReading],
    values: &[u32],
    best_on: &mut [u32],
    entered: Entered,
    place: usize,
) -> Entered
    requires inside { place < length readings.now }
    requires few { length readings.now ≤ 2 ^ 28 }
    requires values_are { length values.now ≡ length readings.now }
    requires readings { AreReadings (length best_on.old) readings.now }
    requires entered { AreEntered readings.now values.now entered.count entered.top best_on.old }
    requires count { entered.count ≤ place }
    requires earlier { (k : ℕ) → k < entered.count
        → (reading_at readings.now k).field < (reading_at readings.now place).field }
    ensures entered { AreEntered readings.now values.now result.count result.top best_on.new }
    ensures count { result.count ≤ place }
    ensures earlier { (k : ℕ) → k < result.count
        → (reading_at readings.now k).field < (reading_at readings.now place).field }
    ensures later { (k : ℕ) → result.count ≤ k → k < length readings.now
        → (reading_at readings.now place).field ≤ (reading_at readings.now k).field }
{
    let field = reading_at(readings, place).field;
    let mut now = entered;
    while now.count < place && reading_at(readings, now.count).field < field {
        now = enter(readings, values, best_on, now);
    }
    now
}
