//! What stands best before a reading.

ghost use Rattle.std.specs.Prelude.{List, ◌≡◌, ◌⊎◌, ℕ, ◌+◌, ◌<◌, ◌≤◌, length, slice_index, Some, None, true};
ghost use Rattle.vbi_story.specs.declared.reading.NumberReading.{NumberReading};
ghost use Rattle.vbi_story.specs.Story.{is_near, near, near_reach};
ghost use Rattle.vbi_story.specs.Working.{place_at, IsNearStep, IsReached, Covers, AreEntered};

use crate::place::place_in;
use crate::reading::{FAR, NEAR, NEAR_REACH};
use crate::table::Entered;

/// What a story brings to a reading, and the place of the reading before it, if there is one.
#[derive(Clone, Copy)]
pub(crate) struct Before {
    pub(crate) worth: u32,
    pub(crate) origin: Option<usize>,
}

/// The better of what was found so far and a step of this price from another reading.
fn better(values: &[u32], so_far: Before, from: Option<usize>, price: u32) -> Before
    requires { (k : ℕ) → from ≡ Some k → k < length values.now }
    ensures kept { so_far.worth ≤ result.worth }
    ensures covers { (k : ℕ) → from ≡ Some k → slice_index values.now k ≤ result.worth + price }
    ensures either { (result ≡ so_far) ⊎ ((k : ℕ) × (from ≡ Some k) × (result.origin ≡ Some k)
        × (result.worth + price ≡ slice_index values.now k)) }
{
    match from {
        Some(place) => {
            let worth = values[place].saturating_sub(price);
            if worth > so_far.worth {
                Before {
                    worth,
                    origin: Some(place),
                }
            } else {
                so_far
            }
        }
        None => so_far,
    }
}

/// The place of the best on the row that is `NEAR_REACH` below this one, if there are so many and one is on it.
fn best_on_shifted(best_on: &[u32], shifted: usize) -> Option<usize>
    ensures some { (k : ℕ) → result ≡ Some k
        → (other : ℕ) × (other + near_reach ≡ shifted) × (place_at best_on.now other ≡ Some k) }
    ensures all { (other : ℕ) → other + near_reach ≡ shifted → result ≡ place_at best_on.now other }
{
    if shifted < NEAR_REACH {
        return None;
    }
    match best_on.get(shifted - NEAR_REACH) {
        Some(word) => place_in(*word),
        None => None,
    }
}

/// The better of what was found so far and a step from a near row.
fn better_of_near(values: &[u32], best_on: &[u32], row: u32, so_far: Before) -> Before
    requires inside { (other k : ℕ) → place_at best_on.now other ≡ Some k → k < length values.now }
    ensures kept { so_far.worth ≤ result.worth }
    ensures covers { (other k : ℕ) → is_near other row ≡ true → place_at best_on.now other ≡ Some k
        → slice_index values.now k ≤ result.worth + near }
    ensures either { IsNearStep values.now best_on.now row so_far result }
{
    let mut best = so_far;
    for offset in 0..2 * NEAR_REACH + 1 {
        let from = best_on_shifted(best_on, row as usize + offset);
        best = better(values, best, from, NEAR);
    }
    best
}

/// What stands best before a reading on this row, of the first so many readings that are entered.
pub(crate) fn best_before(values: &[u32], best_on: &[u32], entered: Entered, row: u32) -> Before
    requires row_is { row < length best_on.now }
    requires inside { (other k : ℕ) → place_at best_on.now other ≡ Some k → k < length values.now }
    requires top_inside { (k : ℕ) → entered.top ≡ Some k → k < length values.now }
    ensures reached { (readings : List NumberReading)
        → AreEntered readings values.now entered.count entered.top best_on.now
        → IsReached readings values.now entered.count row result }
    ensures covers { (readings : List NumberReading)
        → AreEntered readings values.now entered.count entered.top best_on.now
        → Covers readings values.now entered.count row result }
{
    let none = Before {
        worth: 0,
        origin: None,
    };
    let here = place_in(best_on[row as usize]);
    let same = better(values, none, here, 0);
    let close = better_of_near(values, best_on, row, same);
    better(values, close, entered.top, FAR)
}
