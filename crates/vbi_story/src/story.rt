//! The story that is worth most.

ghost use Rattle.std.specs.Prelude.{◌≡◌, ◌+◌, ◌≤◌, ◌^◌, length};
ghost use Rattle.vbi_story.specs.Story.{picked, IsBest, AreReadings, price, weight};

use crate::judge::{greatest, judge_all, value_of};
use crate::reading::NumberReading;
use crate::walk::walk_back;

/// Marks the readings of a story that is worth as much as any, and returns what it is worth. The room is the caller's:
/// `best_on` has a place for each row, the others for each reading, and what they hold before is not looked at.
pub fn decode(
    readings: &[NumberReading],
    values: &mut [u32],
    origins: &mut [u32],
    best_on: &mut [u32],
    marks: &mut [bool],
) -> u32
    requires few { length readings.now ≤ 2 ^ 28 }
    requires readings { AreReadings (length best_on.old) readings.now }
    requires values_are { length values.old ≡ length readings.now }
    requires origins_are { length origins.old ≡ length readings.now }
    requires marks_are { length marks.old ≡ length readings.now }
    ensures best { IsBest readings.now (picked readings.now marks.new) }
    ensures worth { result + price (picked readings.now marks.new) ≡ weight (picked readings.now marks.new) }
{
    judge_all(readings, values, origins, best_on);
    let last = greatest(values);
    walk_back(origins, last, marks);
    value_of(values, last)
}
