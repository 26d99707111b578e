//! The readings that a story tells, one after the other.

ghost use Rattle.std.specs.Prelude.{◌≡◌, ◌≤◌, length, take};
ghost use Rattle.vbi_story.specs.Story.{picked};

use crate::reading::{NumberReading, reading_at};

/// Writes the readings that are marked, one after the other, and returns how many these are. There has to be room for
/// them: a story tells at most one reading of a field.
pub fn tell(readings: &[NumberReading], marks: &[bool], told: &mut [NumberReading]) -> usize
    requires marks_are { length marks.now ≡ length readings.now }
    requires room { length (picked readings.now marks.now) ≤ length told.old }
    ensures count { result ≡ length (picked readings.now marks.now) }
    ensures told { take result told.new ≡ picked readings.now marks.now }
{
    let mut count = 0;
    for place in 0..readings.len() {
        if marks[place] {
            told[count] = reading_at(readings, place);
            count += 1;
        }
    }
    count
}
