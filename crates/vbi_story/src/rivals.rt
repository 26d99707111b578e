//! What the stories through each reading are worth at most: the judge's pass, and the same over the readings in a
//! mirror. A reading whose field has a rival that a story worth as much tells is in doubt.

ghost use Rattle.std.specs.Prelude.{◌≡◌, ℕ, ◌+◌, ◌-◌, ◌<◌, ◌≤◌, ◌^◌, length};
ghost use Rattle.vbi_story.specs.Story.{reading_at, AreReadings};
ghost use Rattle.vbi_story.specs.Rivals.{mirror, AreMirrored, AreBounds, AreReached};

use crate::judge::judge_all;
use crate::reading::{NumberReading, reading_at};

/// A reading in a mirror.
fn in_mirror(reading: NumberReading, last_field: u32) -> NumberReading
    requires { reading.field ≤ last_field }
    ensures { result ≡ mirror last_field reading }
{
    NumberReading {
        field: last_field - reading.field,
        number: reading.number,
        row: reading.row,
        weight: reading.weight,
    }
}

/// Writes the readings as a mirror shows them.
fn write_mirrored(readings: &[NumberReading], last_field: u32, mirrored: &mut [NumberReading])
    requires room { length mirrored.old ≡ length readings.now }
    requires in_fields { (i : ℕ) → i < length readings.now → (reading_at readings.now i).field ≤ last_field }
    ensures { AreMirrored last_field readings.now mirrored.new }
{
    for place in 0..readings.len() {
        let reading = reading_at(readings, readings.len() - 1 - place);
        mirrored[place] = in_mirror(reading, last_field);
    }
}

/// Writes of each reading what the best story through it is worth. The room is the caller's, as `decode`'s is,
/// and no field is later than the last.
pub fn bound(
    readings: &[NumberReading],
    last_field: u32,
    mirrored: &mut [NumberReading],
    values: &mut [u32],
    back: &mut [u32],
    origins: &mut [u32],
    best_on: &mut [u32],
    bounds: &mut [u32],
)
    requires few { length readings.now ≤ 2 ^ 28 }
    requires readings { AreReadings (length best_on.old) readings.now }
    requires in_fields { (i : ℕ) → i < length readings.now → (reading_at readings.now i).field ≤ last_field }
    requires mirrored_are { length mirrored.old ≡ length readings.now }
    requires values_are { length values.old ≡ length readings.now }
    requires back_are { length back.old ≡ length readings.now }
    requires origins_are { length origins.old ≡ length readings.now }
    requires bounds_are { length bounds.old ≡ length readings.now }
    ensures most { AreBounds readings.now bounds.new }
    ensures reached { AreReached readings.now bounds.new }
{
    judge_all(readings, values, origins, best_on);
    write_mirrored(readings, last_field, mirrored);
    judge_all(mirrored, back, origins, best_on);
    for place in 0..readings.len() {
        let turned = back[readings.len() - 1 - place];
        bounds[place] = values[place] + turned - reading_at(readings, place).weight;
    }
}
