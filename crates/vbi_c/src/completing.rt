//! Completing the times of fields of which line 16 alone was read.

ghost use Rattle.std.specs.Prelude.{◌≡◌, ◌<◌, length, map};
ghost use Rattle.vbi_c.specs.Completing.{completing_of, times_of, with_time, IsCompletedField, AreCompleted};
ghost use Rattle.vbi_c.specs.{Judging.lines_in, Judging.seen_in, Statuses.Answers};

use crate::judging::{Asked, Judging, are_as_long, see_all, shown_by, with_lengths};
use crate::reading::{LdvbiFieldReadings, LdvbiReading};
use crate::status::{DONE, settled};
use vbi_side::{Counted, Shown, Sightings, completed_time};
use vbi_words::{System, Word24};

/// What asks for the times that fields show.
fn times_of(system: System) -> Judging
    ensures { result ≡ times_of system }
{
    Judging {
        system,
        counted: Counted::Times,
        asked: Asked::Found,
    }
}

/// What line 16 of a field shows.
fn line_16_of(readings: &LdvbiFieldReadings) -> Shown
    ensures { result ≡ (lines_in readings.now).line_16 }
{
    let [line_16, _, _] = &readings.lines;
    shown_by(line_16)
}

/// A field's readings, with this word on line 17, as it would be read in the pass of line 16.
fn with_time(readings: &LdvbiFieldReadings, word: Word24) -> LdvbiFieldReadings
    ensures { result ≡ record { lines = with_time word readings.now.lines } }
{
    let [line_16, _, line_18] = readings.lines;
    let line_17 = LdvbiReading {
        cause: 0,
        pass: line_16.pass,
        column: 0,
        word: word.value(),
    };
    LdvbiFieldReadings {
        lines: [line_16, line_17, line_18],
    }
}

/// A field's readings, with its time completed, if it shows none and one is elected.
fn completed_field(
    system: System,
    seen: &[Sightings],
    field: usize,
    readings: &LdvbiFieldReadings,
) -> LdvbiFieldReadings
    requires { field < length seen.now }
    ensures { IsCompletedField system seen.now field readings.now result }
{
    match completed_time(system, &line_16_of(readings), seen, field) {
        Some(word) => with_time(readings, word),
        None => *readings,
    }
}

/// Puts the readings of each field into its place, with its time completed.
fn complete_all(
    system: System,
    readings: &[LdvbiFieldReadings],
    seen: &[Sightings],
    completed: &mut [LdvbiFieldReadings],
)
    requires seen { length seen.now ≡ length readings.now }
    requires completed { length completed.old ≡ length readings.now }
    ensures { AreCompleted system readings.now seen.now completed.new }
{
    for i in 0..readings.len() {
        completed[i] = completed_field(system, seen, i, &readings[i]);
    }
}

/// Completes the times of fields of which line 16 was read, and neither line 17 nor 18: each gets the minute that most
/// of the times around it say. What is read of each field goes to `seen`, its readings, with the word on line 17 if
/// one is found, to `completed`, both as long as `readings`.
#[unsafe(no_mangle)]
pub extern "C" fn ldvbi_complete_times(
    system: u32,
    readings: &[LdvbiFieldReadings],
    seen: &mut [Sightings],
    completed: &mut [LdvbiFieldReadings],
) -> u32
    ensures completes { Answers (completing_of system (length readings.now) (length seen.old) (length completed.old))
        result (λ system. (seen.new ≡ map (seen_in (times_of system)) readings.now)
        × AreCompleted system readings.now seen.new completed.new)
        ((seen.new ≡ seen.old) × (completed.new ≡ completed.old)) }
{
    let fit = are_as_long(readings.len(), seen.len(), completed.len());
    let system = settled!(with_lengths(system, fit));
    see_all(&times_of(system), readings, seen);
    complete_all(system, readings, seen, completed);
    DONE
}
