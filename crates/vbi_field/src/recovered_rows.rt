//! What a field's rows show with recovered words, and the nearest word of a row: the calls of `vbi_near`, for texts.

ghost use Rattle.std.specs.Prelude.{◌≡◌, ◌*◌, IsTrue, length};
ghost use Rattle.vbi_words.specs.Geometry.{line_bytes, width_of};
ghost use Rattle.vbi_near.specs.{Candidates.row_of, Recovery.IsSureBy, Recovery.none_erased};
ghost use Rattle.vbi_field.specs.RecoveredRows.{as_readings, near_of, reading_as, recovery_of};
ghost use Rattle.vbi_field.specs.Stream.{readings_of, rows_in};

use crate::config::Config;
use crate::readings::FieldReadings;
use vbi_near::{Near, Recovered, add_line, nearest, recover_rows};
use vbi_words::{LONGEST_LINE, Levels, Outcome, Reading, System};

/// The samples of the longest line, each of which has two bytes.
const WIDEST: usize = LONGEST_LINE / 2;

/// The marks of three of the longest lines of which no column is erased.
static NONE_ERASED: [bool; 3 * WIDEST] = [false; 3 * WIDEST];

/// What a line shows as a reading.
fn reading_as(line: Recovered) -> Reading
    ensures { result ≡ reading_as line }
{
    Reading {
        outcome: line.outcome,
        pass: line.pass,
    }
}

/// Whether recovery leaves a line as it was read: it has a word of pass 1 or is blank.
fn is_sure(reading: &Reading) -> bool
    ensures { IsTrue result → IsSureBy reading.now.outcome reading.now.pass }
{
    match reading.outcome {
        Outcome::Word(_) => reading.pass == 1,
        Outcome::Blank => true,
        _ => false,
    }
}

/// The marks of a field's rows of which no column is erased.
pub(crate) fn none_erased(config: &Config) -> &'static [bool]
    ensures { result.now ≡ none_erased config.now.system }
{
    &NONE_ERASED[..3 * config.system().width()]
}

/// What a field's rows show, of which some columns are erased.
fn recovered_lines(system: System, levels: Levels, rows: &[u8], erased: &[bool]) -> FieldReadings
    requires rows { length rows.now ≡ 3 * line_bytes system }
    requires erased { length erased.now ≡ 3 * width_of system }
    ensures { result ≡ as_readings (recovery_of system levels rows.now erased.now) }
{
    let [first, second, third] = recover_rows(system, levels, rows, erased);
    FieldReadings {
        first: reading_as(first),
        second: reading_as(second),
        third: reading_as(third),
    }
}

/// What a field's rows show, by their readings, their bytes and the marks of their erased columns. If each of them
/// is sure, nothing is searched.
pub(crate) fn shown_lines(
    config: &Config,
    readings: &FieldReadings,
    rows: &[u8],
    erased: &[bool],
) -> FieldReadings
    requires rows { length rows.now ≡ 3 * line_bytes config.now.system }
    requires erased { length erased.now ≡ 3 * width_of config.now.system }
    ensures { readings.now ≡ readings_of config.now (rows_in config.now.system rows.now)
        → result ≡ as_readings (recovery_of config.now.system config.now.levels rows.now erased.now) }
{
    if is_sure(&readings.first) && is_sure(&readings.second) && is_sure(&readings.third) {
        *readings
    } else {
        recovered_lines(config.system(), config.levels(), rows, erased)
    }
}

/// The nearest word of a row as it is, of which some columns are erased.
pub(crate) fn nearest_of_row(system: System, levels: Levels, row: &[u8], erased: &[bool]) -> Near
    requires row { length row.now ≡ line_bytes system }
    requires erased { length erased.now ≡ width_of system }
    ensures { result ≡ near_of system levels (row_of row.now erased.now) }
{
    let mut all_darks = [0; WIDEST];
    let mut all_lights = [0; WIDEST];
    let darks = &mut all_darks[..system.width()];
    let lights = &mut all_lights[..system.width()];
    add_line(levels, row, erased, darks, lights);
    nearest(system, darks, lights)
}
