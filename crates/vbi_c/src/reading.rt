//! Reading a line, the lines of a field with code words, and fields.

ghost use Rattle.std.specs.Prelude.{◌≡◌, ◌+◌, ◌*◌, ◌≤◌, length};
ghost use Rattle.vbi_words.specs.Geometry.{line_bytes, field_bytes, line_at};
ghost use Rattle.vbi_c.specs.Readings.{outcome_for_c, line_reading, three_rows, rows_reading, field_reading};
ghost use Rattle.vbi_c.specs.{Readings.fields_reading, Setups.line_setup, Setups.rows_setup, Setups.fields_setup};
ghost use Rattle.vbi_c.specs.{Statuses.Answers};

use crate::setup::{Setup, fields_setup, line_setup, rows_setup};
use crate::status::{DONE, settled};
use vbi_line::read_bytes_twice;
use vbi_words::{Outcome, System};

/// The row of a field, counted from 0, that is line 16.
pub(crate) const FIRST_ROW: usize = 15;

/// What a line shows: its word, or the cause for which it has none.
#[derive(Clone, Copy)]
#[repr(C)]
pub struct LdvbiReading {
    /// 0 for a word, 1 for a blank line, 2 for an unfinished one, 3 if the level changes at the first hopeless
    /// column, 4 if it holds there.
    pub cause: u8,
    /// 1 for a word of the line's own levels, 2 for one of the smoothed levels, 0 for no word.
    pub pass: u8,
    /// The first hopeless column, counted from 0, of causes 3 and 4; else 0.
    pub column: u16,
    /// The word, from 0x800000 to 0xFFFFFF, or 0 if there is none.
    pub word: u32,
}

/// The readings of a field's three lines with code words.
#[derive(Clone, Copy)]
#[repr(C)]
pub struct LdvbiFieldReadings {
    /// Those of lines 16, 17 and 18.
    pub lines: [LdvbiReading; 3],
}

/// An outcome with the pass of its reading, as C sees them.
pub(crate) fn outcome_for_c(outcome: Outcome, pass: u8) -> LdvbiReading
    ensures { result ≡ outcome_for_c outcome pass }
{
    let (cause, column, word) = match outcome {
        Outcome::Word(word) => (0, 0, word.value()),
        Outcome::Blank => (1, 0, 0),
        Outcome::Unfinished => (2, 0, 0),
        Outcome::Change(column) => (3, column, 0),
        Outcome::Hold(column) => (4, column, 0),
    };
    LdvbiReading {
        cause,
        pass,
        column,
        word,
    }
}

/// The reading of a line's bytes.
fn read_bytes(setup: &Setup, bytes: &[u8]) -> LdvbiReading
    requires { length bytes.now ≡ line_bytes setup.now.system }
    ensures { result ≡ line_reading setup.now bytes.now }
{
    let reading = read_bytes_twice(bytes, setup.system, setup.levels);
    outcome_for_c(reading.outcome, reading.pass)
}

/// The bytes of a row, counted from 0.
fn row(system: System, bytes: &[u8], row: usize) -> &[u8]
    requires { line_bytes system * row + line_bytes system ≤ length bytes.now }
    ensures row { result.now ≡ line_at system bytes.now 0 row }
    ensures long { length result.now ≡ line_bytes system }
{
    let line = system.line_bytes();
    &bytes[line * row..line * row + line]
}

/// The readings of three rows, one after the other, from this one on.
fn read_three(setup: &Setup, bytes: &[u8], first: usize) -> LdvbiFieldReadings
    requires few { first ≤ 15 }
    requires inside { line_bytes setup.now.system * first + 3 * line_bytes setup.now.system ≤ length bytes.now }
    ensures { result ≡ rows_reading setup.now (three_rows setup.now.system bytes.now first) }
{
    LdvbiFieldReadings {
        lines: [
            read_bytes(setup, row(setup.system, bytes, first)),
            read_bytes(setup, row(setup.system, bytes, first + 1)),
            read_bytes(setup, row(setup.system, bytes, first + 2)),
        ],
    }
}

/// Puts the readings of each of a stream's fields, which are whole, into its place.
fn read_all(setup: &Setup, stream: &[u8], readings: &mut [LdvbiFieldReadings])
    requires { length stream.now ≡ length readings.old * field_bytes setup.now.system }
    ensures { readings.new ≡ fields_reading setup.now stream.now (length readings.old) }
{
    let size = setup.system.field_bytes();
    for i in 0..readings.len() {
        readings[i] = read_three(setup, &stream[size * i..size * i + size], FIRST_ROW);
    }
}

/// The reading of a line of `ldvbi_line_bytes(system)` bytes: samples of 16 bits, the low byte first, as in ld-decode's
/// TBC files. Black and white are samples too.
#[unsafe(no_mangle)]
pub extern "C" fn ldvbi_read_line(
    system: u32,
    black: u32,
    white: u32,
    bytes: &[u8],
    reading: &mut LdvbiReading,
) -> u32
    ensures reads { Answers (line_setup system black white (length bytes.now)) result
        (λ setup. reading.new ≡ line_reading setup bytes.now) (reading.new ≡ reading.old) }
{
    let setup = settled!(line_setup(system, black, white, bytes.len()));
    *reading = read_bytes(&setup, bytes);
    DONE
}

/// The readings of lines 16, 17 and 18, one after the other, of 3 * `ldvbi_line_bytes(system)` bytes in all.
#[unsafe(no_mangle)]
pub extern "C" fn ldvbi_read_rows(
    system: u32,
    black: u32,
    white: u32,
    bytes: &[u8],
    readings: &mut LdvbiFieldReadings,
) -> u32
    ensures reads { Answers (rows_setup system black white (length bytes.now)) result
        (λ setup. readings.new ≡ rows_reading setup (three_rows setup.system bytes.now 0))
        (readings.new ≡ readings.old) }
{
    let setup = settled!(rows_setup(system, black, white, bytes.len()));
    *readings = read_three(&setup, bytes, 0);
    DONE
}

/// The readings of lines 16, 17 and 18 of a field of `ldvbi_field_bytes(system)` bytes. No other line is looked at.
#[unsafe(no_mangle)]
pub extern "C" fn ldvbi_read_field(
    system: u32,
    black: u32,
    white: u32,
    bytes: &[u8],
    readings: &mut LdvbiFieldReadings,
) -> u32
    ensures reads { Answers (fields_setup system black white (length bytes.now) 1) result
        (λ setup. readings.new ≡ field_reading setup bytes.now) (readings.new ≡ readings.old) }
{
    let setup = settled!(fields_setup(system, black, white, bytes.len(), 1));
    *readings = read_three(&setup, bytes, FIRST_ROW);
    DONE
}

/// The readings of lines 16, 17 and 18 of each field of a stream, which has as many whole fields as there is room for
/// readings, and no byte more. No other line is looked at.
#[unsafe(no_mangle)]
pub extern "C" fn ldvbi_read_fields(
    system: u32,
    black: u32,
    white: u32,
    bytes: &[u8],
    readings: &mut [LdvbiFieldReadings],
) -> u32
    ensures reads { Answers (fields_setup system black white (length bytes.now) (length readings.old)) result
        (λ setup. readings.new ≡ fields_reading setup bytes.now (length readings.old)) (readings.new ≡ readings.old) }
{
    let setup = settled!(fields_setup(system, black, white, bytes.len(), readings.len()));
    read_all(&setup, bytes, readings);
    DONE
}
