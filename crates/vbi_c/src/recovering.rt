//! Reading fields with the nearest words of worn lines, and the record of one in the document with recovered words.

ghost use Rattle.std.specs.Prelude.{◌≡◌, ◌*◌, ◌<◌, ◌≤◌, ◌++◌, length, drop, IsTrue};
ghost use Rattle.vbi_words.specs.Geometry.{line_bytes, field_bytes, width_of};
ghost use Rattle.vbi_c.specs.Recovering.{recovered_for_c, AreRecovered, code_bytes, AreAllRecovered, HasText};
ghost use Rattle.vbi_c.specs.{Erased.is_taken, Erased.with_erased, Erased.erased_of, Readings.field_in};
ghost use Rattle.vbi_c.specs.{Recovering.record_text_of, Setups.rows_setup, Setups.fields_setup, Statuses.Answers};

use crate::erased::{LdvbiErased, mark_field, with_erased};
use crate::reading::{FIRST_ROW, LdvbiFieldReadings, LdvbiReading, outcome_for_c};
use crate::setup::{Setup, fields_setup, rows_setup};
use crate::status::{DONE, settled};
use vbi_field::recovered_record;
use vbi_near::{Recovered, recover_rows};
use vbi_words::System;

/// The samples of the longest line, that of PAL.
pub(crate) const WIDEST: usize = 1135;
/// The most bytes of a record.
const MOST_TEXT: usize = 448;

/// A record of the document, without the comma and the newline that stand between two of them.
#[derive(Clone, Copy)]
#[repr(C)]
pub struct LdvbiRecord {
    /// How many bytes it has.
    pub length: u32,
    /// They stand first here, and are ASCII; those after them are 0.
    pub text: [u8; MOST_TEXT],
}

/// What a line shows, as C sees it.
fn recovered_for_c(line: Recovered) -> LdvbiReading
    ensures { result ≡ recovered_for_c line }
{
    outcome_for_c(line.outcome, line.pass)
}

/// What lines 16, 17 and 18 show, by the bytes of their rows and the marks of their erased columns.
fn recover_three(setup: &Setup, rows: &[u8], marks: &[bool]) -> LdvbiFieldReadings
    requires rows { length rows.now ≡ 3 * line_bytes setup.now.system }
    requires marks { length marks.now ≡ 3 * width_of setup.now.system }
    ensures { AreRecovered setup.now rows.now marks.now result }
{
    let [first, second, third] = recover_rows(setup.system, setup.levels, rows, marks);
    LdvbiFieldReadings {
        lines: [
            recovered_for_c(first),
            recovered_for_c(second),
            recovered_for_c(third),
        ],
    }
}

/// What these lines show by a list of erased columns of one field.
fn recover_listed(setup: &Setup, rows: &[u8], erased: &[LdvbiErased]) -> LdvbiFieldReadings
    requires rows { length rows.now ≡ 3 * line_bytes setup.now.system }
    requires taken { IsTrue (is_taken 1 erased.now) }
    ensures { AreRecovered setup.now rows.now (erased_of erased.now setup.now.system 0) result }
{
    let mut widest = [false; 3 * WIDEST];
    let marks = &mut widest[..3 * setup.system.width()];
    mark_field(setup.system, erased, 0, 0, marks);
    recover_three(setup, rows, marks)
}

/// The bytes of the rows of a field that are its lines 16, 17 and 18.
fn code_bytes(system: System, field: &[u8]) -> &[u8]
    requires { length field.now ≡ field_bytes system }
    ensures rows { result.now ≡ code_bytes system field.now }
    ensures long { length result.now ≡ 3 * line_bytes system }
{
    let line = system.line_bytes();
    &field[FIRST_ROW * line..FIRST_ROW * line + 3 * line]
}

/// The bytes of a field of a stream, counted from 0.
fn field_in(system: System, stream: &[u8], count: usize, i: usize) -> &[u8]
    requires whole { length stream.now ≡ count * field_bytes system }
    requires inside { i < count }
    ensures field { result.now ≡ field_in system stream.now i }
    ensures long { length result.now ≡ field_bytes system }
{
    let size = system.field_bytes();
    &stream[size * i..size * i + size]
}

/// Puts what the lines of each of a stream's fields show, which are whole, into its place.
fn recover_all(
    setup: &Setup,
    stream: &[u8],
    erased: &[LdvbiErased],
    readings: &mut [LdvbiFieldReadings],
)
    requires whole { length stream.now ≡ length readings.old * field_bytes setup.now.system }
    requires taken { IsTrue (is_taken (length readings.old) erased.now) }
    ensures { AreAllRecovered setup.now stream.now (erased_of erased.now setup.now.system) (length readings.old)
        readings.new }
{
    let count = readings.len();
    let mut widest = [false; 3 * WIDEST];
    let marks = &mut widest[..3 * setup.system.width()];
    let mut place = 0;
    for i in 0..count {
        place = mark_field(setup.system, erased, place, i, marks);
        let field = field_in(setup.system, stream, count, i);
        readings[i] = recover_three(setup, code_bytes(setup.system, field), marks);
    }
}

/// What lines 16, 17 and 18 show with the nearest words of worn lines: as `ldvbi_read_rows`, but that words of pass 2
/// may be missing, and there are words of pass 3. Columns that are erased count for no nearest word; the list is one of
/// field 0, and may be empty.
#[unsafe(no_mangle)]
pub extern "C" fn ldvbi_recover_rows(
    system: u32,
    black: u32,
    white: u32,
    bytes: &[u8],
    erased: &[LdvbiErased],
    readings: &mut LdvbiFieldReadings,
) -> u32
    ensures recovers { Answers (with_erased 1 erased.now (rows_setup system black white (length bytes.now))) result
        (λ setup. AreRecovered setup bytes.now (erased_of erased.now setup.system 0) readings.new)
        (readings.new ≡ readings.old) }
{
    let asked = rows_setup(system, black, white, bytes.len());
    let setup = settled!(with_erased(1, erased, asked));
    *readings = recover_listed(&setup, bytes, erased);
    DONE
}

/// What lines 16, 17 and 18 of each field of a stream show with the nearest words of worn lines. The stream has as many
/// whole fields as there is room for readings, and no byte more. No other line is looked at. Columns that are erased
/// count for no nearest word; the list may be empty.
#[unsafe(no_mangle)]
pub extern "C" fn ldvbi_recover_fields(
    system: u32,
    black: u32,
    white: u32,
    bytes: &[u8],
    erased: &[LdvbiErased],
    readings: &mut [LdvbiFieldReadings],
) -> u32
    ensures recovers { Answers (with_erased (length readings.old) erased.now
        (fields_setup system black white (length bytes.now) (length readings.old))) result
        (λ setup. AreAllRecovered setup bytes.now (erased_of erased.now setup.system) (length readings.old)
        readings.new) (readings.new ≡ readings.old) }
{
    let count = readings.len();
    let asked = fields_setup(system, black, white, bytes.len(), count);
    let setup = settled!(with_erased(count, erased, asked));
    recover_all(&setup, bytes, erased, readings);
    DONE
}

/// Copies a text over the first bytes of a room.
fn copy_first(room: &mut [u8], text: &[u8])
    requires { length text.now ≤ length room.old }
    ensures { room.new ≡ text.now ++ drop (length text.now) room.old }
{
    room[..text.len()].copy_from_slice(text);
}

/// The record with this text.
fn record_of(text: &str) -> LdvbiRecord
    requires { length text.now ≤ 448 }
    ensures { HasText text.now result }
{
    let mut room = [0; MOST_TEXT];
    copy_first(&mut room, text.as_bytes());
    LdvbiRecord {
        length: text.len() as u32,
        text: room,
    }
}

/// The record of a field of this number, by the bytes of its rows and a list of erased columns of one field.
fn record_listed(setup: &Setup, number: u32, rows: &[u8], erased: &[LdvbiErased]) -> LdvbiRecord
    requires rows { length rows.now ≡ 3 * line_bytes setup.now.system }
    requires taken { IsTrue (is_taken 1 erased.now) }
    ensures { HasText (record_text_of setup.now number rows.now (erased_of erased.now setup.now.system 0)) result }
{
    let mut widest = [false; 3 * WIDEST];
    let marks = &mut widest[..3 * setup.system.width()];
    mark_field(setup.system, erased, 0, 0, marks);
    record_of(recovered_record(setup.system, setup.levels, number, rows, marks).as_str())
}

/// Writes the record that the document of `extract --recover` has of a field with this number, by its lines 16, 17 and
/// 18, as `ldvbi_recover_rows` takes them: the columns that are erased count for no nearest word. The list is
/// one of field 0. Fields are numbered from 1 there; any number is written.
#[unsafe(no_mangle)]
pub extern "C" fn ldvbi_recovered_record(
    system: u32,
    black: u32,
    white: u32,
    number: u32,
    bytes: &[u8],
    erased: &[LdvbiErased],
    written: &mut LdvbiRecord,
) -> u32
    ensures records { Answers (with_erased 1 erased.now (rows_setup system black white (length bytes.now))) result
        (λ setup. HasText (record_text_of setup number bytes.now (erased_of erased.now setup.system 0)) written.new)
        (written.new ≡ written.old) }
{
    let setup = settled!(with_erased(1, erased, rows_setup(system, black, white, bytes.len())));
    *written = record_listed(&setup, number, bytes, erased);
    DONE
}
