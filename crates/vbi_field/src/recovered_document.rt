//! The texts of the document with recovered words, of version 3. It differs from that of version 2 (document.rt, whose
//! pieces it takes) in the words of worn lines, and in `vbiNear`.

ghost use Rattle.std.specs.Prelude.{true, IsTrue, ℕ, [], ◌==◌, if◌then◌else◌, ◌≡◌, ◌+◌, ◌*◌, ◌-◌, ◌^◌, ◌<◌, ◌≤◌, ◌++◌};
ghost use Rattle.std.specs.Prelude.{codes, decimal, length};
ghost use Rattle.vbi_words.specs.Geometry.{line_bytes, width_of};
ghost use Rattle.vbi_near.specs.Candidates.{row_of};
ghost use Rattle.vbi_field.specs.RecoveredDocument.{cause_line, cause_lines, hundredths, near_text_of, nears_text_of};
ghost use Rattle.vbi_field.specs.RecoveredDocument.{recovered_record_of, recovered_without, record_with, word_or_zero};
ghost use Rattle.vbi_field.specs.{RecoveredRows.near_of, Stream.readings_of, Stream.rows_in, Texts.recovered_document};

use crate::config::Config;
use crate::document::{FieldTexts, head_text, record_with, tail_text};
use crate::numbers::push_number;
use crate::readings::FieldReadings;
use crate::recovered_rows::{nearest_of_row, none_erased, shown_lines};
use crate::texts::{Kind, Text};
use arrayvec::ArrayString;
use vbi_line::read_bytes_twice;
use vbi_near::marks_of_line;
use vbi_words::{Levels, Reading, System, Word24};

/// The document of `extract --recover`.
pub(crate) struct RecoveredDocument;

impl Kind for RecoveredDocument {
    ghost kind = { recovered_document };

    const KEEPS: bool = true;

    ghost KEEPS = { true };

    fn head(config: &Config) -> Text {
        head_text("{\"version\":3", config)
    }

    fn entry(config: &Config, before: u32, readings: &FieldReadings, held: &[u8]) -> Text {
        let field = field_texts(config, readings, held, none_erased(config));
        record_with(before == 0, before + 1, &field)
    }

    fn tail(fields: u32, rest: u32) -> Text {
        tail_text(fields, rest)
    }
}

/// The line whose cause is written: if its word was recovered, it as it was read.
fn cause_line(shown: &Reading, reading: &Reading) -> Reading
    ensures { result ≡ cause_line shown.now reading.now }
{
    if shown.pass == 3 { *reading } else { *shown }
}

/// The three of a field.
fn cause_lines(shown: &FieldReadings, readings: &FieldReadings) -> FieldReadings
    ensures { result ≡ cause_lines shown.now readings.now }
{
    FieldReadings {
        first: cause_line(&shown.first, &readings.first),
        second: cause_line(&shown.second, &readings.second),
        third: cause_line(&shown.third, &readings.third),
    }
}

/// The number of the word, or 0 if there is none.
fn word_or_zero(word: Option<Word24>) -> u32
    ensures { result ≡ word_or_zero word }
{
    match word {
        Some(word) => word.value(),
        None => 0,
    }
}

/// How far samples are off, in hundredths of what white and black are off in one column, rounded down.
fn hundredths(config: &Config, distance: u32) -> u64
    ensures { result ≡ hundredths config.now.levels distance }
{
    let levels = config.levels();
    u64::from(distance) * 100 / u64::from(levels.white() - levels.black())
}

/// How near a line's nearest word is, if its word was recovered, by the bytes of its row and the marks of its erased
/// columns.
#[tactic(auto, unfolding(crate::specs::RecoveredDocument::near_text_of))]
fn near_text(config: &Config, line: &Reading, row: &[u8], erased: &[bool]) -> ArrayString<80>
    requires row { length row.now ≡ line_bytes config.now.system }
    requires erased { length erased.now ≡ width_of config.now.system }
    ensures { result.bytes ≡ near_text_of config.now.levels line.now
        (near_of config.now.system config.now.levels (row_of row.now erased.now)) }
{
    let mut text = ArrayString::new();
    if line.pass != 3 {
        text.push_str("null");
        return text;
    }
    let near = nearest_of_row(config.system(), config.levels(), row, erased);
    text.push_str("{\"word\":");
    push_number(&mut text, word_or_zero(near.word));
    text.push_str(",\"distance\":");
    push_number(&mut text, hundredths(config, near.distance));
    text.push_str(",\"rival\":");
    push_number(&mut text, hundredths(config, near.rival));
    text.push_str("}");
    text
}

/// The three of a field, by the bytes of its rows and the marks of their erased columns.
#[tactic(auto, unfolding(crate::specs::RecoveredDocument::nears_text_of))]
fn nears_text(
    config: &Config,
    lines: &FieldReadings,
    rows: &[u8],
    erased: &[bool],
) -> ArrayString<256>
    requires rows { length rows.now ≡ 3 * line_bytes config.now.system }
    requires erased { length erased.now ≡ 3 * width_of config.now.system }
    ensures { result.bytes ≡ nears_text_of config.now.levels lines.now
        (recovered_without config.now.system config.now.levels (rows_in config.now.system rows.now) erased.now) }
{
    let size = config.line_bytes();
    let marks = marks_of_line(config.system(), erased, 0);
    let first = near_text(config, &lines.first, &rows[..size], marks);
    let marks = marks_of_line(config.system(), erased, 1);
    let second = near_text(config, &lines.second, &rows[size..2 * size], marks);
    let marks = marks_of_line(config.system(), erased, 2);
    let third = near_text(config, &lines.third, &rows[2 * size..3 * size], marks);
    let mut text = ArrayString::new();
    text.push_str(",\"vbiNear\":[");
    text.push_str(first.as_str());
    text.push_str(",");
    text.push_str(second.as_str());
    text.push_str(",");
    text.push_str(third.as_str());
    text.push_str("]");
    text
}

/// What a record tells of a field, by the readings of its rows, their bytes and the marks of their erased columns.
fn field_texts(
    config: &Config,
    readings: &FieldReadings,
    rows: &[u8],
    erased: &[bool],
) -> FieldTexts
    requires rows { length rows.now ≡ 3 * line_bytes config.now.system }
    requires erased { length erased.now ≡ 3 * width_of config.now.system }
    ensures { readings.now ≡ readings_of config.now (rows_in config.now.system rows.now) → (number : ℕ)
        → record_with number result.lines result.causes result.nears.bytes
        ≡ recovered_record_of config.now.levels number
        (recovered_without config.now.system config.now.levels (rows_in config.now.system rows.now) erased.now) }
{
    let lines = shown_lines(config, readings, rows, erased);
    let causes = cause_lines(&lines, readings);
    let nears = nears_text(config, &lines, rows, erased);
    FieldTexts {
        lines,
        causes,
        nears,
    }
}

/// The readings of a field's rows.
fn readings_of_rows(config: &Config, rows: &[u8]) -> FieldReadings
    requires { length rows.now ≡ 3 * line_bytes config.now.system }
    ensures { result ≡ readings_of config.now (rows_in config.now.system rows.now) }
{
    let size = config.line_bytes();
    let system = config.system();
    let levels = config.levels();
    FieldReadings {
        first: read_bytes_twice(&rows[..size], system, levels),
        second: read_bytes_twice(&rows[size..2 * size], system, levels),
        third: read_bytes_twice(&rows[2 * size..3 * size], system, levels),
    }
}

/// The record that the document of `extract --recover` has of a field with this number, by the bytes of its rows 15, 16
/// and 17, one after the other, and by the marks of their erased columns, a row's after those of the one before:
/// those columns count for no nearest word. The document's own records are those of rows without such columns. It
/// numbers fields from 1; any number is written. A comma and a newline stand between two of its records.
pub fn recovered_record(
    system: System,
    levels: Levels,
    number: u32,
    rows: &[u8],
    erased: &[bool],
) -> Text
    requires rows { length rows.now ≡ 3 * line_bytes system }
    requires erased { length erased.now ≡ 3 * width_of system }
    ensures { result.bytes ≡ recovered_record_of levels number
        (recovered_without system levels (rows_in system rows.now) erased.now) }
{
    let config = Config::of_levels(system, levels);
    let readings = readings_of_rows(&config, rows);
    let field = field_texts(&config, &readings, rows, erased);
    record_with(true, number, &field)
}
