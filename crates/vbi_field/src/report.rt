//! The texts of the report, and of that with recovered words.

ghost use Rattle.std.specs.Prelude.{true, false, ◌≡◌, ◌+◌, ◌*◌, ◌-◌, ◌≤◌, ◌<◌, ◌^◌, ◌++◌, length};
ghost use Rattle.vbi_words.specs.Geometry.{line_bytes};
ghost use Rattle.arrayvec.specs.ArrayString.{array_string_len};
ghost use Rattle.vbi_field.specs.Texts.{report, recovered_report, joined_entry_of};
ghost use Rattle.vbi_field.specs.Stream.{rows_in, readings_of};
ghost use Rattle.vbi_field.specs.Report.{report_head_of, report_tail_of, format_text_of, line_text_of, entry_text_of};

use crate::cause_texts::cause_text;
use crate::code_texts::{code_text, hex_text};
use crate::config::Config;
use crate::numbers::push_number;
use crate::readings::FieldReadings;
use crate::recovered_rows::{none_erased, shown_lines};
use crate::texts::{Kind, Text};
use arrayvec::ArrayString;
use vbi_words::{Format, Levels, Outcome, Reading, System, classify, format_of};

/// The report of `show`.
pub(crate) struct Report;

impl Kind for Report {
    ghost kind = { report };

    const KEEPS: bool = false;

    ghost KEEPS = { false };

    fn head(config: &Config) -> Text {
        report_head(config.system(), config.levels())
    }

    fn entry(_config: &Config, before: u32, readings: &FieldReadings, _held: &[u8]) -> Text {
        entry_text(before + 1, readings, false)
    }

    fn tail(fields: u32, rest: u32) -> Text {
        report_tail(fields, rest)
    }
}

/// The report of `show --recover`.
pub(crate) struct RecoveredReport;

impl Kind for RecoveredReport {
    ghost kind = { recovered_report };

    const KEEPS: bool = true;

    ghost KEEPS = { true };

    fn head(config: &Config) -> Text {
        report_head(config.system(), config.levels())
    }

    fn entry(config: &Config, before: u32, readings: &FieldReadings, held: &[u8]) -> Text {
        let lines = shown_lines(config, readings, held, none_erased(config));
        entry_text(before + 1, &lines, true)
    }

    fn tail(fields: u32, rest: u32) -> Text {
        report_tail(fields, rest)
    }
}

/// The first line: the system, its width and height in samples and lines, and the levels.
#[tactic(auto, unfolding(crate::specs::Report::report_head_of))]
pub(crate) fn report_head(system: System, levels: Levels) -> Text
    ensures { result.bytes ≡ report_head_of system levels }
{
    let mut text = ArrayString::new();
    text.push_str("system ");
    text.push_str(system.name());
    text.push_str(" ");
    push_number(&mut text, system.width() as u16);
    text.push_str("x");
    push_number(&mut text, system.height() as u16);
    text.push_str(" black ");
    push_number(&mut text, levels.black());
    text.push_str(" white ");
    push_number(&mut text, levels.white());
    text.push_str("\n");
    text
}

/// What a format is called.
fn format_name(format: Format) -> &'static str
    ensures name { result.now ≡ format_text_of format }
    ensures short { length result.now ≤ 7 }
{
    match format {
        Format::Cav => "cav",
        Format::Clv => "clv",
        Format::Both => "both",
        Format::Neither => "neither",
    }
}

/// The text after the number of a line, with a mark after a word of pass 3 if such words are to be marked.
#[tactic(auto, unfolding(crate::specs::Report::shown_of, crate::specs::Report::marked_of))]
fn line_text(line: &Reading, marks: bool) -> ArrayString<43>
    ensures { result.bytes ≡ line_text_of marks line.now }
{
    let mut text = ArrayString::new();
    match line.outcome {
        Outcome::Word(word) => {
            text.push_str(hex_text(word).as_str());
            text.push_str(" ");
            text.push_str(code_text(classify(word)).as_str());
        }
        outcome => {
            text.push_str("none ");
            text.push_str(cause_text(outcome).as_str());
        }
    }
    if marks && line.pass == 3 {
        text.push_str(" (recovered)");
    }
    text
}

/// The four lines of the whole field of this number, counted from 1, whose lines show this. Words of pass 3 are marked
/// in the report with recovered words.
#[tactic(auto, unfolding(crate::specs::Report::field_lines_of))]
fn entry_text(number: u32, readings: &FieldReadings, marks: bool) -> Text
    ensures { result.bytes ≡ entry_text_of marks number readings.now }
{
    let words = [
        readings.first.outcome.word(),
        readings.second.outcome.word(),
        readings.third.outcome.word(),
    ];
    let mut text = ArrayString::new();
    text.push_str("field ");
    push_number(&mut text, number);
    text.push_str(" ");
    text.push_str(format_name(format_of(&words)));
    text.push_str("\n16 ");
    text.push_str(line_text(&readings.first, marks).as_str());
    text.push_str("\n17 ");
    text.push_str(line_text(&readings.second, marks).as_str());
    text.push_str("\n18 ");
    text.push_str(line_text(&readings.third, marks).as_str());
    text.push_str("\n");
    text
}

/// The last line, from the number of whole fields and the bytes past them, which are those of a cut last field.
#[tactic(auto, unfolding(crate::specs::Report::report_tail_of))]
pub(crate) fn report_tail(fields: u32, rest: u32) -> Text
    requires { fields < 2 ^ 32 - 1 }
    ensures { result.bytes ≡ report_tail_of fields rest }
{
    let mut text = ArrayString::new();
    text.push_str("fields ");
    push_number(&mut text, fields);
    if rest == 0 {
        text.push_str(" cut none\n");
        return text;
    }
    text.push_str(" cut field ");
    push_number(&mut text, fields + 1);
    text.push_str(" bytes ");
    push_number(&mut text, rest);
    text.push_str("\n");
    text
}
