//! The texts of the document.
//!
//! A stream has a head, an entry for each whole field and a tail, and each is made whole before it is written. `Kind`
//! (texts.rt) has these three calls. The document is one kind, the report (report.rt) another, each has a kind with
//! recovered words beside it (recovered_document.rt, report.rt), and run.rt has one loop for all. The joint, a comma
//! and a newline, stands before each entry but the first. So nothing has to be known of a field that may follow, and
//! the record of a field is written as soon as its last byte came.
//!
//! Each function here has one definition of `specs/Document.antt`, of which its text is proved to be an equal, byte for
//! byte; the three words, causes and passes of a record are pieces with a function and a proof each. A record is
//! that of `specs/RecoveredDocument.antt`, which has no nearest words here.
//!
//! Texts are held in an `ArrayString`, as the program allocates nothing. Its size (448, and 18 to 72 for the pieces)
//! has room for the widest number of each type, so that no bound on columns or field numbers has to be proved; the
//! check refuses a size that is too small.
//!
//! Who changes the document changes its definition, the proof of `document_words` in `vbi_meta` (a JSON reader finds
//! the words in it), share/schema/ldvbi.schema.json, docs/FORMATS.md, and the two modules of the Python package that
//! write and read it. `version` is raised if those who read the document so far can't any more.
ghost use Rattle.std.specs.Prelude.{false, ◌≡◌, ◌-◌, ◌^◌, ◌<◌, ◌≤◌, [], ◌++◌, codes, decimal, length, if◌then◌else◌};
ghost use Rattle.vbi_field.specs.CodeTexts.{cause_text_of};
ghost use Rattle.vbi_field.specs.Document.{value_of, lines_of, parameters_of, tail_of};
ghost use Rattle.vbi_field.specs.{RecoveredDocument.record_with, Texts.document};

use crate::cause_texts::cause_text;
use crate::config::Config;
use crate::numbers::push_number;
use crate::readings::FieldReadings;
use crate::texts::{Kind, Text};
use arrayvec::ArrayString;
use vbi_words::Outcome;

/// The document of `extract`.
pub(crate) struct Document;

impl Kind for Document {
    ghost kind = { document };

    const KEEPS: bool = false;

    ghost KEEPS = { false };

    fn head(config: &Config) -> Text {
        head_text("{\"version\":2", config)
    }

    fn entry(_config: &Config, before: u32, readings: &FieldReadings, _held: &[u8]) -> Text {
        let field = FieldTexts {
            lines: *readings,
            causes: *readings,
            nears: ArrayString::new(),
        };
        record_with(before == 0, before + 1, &field)
    }

    fn tail(fields: u32, rest: u32) -> Text {
        tail_text(fields, rest)
    }
}

/// The number of the word, or 0 if there is none.
fn value(outcome: Outcome) -> u32
    ensures { result ≡ value_of outcome }
{
    match outcome {
        Outcome::Word(word) => word.value(),
        _ => 0,
    }
}

/// The rest of the first line, after the version: the system, and the levels.
#[tactic(auto, unfolding(crate::specs::Document::parameters_of))]
fn parameters_text(config: &Config) -> ArrayString<160>
    ensures { result.bytes ≡ parameters_of config.now }
{
    let system = config.system();
    let levels = config.levels();
    let mut text = ArrayString::new();
    text.push_str(",\"videoParameters\":{\"system\":\"");
    text.push_str(system.name());
    text.push_str("\",\"fieldWidth\":");
    push_number(&mut text, system.width() as u16);
    text.push_str(",\"fieldHeight\":");
    push_number(&mut text, system.height() as u16);
    text.push_str(",\"black16bIre\":");
    push_number(&mut text, levels.black());
    text.push_str(",\"white16bIre\":");
    push_number(&mut text, levels.white());
    text.push_str("},\"fields\":[\n");
    text
}

/// The text before the first record, which begins with the version.
pub(crate) fn head_text(version: &str, config: &Config) -> Text
    requires { length version.now ≤ 20 }
    ensures { result.bytes ≡ version.now ++ parameters_of config.now }
{
    let mut text = ArrayString::new();
    text.push_str(version);
    text.push_str(parameters_text(config).as_str());
    text
}

/// The three words, each its number or 0.
#[tactic(auto, unfolding(crate::specs::Document::lines_of))]
fn data_text(readings: &FieldReadings) -> ArrayString<56>
    ensures { result.bytes
        ≡ lines_of (codes ",\"vbi\":{\"vbiData\":[") (λ line. decimal (value_of line.outcome))
        (codes "]}") readings.now }
{
    let mut text = ArrayString::new();
    text.push_str(",\"vbi\":{\"vbiData\":[");
    push_number(&mut text, value(readings.first.outcome));
    text.push_str(",");
    push_number(&mut text, value(readings.second.outcome));
    text.push_str(",");
    push_number(&mut text, value(readings.third.outcome));
    text.push_str("]}");
    text
}

/// The cause of a line as a string of JSON; no cause has a byte that would need an escape.
fn quoted_cause(outcome: Outcome) -> ArrayString<18>
    ensures { result.bytes ≡ codes "\"" ++ cause_text_of outcome ++ codes "\"" }
{
    let mut text = ArrayString::new();
    text.push_str("\"");
    text.push_str(cause_text(outcome).as_str());
    text.push_str("\"");
    text
}

/// The three causes.
#[tactic(auto, unfolding(crate::specs::Document::lines_of))]
fn causes_text(readings: &FieldReadings) -> ArrayString<72>
    ensures { result.bytes
        ≡ lines_of (codes ",\"vbiCause\":[") (λ line. codes "\"" ++ cause_text_of line.outcome ++ codes "\"")
        (codes "]") readings.now }
{
    let mut text = ArrayString::new();
    text.push_str(",\"vbiCause\":[");
    text.push_str(quoted_cause(readings.first.outcome).as_str());
    text.push_str(",");
    text.push_str(quoted_cause(readings.second.outcome).as_str());
    text.push_str(",");
    text.push_str(quoted_cause(readings.third.outcome).as_str());
    text.push_str("]");
    text
}

/// The three passes.
#[tactic(auto, unfolding(crate::specs::Document::lines_of))]
fn passes_text(readings: &FieldReadings) -> ArrayString<24>
    ensures { result.bytes
        ≡ lines_of (codes ",\"vbiPass\":[") (λ line. decimal line.pass) (codes "]") readings.now }
{
    let mut text = ArrayString::new();
    text.push_str(",\"vbiPass\":[");
    push_number(&mut text, readings.first.pass);
    text.push_str(",");
    push_number(&mut text, readings.second.pass);
    text.push_str(",");
    push_number(&mut text, readings.third.pass);
    text.push_str("]");
    text
}

/// What the record of a field has beside its number: its lines as they are shown, those whose causes are written, and
/// the text of their nearest words, which a document without recovered words hasn't got.
#[derive(Drop)]
pub(crate) struct FieldTexts {
    pub(crate) lines: FieldReadings,
    pub(crate) causes: FieldReadings,
    pub(crate) nears: ArrayString<256>,
}

/// The record of a field of this number, with the joint before it unless it is the first.
#[tactic(auto, unfolding(crate::specs::RecoveredDocument::record_with))]
pub(crate) fn record_with(is_first: bool, number: u32, field: &FieldTexts) -> Text
    ensures { result.bytes ≡ (if is_first then [] else codes ",\n")
        ++ record_with number field.now.lines field.now.causes field.now.nears.bytes }
{
    let mut text = ArrayString::new();
    if !is_first {
        text.push_str(",\n");
    }
    text.push_str("{\"seqNo\":");
    push_number(&mut text, number);
    text.push_str(data_text(&field.lines).as_str());
    text.push_str(causes_text(&field.causes).as_str());
    text.push_str(passes_text(&field.lines).as_str());
    text.push_str(field.nears.as_str());
    text.push_str("}");
    text
}

/// The text after the last record.
#[tactic(auto, unfolding(crate::specs::Document::tail_of))]
pub(crate) fn tail_text(fields: u32, rest: u32) -> Text
    requires { fields < 2 ^ 32 - 1 }
    ensures { result.bytes ≡ tail_of fields rest }
{
    let mut text = ArrayString::new();
    if rest == 0 {
        text.push_str("\n],\"cutField\":null}\n");
        return text;
    }
    text.push_str("\n],\"cutField\":{\"seqNo\":");
    push_number(&mut text, fields + 1);
    text.push_str(",\"bytes\":");
    push_number(&mut text, rest);
    text.push_str("}}\n");
    text
}
