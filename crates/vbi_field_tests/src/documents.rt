//! Documents and reports of known streams.
//!
//! Each stream is extracted and shown, and both texts are compared whole. `FIELDS` has a row for each kind of line,
//! with its record and its part of the report; `HEADS` has the heads of both systems by their levels; `CUTS` has a
//! field that is cut at each place where the counts change: in and after the rows 15 to 17, whose samples are looked
//! at, and at its first and last byte. A field has 263 rows of 1820 bytes (NTSC) or 313 of 2270 (PAL).
//!
//! The texts that several tests need are in known.rt. They were written down by hand, as those here, and never come
//! from what the program writes. Faults are in faults.rt, recovered words in recovered.rt.

use crate::fields::Line::{Black, Run, Scratched, Word};
use crate::fields::{DRAWN, Lines, NONE, config, field, front, two_fields};
use crate::known::{
    BLACK, CUT, CUT_END, HEAD, PAL_HEAD, PAL_REPORT_HEAD, PAL_WORDS, REPORT_BLACK, REPORT_HEAD,
    REPORT_SECOND_BLACK, REPORT_TAIL, REPORT_WORDS, SECOND_BLACK, TAIL, WORDS,
};
use crate::runs::{Ended, StreamText, undisturbed, whole, writes, writes_by_any_reads};
use std::alloc::Global;
use std::test::Fail;
use vbi_field::{Config, Outlet, extract};
use vbi_line::Intake;
use vbi_test_devices::{Paper, Tape, holds, same};
use vbi_words::Levels;
use vbi_words::System::{self, Ntsc, Pal};

/// The texts of a document, and those of a report.
#[derive(Clone, Copy)]
struct Texts<'a>(&'a [&'a str], &'a [&'a str]);

/// Fails if a stream ends otherwise, or has other texts in its document and its report.
fn writes_both(
    alloc: Global,
    config: &Config,
    stream: &[u8],
    ended: Ended,
    texts: Texts,
) -> Result<(), Fail> {
    let Texts(document, report) = texts;
    let document = undisturbed(stream, ended, document);
    writes(alloc, StreamText::Extract, config, stream, document)?;
    let report = undisturbed(stream, ended, report);
    writes(alloc, StreamText::Show, config, stream, report)
}

/// The heads of a document and of a report with the usual levels.
fn heads(system: System) -> (&'static str, &'static str) {
    match system {
        Ntsc => (HEAD, REPORT_HEAD),
        Pal => (PAL_HEAD, PAL_REPORT_HEAD),
    }
}

/// A system, the lines 16, 17 and 18 of a field, its record, and its part of the report.
static FIELDS: [(System, Lines, &str, &str); 11] = [
    (Ntsc, NONE, BLACK, REPORT_BLACK),
    (Pal, NONE, BLACK, REPORT_BLACK),
    (Ntsc, DRAWN, WORDS, REPORT_WORDS),
    (
        Pal,
        [Word(0x8AE012), Word(0x87FFFF), Word(0xF0DD00)],
        PAL_WORDS,
        "field 1 clv\n16 8AE012 clv picture 00 12\n17 87FFFF clv\n18 F0DD00 time 0:00\n",
    ),
    (
        Ntsc,
        [Scratched(0x82CFFF), Black, Black],
        r#"{"seqNo":1,"vbi":{"vbiData":[8572927,0,0]},"vbiCause":["word","blank","blank"],"vbiPass":[2,0,0]}"#,
        "field 1 cav\n16 82CFFF picture stop\n17 none blank\n18 none blank\n",
    ),
    (
        Pal,
        [Black, Scratched(0x82CFFF), Scratched(0xF12345)],
        r#"{"seqNo":1,"vbi":{"vbiData":[0,8572927,15803205]},"vbiCause":["blank","word","word"],"vbiPass":[0,2,2]}"#,
        "field 1 cav\n16 none blank\n17 82CFFF picture stop\n18 F12345 picture 12345\n",
    ),
    (
        Ntsc,
        [Run(14, 20), Run(14, 14), Run(900, 10)],
        r#"{"seqNo":1,"vbi":{"vbiData":[0,0,0]},"vbiCause":["change 34","hold 46","unfinished"],"vbiPass":[0,0,0]}"#,
        "field 1 neither\n16 none change 34\n17 none hold 46\n18 none unfinished\n",
    ),
    (
        Ntsc,
        [Run(14, 22), Word(0x82CFFF), Scratched(0x87FFFF)],
        r#"{"seqNo":1,"vbi":{"vbiData":[0,8572927,8912895]},"vbiCause":["hold 72","word","word"],"vbiPass":[0,1,2]}"#,
        "field 1 both\n16 none hold 72\n17 82CFFF picture stop\n18 87FFFF clv\n",
    ),
    (
        Ntsc,
        [Run(0, 1), Word(0xF79999), Word(0xFFFFFF)],
        "{\"seqNo\":1,\"vbi\":{\"vbiData\":[0,16226713,16777215]},\
        \"vbiCause\":[\"change 0\",\"word\",\"word\"],\"vbiPass\":[0,1,1]}",
        "field 1 cav\n16 none change 0\n17 F79999 picture 79999\n18 FFFFFF other\n",
    ),
    (
        Pal,
        [Run(1090, 45), Run(17, 17), Run(1111, 23)],
        r#"{"seqNo":1,"vbi":{"vbiData":[0,0,0]},"vbiCause":["hold 1134","hold 56","change 1134"],"vbiPass":[0,0,0]}"#,
        "field 1 neither\n16 none hold 1134\n17 none hold 56\n18 none change 1134\n",
    ),
    (
        Pal,
        [Word(0x88FFFF), Run(1117, 14), Word(0x8DC0A1)],
        "{\"seqNo\":1,\"vbi\":{\"vbiData\":[8978431,0,9289889]},\
        \"vbiCause\":[\"word\",\"unfinished\",\"word\"],\"vbiPass\":[1,0,1]}",
        "field 1 neither\n16 88FFFF lead-in\n17 none unfinished\n18 8DC0A1 cx on 0A1\n",
    ),
];

#[test]
fn a_field_has_its_record_and_its_part_of_the_report(rt: HostRuntime) -> Result<(), Fail> {
    for &(system, lines, record, part) in &FIELDS {
        let config = config(system, 5)?;
        let stream = field(rt.alloc(), &config, lines)?;
        let ended = whole(1, None, 3 * system.width() as u64);
        let (head, report_head) = heads(system);
        let document = [head, record, TAIL];
        let report = [report_head, part, REPORT_TAIL];
        let texts = Texts(&document, &report);
        writes_both(rt.alloc(), &config, stream.as_slice(), ended, texts)?;
    }
    Ok(())
}

#[test]
fn each_field_has_its_own_words(rt: HostRuntime) -> Result<(), Fail> {
    for system in [Ntsc, Pal] {
        let config = config(system, 5)?;
        let stream = two_fields(rt.alloc(), &config, DRAWN)?;
        let stream = stream.as_slice();
        let ended = whole(2, None, 6 * system.width() as u64);
        let (head, report_head) = heads(system);
        let document = [head, WORDS, SECOND_BLACK, TAIL];
        let tail = "fields 2 cut none\n";
        let report = [report_head, REPORT_WORDS, REPORT_SECOND_BLACK, tail];
        let texts = Texts(&document, &report);
        writes_both(rt.alloc(), &config, stream, ended, texts)?;
    }
    Ok(())
}

/// A system, black and white, and what the heads of a document and of a report say of them.
static HEADS: [(System, u16, u16, &str, &str); 4] = [
    (
        Ntsc,
        0,
        65535,
        r#""black16bIre":0,"white16bIre":65535"#,
        "system NTSC 910x263 black 0 white 65535\n",
    ),
    (
        Ntsc,
        9,
        10,
        r#""black16bIre":9,"white16bIre":10"#,
        "system NTSC 910x263 black 9 white 10\n",
    ),
    (
        Pal,
        0,
        65535,
        r#""black16bIre":0,"white16bIre":65535"#,
        "system PAL 1135x313 black 0 white 65535\n",
    ),
    (
        Pal,
        999,
        1000,
        r#""black16bIre":999,"white16bIre":1000"#,
        "system PAL 1135x313 black 999 white 1000\n",
    ),
];

#[test]
fn an_empty_stream_has_a_head_and_a_tail(rt: HostRuntime) -> Result<(), Fail> {
    for &(system, black, white, levels, report_head) in &HEADS {
        let config = Config::new(system, Levels::new(black, white)?, 5)?;
        let ended = whole(0, None, 0);
        let head = match system {
            Ntsc => r#""system":"NTSC","fieldWidth":910,"fieldHeight":263,"#,
            Pal => r#""system":"PAL","fieldWidth":1135,"fieldHeight":313,"#,
        };
        let report = [report_head, "fields 0 cut none\n"];
        let begin = r#"{"version":2,"videoParameters":{"#;
        let document = [begin, head, levels, "},\"fields\":[\n", TAIL];
        writes_both(rt.alloc(), &config, b"", ended, Texts(&document, &report))?;
    }
    same(
        HEAD.len() + TAIL.len(),
        155,
        "the bytes of an empty document",
    )
}

#[test]
fn nothing_is_held_of_an_empty_stream(rt: HostRuntime) -> Result<(), Fail> {
    let config = config(Ntsc, 5)?;
    let mut tape = Tape::new(b"");
    let mut paper = Paper::new(rt.alloc());
    let mut intake = Intake::new(&mut tape, config.system());
    let mut outlet = Outlet::new(&mut paper);
    let ended = extract(&config, &mut intake, &mut outlet);
    holds(ended.is_ok(), "an empty stream")?;
    same(intake.held(), 0, "held")
}

/// A system, the bytes that a field is cut to, and the samples looked at of its lines 16 to 18.
static CUTS: [(System, u32, &str, u64); 14] = [
    (Ntsc, 1, "1", 0),
    (Ntsc, 27299, "27299", 0),
    (Ntsc, 27300, "27300", 0),
    (Ntsc, 27301, "27301", 0),
    (Ntsc, 32759, "32759", 1820),
    (Ntsc, 32760, "32760", 2730),
    (Ntsc, 478659, "478659", 2730),
    (Pal, 1, "1", 0),
    (Pal, 34050, "34050", 0),
    (Pal, 36320, "36320", 1135),
    (Pal, 40859, "40859", 2270),
    (Pal, 40860, "40860", 3405),
    (Pal, 478660, "478660", 3405),
    (Pal, 710509, "710509", 3405),
];

#[test]
fn a_cut_field_is_named(rt: HostRuntime) -> Result<(), Fail> {
    let ntsc = field(rt.alloc(), &config(Ntsc, 5)?, NONE)?;
    let pal = field(rt.alloc(), &config(Pal, 5)?, NONE)?;
    for &(system, length, bytes, looked) in &CUTS {
        let config = config(system, 5)?;
        let cut = match system {
            Ntsc => front(ntsc.as_slice(), length as usize),
            Pal => front(pal.as_slice(), length as usize),
        };
        let ended = whole(0, Some(length), looked);
        let (head, report_head) = heads(system);
        let document = [head, CUT, bytes, CUT_END];
        let report = [report_head, "fields 0 cut field 1 bytes ", bytes, "\n"];
        writes_both(rt.alloc(), &config, cut, ended, Texts(&document, &report))?;
    }
    Ok(())
}

#[test]
fn a_second_field_that_is_cut_has_number_two(rt: HostRuntime) -> Result<(), Fail> {
    for system in [Ntsc, Pal] {
        let config = config(system, 5)?;
        let mut stream = field(rt.alloc(), &config, NONE)?;
        stream.push(0)?;
        let stream = stream.as_slice();
        let ended = whole(1, Some(1), 3 * system.width() as u64);
        let (head, report_head) = heads(system);
        let cut = "\n],\"cutField\":{\"seqNo\":2,\"bytes\":1}}\n";
        let report_cut = "fields 1 cut field 2 bytes 1\n";
        let document = [head, BLACK, cut];
        let report = [report_head, REPORT_BLACK, report_cut];
        let texts = Texts(&document, &report);
        writes_both(rt.alloc(), &config, stream, ended, texts)?;
    }
    Ok(())
}

#[test]
fn reads_of_any_length_give_one_document(rt: HostRuntime) -> Result<(), Fail> {
    let config = config(Ntsc, 5)?;
    let stream = field(rt.alloc(), &config, DRAWN)?;
    let texts = [HEAD, WORDS, TAIL];
    let wanted = undisturbed(stream.as_slice(), whole(1, None, 2730), &texts);
    writes_by_any_reads(
        rt.alloc(),
        StreamText::Extract,
        &config,
        stream.as_slice(),
        wanted,
    )
}
