//! Documents and reports with recovered words, of rows that are worked out by hand.
//!
//! A torn line has five columns of another level, in a cell of 28 columns (NTSC) or 35 (PAL). So its word's row is 5
//! columns off, and that of the word with this cell's bit turned over is 23 or 30 columns off. No row of another word
//! is nearer, since rows of two words differ in 28 columns at least, or 35. Each column counts 70 hundredths.

use crate::fields::Line::{Black, Run, Scratched, Torn, Word};
use crate::fields::{Lines, config, field, front, push_field};
use crate::known::{
    CUT, CUT_END, PAL_RECOVERED_HEAD, PAL_REPORT_HEAD, RECOVERED_HEAD, REPORT_HEAD, REPORT_TAIL,
    TAIL,
};
use crate::runs::{
    Ended, NO_FAILURE, ONE_ERROR, RunCounts, StreamText, answers, undisturbed, whole, writes,
    writes_by_any_reads,
};
use std::test::Fail;
use vbi_field::{Config, RunFault};
use vbi_test_devices::{Paper, Tape};
use vbi_words::System::{self, Ntsc, Pal};

const REPORT_WORDS: &str = "field 1 cav\n16 82CFFF picture stop (recovered)\n\
    17 F12345 picture 12345\n18 F12345 picture 12345 (recovered)\n";

/// The lines 16, 17 and 18 of a field, of which two are torn.
const WORN: Lines = [Torn(0x82CFFF), Word(0xF12345), Torn(0xF12345)];

const WORN_RECORD: &str = "{\"seqNo\":1,\"vbi\":{\"vbiData\":[8572927,15803205,15803205]},\
    \"vbiCause\":[\"change 210\",\"word\",\"change 210\"],\"vbiPass\":[3,1,3],\
    \"vbiNear\":[{\"word\":8572927,\"distance\":350,\"rival\":1610},null,\
    {\"word\":15803205,\"distance\":350,\"rival\":1610}]}";

const PAL_WORN_RECORD: &str = "{\"seqNo\":1,\"vbi\":{\"vbiData\":[8572927,15803205,15803205]},\
    \"vbiCause\":[\"change 299\",\"word\",\"change 299\"],\"vbiPass\":[3,1,3],\
    \"vbiNear\":[{\"word\":8572927,\"distance\":350,\"rival\":2100},null,\
    {\"word\":15803205,\"distance\":350,\"rival\":2100}]}";

/// A system, the lines 16, 17 and 18 of a field, its record, and its part of the report.
static FIELDS: [(System, Lines, &str, &str); 7] = [
    (Ntsc, WORN, WORN_RECORD, REPORT_WORDS),
    (Pal, WORN, PAL_WORN_RECORD, REPORT_WORDS),
    // Lines 17 and 18 together.
    (
        Ntsc,
        [Black, Torn(0xF12345), Torn(0xF12345)],
        "{\"seqNo\":1,\"vbi\":{\"vbiData\":[0,15803205,15803205]},\
        \"vbiCause\":[\"blank\",\"change 210\",\"change 210\"],\"vbiPass\":[0,3,3],\
        \"vbiNear\":[null,{\"word\":15803205,\"distance\":350,\"rival\":1610},\
        {\"word\":15803205,\"distance\":350,\"rival\":1610}]}",
        "field 1 cav\n16 none blank\n17 F12345 picture 12345 (recovered)\n\
        18 F12345 picture 12345 (recovered)\n",
    ),
    // Each for itself, as they have two words.
    (
        Pal,
        [Black, Torn(0x87FFFF), Torn(0xF0DD00)],
        "{\"seqNo\":1,\"vbi\":{\"vbiData\":[0,8912895,15785216]},\
        \"vbiCause\":[\"blank\",\"change 299\",\"change 299\"],\"vbiPass\":[0,3,3],\
        \"vbiNear\":[null,{\"word\":8912895,\"distance\":350,\"rival\":2100},\
        {\"word\":15785216,\"distance\":350,\"rival\":2100}]}",
        "field 1 clv\n16 none blank\n17 87FFFF clv (recovered)\n18 F0DD00 time 0:00 (recovered)\n",
    ),
    // What is sure stays, and nothing is recovered of runs.
    (
        Ntsc,
        [Black, Word(0xF12345), Black],
        "{\"seqNo\":1,\"vbi\":{\"vbiData\":[0,15803205,0]},\
        \"vbiCause\":[\"blank\",\"word\",\"blank\"],\"vbiPass\":[0,1,0],\"vbiNear\":[null,null,null]}",
        "field 1 cav\n16 none blank\n17 F12345 picture 12345\n18 none blank\n",
    ),
    (
        Ntsc,
        [Run(14, 20), Word(0xF12345), Run(900, 10)],
        "{\"seqNo\":1,\"vbi\":{\"vbiData\":[0,15803205,0]},\
        \"vbiCause\":[\"change 34\",\"word\",\"unfinished\"],\"vbiPass\":[0,1,0],\
        \"vbiNear\":[null,null,null]}",
        "field 1 cav\n16 none change 34\n17 F12345 picture 12345\n18 none unfinished\n",
    ),
    // A word of pass 2 is the nearest one of its line, and stays.
    (
        Pal,
        [Scratched(0x82CFFF), Black, Word(0xF12345)],
        "{\"seqNo\":1,\"vbi\":{\"vbiData\":[8572927,0,15803205]},\
        \"vbiCause\":[\"word\",\"blank\",\"word\"],\"vbiPass\":[2,0,1],\"vbiNear\":[null,null,null]}",
        "field 1 cav\n16 82CFFF picture stop\n17 none blank\n18 F12345 picture 12345\n",
    ),
];

/// The heads of a document and of a report with the usual levels.
fn heads(system: System) -> (&'static str, &'static str) {
    match system {
        Ntsc => (RECOVERED_HEAD, REPORT_HEAD),
        Pal => (PAL_RECOVERED_HEAD, PAL_REPORT_HEAD),
    }
}

#[test]
fn a_worn_field_has_its_record_and_its_part_of_the_report(rt: HostRuntime) -> Result<(), Fail> {
    for &(system, lines, record, part) in &FIELDS {
        let config = config(system, 5)?;
        let stream = field(rt.alloc(), &config, lines)?;
        let stream = stream.as_slice();
        let ended = whole(1, None, 3 * system.width() as u64);
        let (head, report_head) = heads(system);
        let document = [head, record, TAIL];
        let wanted = undisturbed(stream, ended, &document);
        writes(
            rt.alloc(),
            StreamText::ExtractRecovered,
            &config,
            stream,
            wanted,
        )?;
        let report = [report_head, part, REPORT_TAIL];
        let wanted = undisturbed(stream, ended, &report);
        writes(
            rt.alloc(),
            StreamText::ShowRecovered,
            &config,
            stream,
            wanted,
        )?;
    }
    Ok(())
}

/// Fails if a run of `extract` with recovery ends otherwise, or writes other texts than these.
fn recovers(
    rt: &HostRuntime,
    config: &Config,
    stream: &[u8],
    ended: Ended,
    texts: &[&str],
) -> Result<(), Fail> {
    let wanted = undisturbed(stream, ended, texts);
    writes(
        rt.alloc(),
        StreamText::ExtractRecovered,
        config,
        stream,
        wanted,
    )
}

#[test]
fn each_field_has_the_words_of_its_own_rows(rt: HostRuntime) -> Result<(), Fail> {
    let config = config(Ntsc, 5)?;
    let mut stream = field(rt.alloc(), &config, WORN)?;
    push_field(&mut stream, &config, [Black, Torn(0x801DDD), Black])?;
    let second = ",\n{\"seqNo\":2,\"vbi\":{\"vbiData\":[0,8396253,0]},\
        \"vbiCause\":[\"blank\",\"change 210\",\"blank\"],\"vbiPass\":[0,3,0],\
        \"vbiNear\":[null,{\"word\":8396253,\"distance\":350,\"rival\":1610},null]}";
    let texts = [RECOVERED_HEAD, WORN_RECORD, second, TAIL];
    let ended = whole(2, None, 6 * 910);
    recovers(&rt, &config, stream.as_slice(), ended, &texts)
}

#[test]
fn a_worn_field_that_is_cut_is_not_recovered(rt: HostRuntime) -> Result<(), Fail> {
    let config = config(Ntsc, 5)?;
    let stream = field(rt.alloc(), &config, WORN)?;
    let cut = front(stream.as_slice(), 478_659);
    let ended = whole(0, Some(478_659), 2730);
    let texts = [RECOVERED_HEAD, CUT, "478659", CUT_END];
    recovers(&rt, &config, cut, ended, &texts)
}

#[test]
fn reads_of_any_length_give_one_recovered_document(rt: HostRuntime) -> Result<(), Fail> {
    let config = config(Ntsc, 5)?;
    let worn = field(rt.alloc(), &config, WORN)?;
    let stream = worn.as_slice();
    let texts = [RECOVERED_HEAD, WORN_RECORD, TAIL];
    let wanted = undisturbed(stream, whole(1, None, 2730), &texts);
    writes_by_any_reads(
        rt.alloc(),
        StreamText::ExtractRecovered,
        &config,
        stream,
        wanted,
    )
}

#[test]
fn faults_are_those_of_extract(rt: HostRuntime) -> Result<(), Fail> {
    let config = config(Ntsc, 5)?;
    let stream = field(rt.alloc(), &config, WORN)?;
    let texts = [RECOVERED_HEAD, WORN_RECORD];
    // The last byte of the field doesn't come, and nothing of its record is written.
    let mut tape = Tape {
        fault: Some(478_659),
        ..Tape::new(stream.as_slice())
    };
    let mut paper = Paper::new(rt.alloc());
    let unread = RunCounts {
        result: Err(RunFault::Read {
            field: 1,
            offset: 478_659,
        }),
        fetched: 478_659,
        read_failures: ONE_ERROR,
        written: RECOVERED_HEAD.len() as u64,
        write_failures: NO_FAILURE,
    };
    let (verb, wanted) = (StreamText::ExtractRecovered, unread.with(&texts));
    answers(verb, &config, &mut tape, &mut paper, wanted)?;

    let mut tape = Tape::new(stream.as_slice());
    let mut paper = Paper::failing(rt.alloc(), 150);
    let unwritten = RunCounts {
        result: Err(RunFault::Write { written: 150 }),
        fetched: 478_660,
        read_failures: NO_FAILURE,
        written: 150,
        write_failures: ONE_ERROR,
    };
    let wanted = unwritten.with(&texts);
    answers(verb, &config, &mut tape, &mut paper, wanted)
}
