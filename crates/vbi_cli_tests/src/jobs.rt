//! Jobs over memory: what metadata and options settle, what is written, how the command `line` ends, and the texts of
//! the faults.

use crate::asserts::{ends, writes};
use crate::known::{black_stream, drawn_line, front, stored_line};
use crate::runs::{NEVER, NONE, NTSC, PAL, Ran, STORED, job, run_between, run_over};
use std::alloc::Global;
use std::test::Fail;
use vbi_cli::{AppFault, Ended, Job, Verb};
use vbi_meta::{MetaFault, Overrides};
use vbi_test_devices::{Paper, Tape, same};
use vbi_words::System;

const SAME_LEVELS: Overrides = Overrides {
    system: Some(System::Ntsc),
    black: Some(5),
    white: Some(5),
    max_fields: None,
};

/// Metadata of an NTSC capture.
pub(crate) const FULL: &[u8] =
    b"{\"videoParameters\":{\"system\":\"NTSC\",\"fieldWidth\":910,\"fieldHeight\":263,\
        \"black16bIre\":16384,\"white16bIre\":51200,\"sampleRate\":14318181.5},\"fields\":[]}";

pub(crate) const BLACK_FIELD: &str =
    "{\"version\":2,\"videoParameters\":{\"system\":\"NTSC\",\"fieldWidth\":910,\"fieldHeight\":263,\
        \"black16bIre\":16384,\"white16bIre\":51200},\"fields\":[\n\
        {\"seqNo\":1,\"vbi\":{\"vbiData\":[0,0,0]},\"vbiCause\":[\"blank\",\"blank\",\"blank\"],\"vbiPass\":[0,0,0]}\n\
        ],\"cutField\":null}\n";

const DRAWN_FIELD: &str =
    "{\"version\":2,\"videoParameters\":{\"system\":\"NTSC\",\"fieldWidth\":910,\"fieldHeight\":263,\
        \"black16bIre\":16384,\"white16bIre\":51200},\"fields\":[\n\
        {\"seqNo\":1,\"vbi\":{\"vbiData\":[8572927,15803205,15803205]},\
        \"vbiCause\":[\"word\",\"word\",\"word\"],\"vbiPass\":[1,1,1]}\n\
        ],\"cutField\":null}\n";

const REPORT: &str = "system NTSC 910x263 black 16384 white 51200\nfield 1 cav\n\
        16 82CFFF picture stop\n17 F12345 picture 12345\n18 F12345 picture 12345\nfields 1 cut none\n";

/// No field, and one more than is ever allowed.
const NO_FIELD: Overrides = Overrides {
    max_fields: Some(0),
    ..STORED
};

const MILLION_AND_ONE: Overrides = Overrides {
    max_fields: Some(1_000_001),
    ..STORED
};

/// Options and metadata that settle nothing, and why.
static UNSETTLED: [(Overrides, Option<&[u8]>, MetaFault); 8] = [
    (NO_FIELD, None, MetaFault::BadMaxFields),
    (MILLION_AND_ONE, None, MetaFault::BadMaxFields),
    (NO_FIELD, Some(FULL), MetaFault::BadMaxFields),
    // The metadata's width is that of NTSC.
    (PAL, Some(FULL), MetaFault::WidthDiffers),
    (SAME_LEVELS, None, MetaFault::LevelsOrder),
    (NONE, None, MetaFault::NoSystem),
    (STORED, Some(b"{\"a\":NaN}"), MetaFault::NotJson),
    (STORED, Some(b"[]"), MetaFault::NoVideoParameters),
];

#[test]
fn settles_before_it_reads(rt: HostRuntime) -> Result<(), Fail> {
    for (overrides, meta, fault) in &UNSETTLED {
        for verb in [Verb::Line, Verb::Extract, Verb::Show, Verb::Draw] {
            let ran = run_over(rt.alloc(), &job(verb, *overrides), *meta, b"some bytes");
            ends(&ran, Err(AppFault::Meta(*fault)), 1, verb)?;
            same(ran.asked, NEVER, (verb, *fault))?;
        }
    }
    Ok(())
}

/// Fails where a job with the metadata of the NTSC capture writes other bytes than these of an input, or
/// doesn't read all of it.
fn gives(alloc: Global, job: &Job, input: &[u8], text: &[u8]) -> Result<(), Fail> {
    let ran = run_over(alloc, job, Some(FULL), input);
    writes(&ran, Ok(Ended::Whole), text, job.verb)?;
    same(ran.left, 0, job.verb)
}

#[test]
fn extracts_with_metadata(rt: HostRuntime) -> Result<(), Fail> {
    let alloc = rt.alloc();
    let extract = job(Verb::Extract, NONE);
    let field = black_stream(alloc, 478_660)?;
    gives(alloc, &extract, field.as_slice(), BLACK_FIELD.as_bytes())
}

#[test]
fn an_option_stands_before_metadata(rt: HostRuntime) -> Result<(), Fail> {
    let alloc = rt.alloc();
    let brighter = Overrides {
        white: Some(60000),
        ..NONE
    };
    let wanted = b"system NTSC 910x263 black 16384 white 60000\nfields 0 cut none\n";
    gives(alloc, &job(Verb::Show, brighter), b"", wanted)?;

    // The metadata's levels aren't those of the line.
    let line = stored_line(alloc)?;
    let line = line.as_slice();
    gives(alloc, &job(Verb::Line, STORED), line, b"82CFFF\n")?;
    gives(alloc, &job(Verb::Line, NONE), line, b"blank\n")
}

#[test]
fn shows_what_was_drawn(rt: HostRuntime) -> Result<(), Fail> {
    let alloc = rt.alloc();
    let draw = job(Verb::Draw, NONE);
    let rows = b"82CFFF F12345 F12345\n";
    let field = run_over(alloc, &draw, Some(FULL), rows);
    let found = (field.ended, field.written.len());
    same(found, (Ok(Ended::Whole), 478_660), "a field")?;
    let field = field.written.as_slice();
    let extract = job(Verb::Extract, NONE);
    gives(alloc, &extract, field, DRAWN_FIELD.as_bytes())?;
    gives(alloc, &job(Verb::Show, NONE), field, REPORT.as_bytes())
}

/// The system, the bytes that there are of its line, after how many of them the reader fails, the bytes that the writer
/// takes before it fails, and how `line` ends.
static LINES: [(System, usize, Option<usize>, Option<usize>, AppFault); 4] = [
    (
        System::Ntsc,
        1819,
        None,
        None,
        AppFault::Short {
            bytes: 1819,
            wanted: 1820,
        },
    ),
    (
        System::Pal,
        2269,
        None,
        None,
        AppFault::Short {
            bytes: 2269,
            wanted: 2270,
        },
    ),
    (
        System::Ntsc,
        1820,
        Some(7),
        None,
        AppFault::ReadLine { offset: 7 },
    ),
    (
        System::Ntsc,
        1820,
        None,
        Some(3),
        AppFault::Write { written: 3 },
    ),
];

/// Does `line` over a tape, for this system.
fn run_line_of(alloc: Global, system: System, tape: Tape, paper: Paper) -> Ran {
    let overrides = match system {
        System::Ntsc => NTSC,
        System::Pal => PAL,
    };
    run_between(alloc, &job(Verb::Line, overrides), None, tape, paper)
}

#[test]
fn names_the_faults_of_a_line(rt: HostRuntime) -> Result<(), Fail> {
    for &(system, bytes, fails_after, room, fault) in &LINES {
        let line = drawn_line(rt.alloc(), system, 16384, 51200, 0x82_CFFF)?;
        let tape = Tape {
            fault: fails_after,
            ..Tape::new(front(line.as_slice(), bytes))
        };
        let paper = Paper {
            fault: room,
            ..Paper::new(rt.alloc())
        };
        let ran = run_line_of(rt.alloc(), system, tape, paper);
        let taken = front(b"82CFFF\n", room.unwrap_or(0));
        ends(&ran, Err(fault), 1, fault)?;
        same(ran.written.as_slice(), taken, fault)?;
    }
    Ok(())
}

/// The faults of a job and their texts. One of metadata or settings has its own.
static TEXTS: [(AppFault, &str); 8] = [
    (AppFault::Meta(MetaFault::NotJson), "metadata is not JSON"),
    (
        AppFault::ReadField {
            field: 2,
            offset: 1000,
        },
        "read failed in field 2 at byte 1000",
    ),
    (AppFault::ReadLine { offset: 7 }, "read failed at byte 7"),
    (AppFault::ReadRow { number: 3 }, "read failed in row 3"),
    (
        AppFault::Write { written: 150 },
        "write failed after 150 bytes",
    ),
    (AppFault::TooManyFields, "too many fields"),
    (AppFault::Row { number: 2 }, "row 2 is malformed"),
    (
        AppFault::Short {
            bytes: 1819,
            wanted: 1820,
        },
        "short line: 1819 of 1820 bytes",
    ),
];

#[test]
fn faults_have_their_texts(rt: HostRuntime) -> Result<(), Fail> {
    for &(fault, text) in &TEXTS {
        let found = fault.to_string(rt.alloc())?;
        same(found.as_str(), text, fault)?;
    }
    Ok(())
}
