//! `extract` and `show` as jobs over black streams: how each ends, what it wrote by then, and how often it asked its
//! devices.

use crate::asserts::ends;
use crate::known::{
    BLACK, HEAD, REPORT_BLACK, REPORT_HEAD, REPORT_TAIL, SECOND_BLACK, SECOND_REPORT_BLACK, TAIL,
    black_stream, front, joined,
};
use crate::runs::{DeviceCalls, NTSC, Ran, job, run_between};
use std::alloc::{AllocError, Global};
use std::test::Fail;
use vbi_cli::{AppFault, Ended, Verb};
use vbi_meta::Overrides;
use vbi_test_devices::{Paper, Tape, same};

/// Does `extract` or `show` for NTSC with the levels 16384 and 51200.
fn run_stream(alloc: Global, verb: Verb, limit: Option<u32>, tape: Tape, paper: Paper) -> Ran {
    let overrides = Overrides {
        max_fields: limit,
        ..NTSC
    };
    run_between(alloc, &job(verb, overrides), None, tape, paper)
}

/// What is written of a stream that begins with so many whole black fields, two at most, and then this text.
fn wanted(alloc: Global, verb: Verb, fields: u32, tail: &str) -> Result<Vec<u8>, AllocError> {
    let (head, first, second) = match verb {
        Verb::Show => (REPORT_HEAD, REPORT_BLACK, SECOND_REPORT_BLACK),
        _ => (HEAD, BLACK, SECOND_BLACK),
    };
    match fields {
        0 => joined(alloc, &[head, tail]),
        1 => joined(alloc, &[head, first, tail]),
        _ => joined(alloc, &[head, first, second, tail]),
    }
}

/// A run over a stream, and what comes of it.
#[derive(Clone, Copy)]
struct StreamRow {
    limit: Option<u32>,
    /// The bytes of the stream.
    bytes: usize,
    /// After how many of them the reader fails.
    fault: Option<usize>,
    ended: Result<Ended, AppFault>,
    status: u8,
    /// The whole fields that were written.
    fields: u32,
    /// How the document ends, and how the report.
    tails: [&'static str; 2],
    /// One for each whole line of 1,820 bytes, one for a part of a line, and one for the end or the fault.
    reads: u64,
}

const EMPTY: StreamRow = StreamRow {
    limit: None,
    bytes: 0,
    fault: None,
    ended: Ok(Ended::Whole),
    status: 0,
    fields: 0,
    tails: [TAIL, "fields 0 cut none\n"],
    reads: 1,
};

/// A run that ends by a fault, after one whole field.
const FAULTY: StreamRow = StreamRow {
    status: 1,
    fields: 1,
    tails: ["", ""],
    ..EMPTY
};

static ROWS: [StreamRow; 10] = [
    EMPTY,
    StreamRow {
        bytes: 478_660,
        fields: 1,
        tails: [TAIL, REPORT_TAIL],
        reads: 264,
        ..EMPTY
    },
    StreamRow {
        bytes: 480_480,
        ended: Ok(Ended::CutField),
        status: 3,
        fields: 1,
        tails: [
            "\n],\"cutField\":{\"seqNo\":2,\"bytes\":1820}}\n",
            "fields 1 cut field 2 bytes 1820\n",
        ],
        reads: 265,
        ..EMPTY
    },
    // At the limit the end is asked for once, as anywhere.
    StreamRow {
        limit: Some(1),
        bytes: 478_659,
        ended: Ok(Ended::CutField),
        status: 3,
        tails: [
            "\n],\"cutField\":{\"seqNo\":1,\"bytes\":478659}}\n",
            "fields 0 cut field 1 bytes 478659\n",
        ],
        reads: 264,
        ..EMPTY
    },
    StreamRow {
        limit: Some(2),
        bytes: 957_320,
        fields: 2,
        tails: [TAIL, "fields 2 cut none\n"],
        reads: 527,
        ..EMPTY
    },
    StreamRow {
        bytes: 957_320,
        fault: Some(479_660),
        ended: Err(AppFault::ReadField {
            field: 2,
            offset: 1000,
        }),
        reads: 265,
        ..FAULTY
    },
    // In place of the end that is asked for at the limit, also where a byte came first.
    StreamRow {
        limit: Some(1),
        bytes: 957_320,
        fault: Some(478_660),
        ended: Err(AppFault::ReadField {
            field: 2,
            offset: 0,
        }),
        reads: 264,
        ..FAULTY
    },
    StreamRow {
        limit: Some(1),
        bytes: 957_320,
        fault: Some(478_665),
        ended: Err(AppFault::ReadField {
            field: 2,
            offset: 5,
        }),
        reads: 265,
        ..FAULTY
    },
    // Where less than a line follows the last field that is allowed, its end is read too.
    StreamRow {
        limit: Some(1),
        bytes: 480_479,
        ended: Err(AppFault::TooManyFields),
        reads: 265,
        ..FAULTY
    },
    StreamRow {
        limit: Some(1),
        bytes: 480_480,
        ended: Err(AppFault::TooManyFields),
        reads: 264,
        ..FAULTY
    },
];

#[test]
fn each_stream_has_its_end_and_its_text(rt: HostRuntime) -> Result<(), Fail> {
    let alloc = rt.alloc();
    let stream = black_stream(alloc, 957_320)?;
    for row in &ROWS {
        let [document_tail, report_tail] = row.tails;
        for (verb, tail) in [(Verb::Extract, document_tail), (Verb::Show, report_tail)] {
            let tape = Tape {
                fault: row.fault,
                ..Tape::new(front(stream.as_slice(), row.bytes))
            };
            let ran = run_stream(alloc, verb, row.limit, tape, Paper::new(alloc));
            ends(&ran, row.ended, row.status, (verb, row.bytes))?;
            let asked = (ran.asked.reads, ran.asked.flushes);
            same(asked, (row.reads, 0), (verb, row.bytes))?;
            let text = wanted(alloc, verb, row.fields, tail)?;
            let written = ran.written.as_slice();
            same(written, text.as_slice(), (verb, row.bytes))?;
        }
    }
    Ok(())
}

/// The command, the bytes that the writer takes one by one before it fails once, and the reads by then: none before
/// the head is whole, a black field's 263 lines before its record is, and then the one for the end.
static WRITE_FAULTS: [(Verb, u32, u64); 13] = [
    (Verb::Extract, 0, 0),
    (Verb::Extract, 134, 0),
    (Verb::Extract, 135, 263),
    (Verb::Extract, 150, 263),
    (Verb::Extract, 226, 263),
    (Verb::Extract, 227, 264),
    (Verb::Extract, 246, 264),
    (Verb::Show, 0, 0),
    (Verb::Show, 43, 0),
    (Verb::Show, 44, 263),
    (Verb::Show, 101, 263),
    (Verb::Show, 102, 264),
    (Verb::Show, 119, 264),
];

#[test]
fn ends_at_a_write_fault_and_asks_no_more(rt: HostRuntime) -> Result<(), Fail> {
    let alloc = rt.alloc();
    let stream = black_stream(alloc, 478_660)?;
    for &(verb, room, reads) in &WRITE_FAULTS {
        let tail = match verb {
            Verb::Show => REPORT_TAIL,
            _ => TAIL,
        };
        let text = wanted(alloc, verb, 1, tail)?;
        let paper = Paper {
            piece: 1,
            ..Paper::failing(alloc, room as usize)
        };
        let ran = run_stream(alloc, verb, None, Tape::new(stream.as_slice()), paper);
        let written = u64::from(room);
        let fault = AppFault::Write { written };
        ends(&ran, Err(fault), 1, (verb, room))?;
        let asked = DeviceCalls {
            reads,
            writes: written + 1,
            flushes: 0,
        };
        same(ran.asked, asked, (verb, room))?;
        let taken = front(text.as_slice(), room as usize);
        same(ran.written.as_slice(), taken, (verb, room))?;
    }
    Ok(())
}
