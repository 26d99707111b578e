//! `draw` as a job over texts of words: how it ends, what it wrote by then, and how often it asked its devices.

use crate::asserts::ends;
use crate::known::{drawn_fields, front};
use crate::runs::{DeviceCalls, NTSC, Ran, job, run_between};
use std::alloc::Global;
use std::test::Fail;
use vbi_cli::{AppFault, Ended, Verb};
use vbi_meta::Overrides;
use vbi_test_devices::{Paper, Tape, holds, same};

/// Does `draw` for NTSC with the levels 16384 and 51200.
fn run_draw(alloc: Global, limit: Option<u32>, tape: Tape, paper: Paper) -> Ran {
    let overrides = Overrides {
        max_fields: limit,
        ..NTSC
    };
    run_between(alloc, &job(Verb::Draw, overrides), None, tape, paper)
}

/// Words of lines 16, 17 and 18; 0 is no word.
type Words = [u32; 3];

const ONE: Words = [0x82_CFFF, 0, 0];

const THREE: Words = [0x82_CFFF, 0xF1_2345, 0xF1_2345];

const BLACK: Words = [0, 0, 0];

/// How a run may end.
type End = Result<Ended, AppFault>;

const WHOLE: End = Ok(Ended::Whole);

/// The limit and the text of words, after how many of its bytes the reader fails, how the run ends, the fields that are
/// written, and the reads: one for each byte up to the newline of a malformed row or the byte past the limit, or else
/// for all bytes and one for the end or the fault.
static ROWS: [(Option<u32>, &[u8], Option<usize>, End, &[Words], u64); 12] = [
    (None, b"", None, WHOLE, &[], 1),
    (
        None,
        b"82CFFF F12345 F12345\n- - -\n82CFFF - -",
        None,
        WHOLE,
        &[THREE, BLACK, ONE],
        38,
    ),
    // At the limit the end is asked for once, as anywhere.
    (Some(1), b"82CFFF - -", None, WHOLE, &[ONE], 11),
    (Some(1), b"82cfff - -\n", None, WHOLE, &[ONE], 12),
    (
        Some(2),
        b"- - -\n82CFFF - -\n",
        None,
        WHOLE,
        &[BLACK, ONE],
        18,
    ),
    // Without its newline or the end a row isn't whole.
    (
        None,
        b"82CFFF - -\n- - -\n",
        Some(10),
        Err(AppFault::ReadRow { number: 1 }),
        &[],
        11,
    ),
    (
        None,
        b"- - -\n82CFFF - -\n- - -\n",
        Some(17),
        Err(AppFault::ReadRow { number: 3 }),
        &[BLACK, ONE],
        18,
    ),
    // In place of the end that is asked for at the limit.
    (
        Some(1),
        b"- - -\n- - -\n",
        Some(6),
        Err(AppFault::ReadRow { number: 2 }),
        &[BLACK],
        7,
    ),
    (
        None,
        b"7FFFFF - -\n- - -\n",
        None,
        Err(AppFault::Row { number: 1 }),
        &[],
        11,
    ),
    (
        None,
        b"82CFFF F12345 F12345\n82CFFF F12345",
        None,
        Err(AppFault::Row { number: 2 }),
        &[THREE],
        35,
    ),
    (
        Some(1),
        b"- - -\n\n",
        None,
        Err(AppFault::TooManyFields),
        &[BLACK],
        7,
    ),
    (
        Some(2),
        b"82CFFF - -\n- - -\nxyz",
        None,
        Err(AppFault::TooManyFields),
        &[ONE, BLACK],
        18,
    ),
];

#[test]
fn each_text_has_its_end_and_its_fields(rt: HostRuntime) -> Result<(), Fail> {
    let alloc = rt.alloc();
    for &(limit, text, fault, ended, fields, reads) in &ROWS {
        let tape = Tape {
            fault,
            ..Tape::new(text)
        };
        let ran = run_draw(alloc, limit, tape, Paper::new(alloc));
        let code = match ended {
            Ok(_) => 0,
            Err(_) => 1,
        };
        ends(&ran, ended, code, text)?;
        let asked = (ran.asked.reads, ran.asked.flushes);
        same(asked, (reads, 0), text)?;
        let stream = drawn_fields(alloc, fields)?;
        holds(ran.written.as_slice() == stream.as_slice(), text)?;
    }
    Ok(())
}

/// A text of words, the bytes that the writer takes one by one before it fails once, the fields of which these are
/// the first, and the reads: one for each byte of the rows up to the one that isn't written whole.
static WRITE_FAULTS: [(&[u8], u32, &[Words], u64); 4] = [
    (b"82CFFF - -\n", 0, &[ONE], 11),
    (b"82CFFF - -\n- - -\n", 1000, &[ONE], 11),
    (b"- - -\n82CFFF - -\n", 478_659, &[BLACK, ONE], 6),
    (b"- - -\n82CFFF - -\n", 478_660, &[BLACK, ONE], 17),
];

#[test]
fn ends_at_a_write_fault_and_asks_no_more(rt: HostRuntime) -> Result<(), Fail> {
    let alloc = rt.alloc();
    for &(text, room, fields, reads) in &WRITE_FAULTS {
        let paper = Paper {
            piece: 1,
            ..Paper::failing(alloc, room as usize)
        };
        let ran = run_draw(alloc, None, Tape::new(text), paper);
        let written = u64::from(room);
        ends(&ran, Err(AppFault::Write { written }), 1, (text, room))?;
        let asked = DeviceCalls {
            reads,
            writes: written + 1,
            flushes: 0,
        };
        same(ran.asked, asked, (text, room))?;
        let stream = drawn_fields(alloc, fields)?;
        let taken = front(stream.as_slice(), room as usize);
        holds(ran.written.as_slice() == taken, (text, room))?;
    }
    Ok(())
}
