//! `run_line`: its answers and faults, what was written by then, what its devices were asked, and what was counted.
//!
//! The first three tables run over the stored line, with devices that cut, interrupt and fail: `READ_FAULTS` at each
//! place where a reader can end or fail, `WRITE_FAULTS` at each byte that a writer can refuse, and `WHOLE` where
//! neither does for good. A reader that has a byte for each read is asked once for each, and once more for its end or
//! its error; 16 interruptions in a row are borne, and the 17th is a fault. `RUNS` are lines that show no word, by runs
//! of equal samples, each with its cause; the last test draws words and reads them back. The numbers are those of a
//! line of 910 samples (NTSC) or 1135 (PAL), of two bytes each.

use crate::known::{drawn_line, front, push_samples, stored_line};
use crate::runs::DeviceCalls;
use std::alloc::{AllocError, Global};
use std::test::Fail;
use vbi_cli::{LineFault, run_line};
use vbi_field::{Config, Outlet};
use vbi_line::Intake;
use vbi_test_devices::{Paper, Tape, same};
use vbi_words::Outcome::{self, Blank, Change, Hold, Unfinished};
use vbi_words::System::{self, Ntsc, Pal};
use vbi_words::{Levels, Word24};

/// What a run of `run_line` answers, what the intake and the outlet counted, and what the devices were asked.
#[derive(Clone, Copy, Debug, PartialEq, Eq)]
struct LineRun {
    answer: Result<Outcome, LineFault>,
    fetched: u64,
    read_failures: u64,
    written: u64,
    write_failures: u64,
    asked: DeviceCalls,
}

/// Runs `run_line` between two devices.
fn run_counted(config: &Config, mut tape: Tape, paper: &mut Paper) -> LineRun {
    let mut intake = Intake::new(&mut tape, config.system());
    let mut outlet = Outlet::new(paper);
    let answer = run_line(config, &mut intake, &mut outlet);
    let fetched = intake.fetched();
    let read_failures = intake.failures();
    let written = outlet.written();
    let write_failures = outlet.failures();
    let paper = outlet.into_writer();
    let asked = DeviceCalls {
        reads: intake.into_reader().asked,
        writes: paper.asked,
        flushes: paper.flushed,
    };
    LineRun {
        answer,
        fetched,
        read_failures,
        written,
        write_failures,
        asked,
    }
}

/// The settings of the stored run.
fn stored_config() -> Result<Config, Fail> {
    Ok(Config::new(Ntsc, Levels::new(8224, 16448)?, 1)?)
}

/// The bytes that there are of the stored line, after how many of them the reader fails, the interruptions before its
/// first read, the fault, how many bytes were fetched, how often the reader failed, and how often it was asked: once
/// for the bytes, and once for the end or the fault.
static READ_FAULTS: [(usize, Option<usize>, usize, LineFault, [u64; 3]); 9] = [
    (0, None, 0, LineFault::Short { bytes: 0 }, [0, 0, 1]),
    (1, None, 0, LineFault::Short { bytes: 1 }, [1, 0, 2]),
    (
        1000,
        None,
        0,
        LineFault::Short { bytes: 1000 },
        [1000, 0, 2],
    ),
    (
        1819,
        None,
        0,
        LineFault::Short { bytes: 1819 },
        [1819, 0, 2],
    ),
    (1820, Some(0), 0, LineFault::Read { offset: 0 }, [0, 1, 1]),
    (1820, Some(7), 0, LineFault::Read { offset: 7 }, [7, 1, 2]),
    (
        1820,
        Some(1819),
        0,
        LineFault::Read { offset: 1819 },
        [1819, 1, 2],
    ),
    (
        1820,
        Some(7),
        16,
        LineFault::Read { offset: 7 },
        [7, 17, 18],
    ),
    (1820, None, 17, LineFault::Read { offset: 0 }, [0, 17, 17]),
];

#[test]
fn ends_at_a_read_fault_and_asks_no_more(rt: HostRuntime) -> Result<(), Fail> {
    let config = stored_config()?;
    let line = stored_line(rt.alloc())?;
    for &(bytes, fails_after, interrupts, fault, counts) in &READ_FAULTS {
        let tape = Tape {
            fault: fails_after,
            interrupts,
            ..Tape::new(front(line.as_slice(), bytes))
        };
        let [fetched, read_failures, reads] = counts;
        let done = LineRun {
            answer: Err(fault),
            fetched,
            read_failures,
            written: 0,
            write_failures: 0,
            asked: DeviceCalls {
                reads,
                writes: 0,
                flushes: 0,
            },
        };
        let mut paper = Paper::new(rt.alloc());
        same(run_counted(&config, tape, &mut paper), done, fault)?;
    }
    Ok(())
}

/// The bytes that the writer takes one by one before it fails, the interruptions before its first write, how often it
/// failed, and how often it was asked.
static WRITE_FAULTS: [(u16, usize, [u64; 2]); 8] = [
    (0, 0, [1, 1]),
    (1, 0, [1, 2]),
    (2, 0, [1, 3]),
    (3, 0, [1, 4]),
    (4, 0, [1, 5]),
    (5, 0, [1, 6]),
    (6, 0, [1, 7]),
    (0, 17, [17, 17]),
];

#[test]
fn ends_at_a_write_fault_and_asks_no_more(rt: HostRuntime) -> Result<(), Fail> {
    let config = stored_config()?;
    let line = stored_line(rt.alloc())?;
    for &(room, interrupts, counts) in &WRITE_FAULTS {
        let mut paper = Paper {
            piece: 1,
            interrupts,
            ..Paper::failing(rt.alloc(), room as usize)
        };
        let written = u64::from(room);
        let [write_failures, writes] = counts;
        let done = LineRun {
            answer: Err(LineFault::Write { written }),
            fetched: 1820,
            read_failures: 0,
            written,
            write_failures,
            asked: DeviceCalls {
                reads: 1,
                writes,
                flushes: 0,
            },
        };
        let tape = Tape::new(line.as_slice());
        same(run_counted(&config, tape, &mut paper), done, room)?;
        let taken = front(b"82CFFF\n", room as usize);
        same(paper.taken.as_slice(), taken, room)?;
    }
    Ok(())
}

/// The interruptions before the first read and before the first write, the bytes of each read, and how often the reader
/// and the writer of one byte a write were asked.
static WHOLE: [(usize, usize, usize, [u64; 2]); 4] = [
    (0, 0, 5000, [1, 7]),
    (16, 0, 1, [1836, 7]),
    (0, 16, 3, [607, 23]),
    (16, 16, 1000, [18, 23]),
];

#[test]
fn answers_the_word_of_the_stored_line_however_it_comes(rt: HostRuntime) -> Result<(), Fail> {
    let config = stored_config()?;
    let line = stored_line(rt.alloc())?;
    let word = Outcome::Word(Word24::new(0x82_CFFF)?);
    for &(read_interrupts, interrupts, piece, counts) in &WHOLE {
        let tape = Tape {
            piece,
            interrupts: read_interrupts,
            ..Tape::new(line.as_slice())
        };
        let mut paper = Paper {
            piece: 1,
            interrupts,
            ..Paper::new(rt.alloc())
        };
        let [reads, writes] = counts;
        let done = LineRun {
            answer: Ok(word),
            fetched: 1820,
            read_failures: read_interrupts as u64,
            written: 7,
            write_failures: interrupts as u64,
            asked: DeviceCalls {
                reads,
                writes,
                flushes: 0,
            },
        };
        same(run_counted(&config, tape, &mut paper), done, piece)?;
        same(paper.taken.as_slice(), b"82CFFF\n", piece)?;
    }
    Ok(())
}

/// Fails where a line has another outcome or something else is written, also where other bytes follow, at which the
/// reader fails: it is asked once.
fn answers(
    alloc: Global,
    system: System,
    line: &[u8],
    outcome: Outcome,
    text: &[u8],
) -> Result<(), Fail> {
    let config = Config::new(system, Levels::new(LOW, HIGH)?, 1)?;
    let mut input = Vec::new(alloc);
    input.extend_from_slice(line)?;
    input.extend_from_slice(b"rest")?;
    let tape = Tape::failing(input.as_slice(), line.len());
    let mut paper = Paper::new(alloc);
    let done = LineRun {
        answer: Ok(outcome),
        fetched: line.len() as u64,
        read_failures: 0,
        written: text.len() as u64,
        write_failures: 0,
        asked: DeviceCalls {
            reads: 1,
            writes: 1,
            flushes: 0,
        },
    };
    same(run_counted(&config, tape, &mut paper), done, text)?;
    same(paper.taken.as_slice(), text, text)
}

/// The samples of black and white.
const LOW: u16 = 16384;

const HIGH: u16 = 51200;

/// Runs of equal samples, which black ones fill up to a line, its outcome and what is written of it.
const RUNS: [(System, &[(u16, usize)], Outcome, &[u8]); 9] = [
    (Ntsc, &[], Blank, b"blank\n"),
    (Pal, &[], Blank, b"blank\n"),
    (Ntsc, &[(HIGH, 1)], Change(0), b"change 0\n"),
    (Ntsc, &[(LOW, 14), (HIGH, 20)], Change(34), b"change 34\n"),
    (Ntsc, &[(LOW, 14), (HIGH, 14)], Hold(46), b"hold 46\n"),
    (Ntsc, &[(LOW, 873), (HIGH, 37)], Hold(909), b"hold 909\n"),
    (Ntsc, &[(LOW, 900), (HIGH, 10)], Unfinished, b"unfinished\n"),
    (Pal, &[(LOW, 17), (HIGH, 24)], Change(41), b"change 41\n"),
    (Pal, &[(LOW, 207), (HIGH, 928)], Hold(251), b"hold 251\n"),
];

/// A line of these runs.
fn line_of(alloc: Global, system: System, runs: &[(u16, usize)]) -> Result<Vec<u8>, AllocError> {
    let width = match system {
        Ntsc => 910,
        Pal => 1135,
    };
    let mut line = Vec::new(alloc);
    let mut column = 0usize;
    for &(sample, columns) in runs {
        push_samples(&mut line, sample, 0, columns)?;
        column = column.saturating_add(columns);
    }
    push_samples(&mut line, LOW, column, width)?;
    Ok(line)
}

#[test]
fn writes_the_cause_of_a_line_without_a_word(rt: HostRuntime) -> Result<(), Fail> {
    for &(system, runs, outcome, text) in &RUNS {
        let line = line_of(rt.alloc(), system, runs)?;
        answers(rt.alloc(), system, line.as_slice(), outcome, text)?;
    }
    Ok(())
}

/// The line with these columns black.
fn blackened(alloc: Global, line: &[u8], from: usize, to: usize) -> Result<Vec<u8>, AllocError> {
    let mut bytes = Vec::new(alloc);
    for (i, byte) in line.iter().enumerate() {
        let is_black = from <= i / 2 && i / 2 < to;
        let black = if i % 2 == 0 { 0 } else { 64 };
        bytes.push(if is_black { black } else { *byte })?;
    }
    Ok(bytes)
}

#[test]
fn writes_the_word_of_a_line(rt: HostRuntime) -> Result<(), Fail> {
    let alloc = rt.alloc();
    let line = drawn_line(alloc, Pal, LOW, HIGH, 0x8A_E012)?;
    let word = Outcome::Word(Word24::new(0x8A_E012)?);
    answers(alloc, Pal, line.as_slice(), word, b"8AE012\n")?;
    let line = drawn_line(alloc, Ntsc, LOW, HIGH, 0x82_CFFF)?;
    let word = Outcome::Word(Word24::new(0x82_CFFF)?);
    answers(alloc, Ntsc, line.as_slice(), word, b"82CFFF\n")?;
    // A glitch of three columns is smoothed away, one of four isn't.
    let damaged = blackened(alloc, line.as_slice(), 170, 173)?;
    answers(alloc, Ntsc, damaged.as_slice(), word, b"82CFFF\n")?;
    let damaged = blackened(alloc, line.as_slice(), 170, 174)?;
    let damage = Change(170);
    answers(alloc, Ntsc, damaged.as_slice(), damage, b"change 170\n")
}
