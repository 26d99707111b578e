//! Texts of words as they are drawn, from readers that interrupt and fail to writers that cut, interrupt and fail.
//!
//! `ROWS` has texts with their answers, good ones and each kind of bad one; a fault names its row, from 1.
//! `READ_FAULTS`, `WRITE_FAULTS`, `TWO_FAULTS` and `INTERRUPTED` have devices that fail, what was written by then, and
//! which of two faults is the answer: the one that is met first. A reader is asked once for each byte, and once more
//! where the end is met; 16 interruptions in a row are borne.
//!
//! `NTSC_PARTS` and `PAL_PARTS` have the samples of one field from boundary to boundary of its half cells, by their
//! columns, which were worked out by hand. They change with the law `worked_columns` of vbi_words.

use crate::fields::config;
use crate::runs::{Drawn, FailureCounts, NO_FAILURE, ONE_ERROR, drew, interruptions};
use std::alloc::Global;
use std::test::Fail;
use vbi_field::{Config, DrawFault};
use vbi_test_devices::{Paper, Tape, holds, same};
use vbi_words::{Levels, System};

const FIELD: u64 = 478_660;

/// The systems, and the bytes of a field of each.
static SYSTEMS: [(System, u64); 2] = [(System::Ntsc, FIELD), (System::Pal, 710_510)];

type Ended = Result<u32, DrawFault>;

const FIRST: Ended = Err(DrawFault::Row { number: 1 });

const SECOND: Ended = Err(DrawFault::Row { number: 2 });

const TOO_MANY: Ended = Err(DrawFault::TooManyFields);

/// A text, the limit of fields, the answer, the bytes fetched, how often the reader was asked (for each byte, and where
/// the end is met once more), and the fields written.
static ROWS: [(&[u8], u32, Ended, u64, u64, u64); 15] = [
    (b"", 9, Ok(0), 0, 1, 0),
    (b"82CFFF - -", 9, Ok(1), 10, 11, 1),
    (b"82CFFF - -", 1, Ok(1), 10, 11, 1),
    (b"82CFFF - -\n- - F12345", 2, Ok(2), 21, 22, 2),
    (b"82CFFF - -\n82CFFF F12345", 9, SECOND, 24, 25, 1),
    (b"7FFFFF - -", 9, FIRST, 10, 11, 0),
    (b"7FFFFF - -\n- - -\n", 9, FIRST, 11, 11, 0),
    (b"82CFFF - -\r\n", 9, FIRST, 12, 12, 0),
    (b"888888888888888888888888888888", 9, FIRST, 21, 21, 0),
    (b"- - -\n\n", 1, TOO_MANY, 7, 7, 1),
    (b"- - -\n", 1, Ok(1), 6, 7, 1),
    (b"- - -\n", 9, Ok(1), 6, 7, 1),
    (b"82CFFF  F12345 -", 9, FIRST, 16, 17, 0),
    (b"82CFFF F12345 F12345 ", 9, FIRST, 21, 21, 0),
    (b"- - -\n\n", 9, SECOND, 7, 7, 1),
];

/// Fails where drawing a text of words answers otherwise, or the writer took other bytes than were counted or was
/// flushed.
fn draws(config: &Config, words: Tape, mut paper: Paper, answer: Drawn) -> Result<(), Fail> {
    same(drew(config, words, &mut paper), answer, "drawn")?;
    let taken = (paper.taken.len() as u64, paper.flushed);
    same(taken, (answer.written, 0), answer)
}

#[test]
fn each_text_has_its_answer(rt: HostRuntime) -> Result<(), Fail> {
    for &(bytes, limit, result, fetched, asked, fields) in &ROWS {
        for &(system, field_bytes) in &SYSTEMS {
            let answer = Drawn {
                result,
                fetched,
                read_failures: NO_FAILURE,
                asked,
                written: fields.wrapping_mul(field_bytes),
                write_failures: NO_FAILURE,
            };
            let paper = Paper::new(rt.alloc());
            draws(&config(system, limit)?, Tape::new(bytes), paper, answer)?;
        }
    }
    Ok(())
}

/// The field that a text of words draws, which has to be one row.
fn drawn(text: &[u8], mut paper: Paper) -> Result<Vec<u8>, Fail> {
    let run = drew(&config(System::Ntsc, 9)?, Tape::new(text), &mut paper);
    same(run.result, Ok(1), text)?;
    Ok(paper.taken)
}

#[test]
fn lower_case_draws_the_same_field(rt: HostRuntime) -> Result<(), Fail> {
    let upper = drawn(b"82CFFF ABCDEF -", Paper::new(rt.alloc()))?;
    for text in [b"82cfff aBcDeF -", b"82CFFF abcdef -"] {
        let found = drawn(text, Paper::new(rt.alloc()))?;
        holds(found.as_slice() == upper.as_slice(), text)?;
    }
    Ok(())
}

#[test]
fn a_writer_that_cuts_and_interrupts_gets_the_same_field(rt: HostRuntime) -> Result<(), Fail> {
    let text = b"82CFFF ABCDEF -";
    let plain = drawn(text, Paper::new(rt.alloc()))?;
    let cut = Paper {
        piece: 1000,
        interrupts: 16,
        again: 16,
        ..Paper::new(rt.alloc())
    };
    let cut = drawn(text, cut)?;
    holds(plain.as_slice() == cut.as_slice(), "cut and interrupted")
}

/// The bytes of two good rows that come before the fault, the limit of fields, the row of the fault and the bytes
/// written.
static READ_FAULTS: [(usize, u32, u32, u64); 5] = [
    (0, 9, 1, 0),
    (20, 9, 1, 0),
    (21, 9, 2, FIELD),
    (24, 9, 2, FIELD),
    (21, 1, 2, FIELD),
];

#[test]
fn a_read_fault_leaves_whole_fields(rt: HostRuntime) -> Result<(), Fail> {
    for &(count, limit, number, written) in &READ_FAULTS {
        let words = Tape::failing(b"82CFFF F12345 F12345\n- - -\n", count);
        let answer = Drawn {
            result: Err(DrawFault::Read { number }),
            fetched: count as u64,
            read_failures: ONE_ERROR,
            asked: count as u64 + 1,
            written,
            write_failures: NO_FAILURE,
        };
        let config = config(System::Ntsc, limit)?;
        draws(&config, words, Paper::new(rt.alloc()), answer)?;
    }
    Ok(())
}

/// How a writer is set that takes 1,000 bytes of a field: the most of a write and the interruptions before each, how
/// often it is asked until it fails, and how often it fails by then, the last time by an error.
static WRITE_FAULTS: [(usize, usize, u64, u64); 3] = [
    (1_000_000, 0, 2, 1),
    (1, 0, 1001, 1),
    // 125 writes of 8 bytes and the one that fails.
    (8, 2, 378, 253),
];

#[test]
fn a_write_fault_has_its_count(rt: HostRuntime) -> Result<(), Fail> {
    let config = config(System::Ntsc, 9)?;
    for &(piece, interrupts, asked, all) in &WRITE_FAULTS {
        let mut paper = Paper {
            piece,
            interrupts,
            again: interrupts,
            ..Paper::failing(rt.alloc(), 1000)
        };
        let words = Tape::new(b"82CFFF F12345 F12345\n");
        let answer = Drawn {
            result: Err(DrawFault::Write { written: 1000 }),
            fetched: 21,
            read_failures: NO_FAILURE,
            asked: 21,
            written: 1000,
            write_failures: FailureCounts { all, errors: 1 },
        };
        same(drew(&config, words, &mut paper), answer, piece)?;
        let taken = (paper.taken.len(), paper.asked, paper.flushed);
        same(taken, (1000, asked, 0), piece)?;
    }
    Ok(())
}

const WRITE: Ended = Err(DrawFault::Write { written: 1000 });

/// A text of words with two faults where one field is allowed, after how many bytes the writer fails, and the answer:
/// the fault that is met first.
static TWO_FAULTS: [(&[u8], usize, Ended); 4] = [
    (b"82CFFF\n", 0, FIRST),
    (b"- - -\nx\n", 1000, WRITE),
    (b"- - -\nx\n", 478_660, TOO_MANY),
    (b"- - -\n888888888888888888888", 478_660, TOO_MANY),
];

#[test]
fn the_first_of_two_faults_is_the_answer(rt: HostRuntime) -> Result<(), Fail> {
    let config = config(System::Ntsc, 1)?;
    for &(text, count, result) in &TWO_FAULTS {
        let mut paper = Paper::failing(rt.alloc(), count);
        let run = drew(&config, Tape::new(text), &mut paper);
        same(run.result, result, text)?;
    }
    Ok(())
}

/// The interruptions before a row's first byte, and before each other byte and the end, which are borne up to 16 in a
/// row; the answer, the bytes fetched, how often the reader failed and was asked, and the bytes written.
static INTERRUPTED: [(usize, usize, Ended, u64, usize, u64, u64); 2] = [
    (16, 16, Ok(1), 6, 112, 119, FIELD),
    (0, 17, Err(DrawFault::Read { number: 1 }), 1, 17, 18, 0),
];

#[test]
fn sixteen_interruptions_before_each_byte_are_borne(rt: HostRuntime) -> Result<(), Fail> {
    let config = config(System::Ntsc, 9)?;
    for &(interrupts, again, result, fetched, failures, asked, written) in &INTERRUPTED {
        let words = Tape {
            interrupts,
            again,
            ..Tape::new(b"- - -\n")
        };
        let answer = Drawn {
            result,
            fetched,
            read_failures: interruptions(failures),
            asked,
            written,
            write_failures: NO_FAILURE,
        };
        draws(&config, words, Paper::new(rt.alloc()), answer)?;
    }
    Ok(())
}

/// The sample at a column of a row of the first field.
fn sample(bytes: &[u8], line_bytes: usize, row: usize, column: usize) -> Option<u32> {
    let at = row
        .wrapping_mul(line_bytes)
        .wrapping_add(column.wrapping_mul(2));
    let low = *bytes.get(at)?;
    let high = *bytes.get(at.wrapping_add(1))?;
    Some(u32::from(low) + 256 * u32::from(high))
}

const BLACK: u32 = 16384;

const WHITE: u32 = 51200;

/// Columns of a row from one to another, without that, all of which have a sample.
type Part = (usize, usize, usize, u32);

static NTSC_PARTS: [Part; 16] = [
    (14, 0, 910, BLACK),
    (15, 0, 910, BLACK),
    (16, 0, 164, BLACK),
    (16, 164, 178, WHITE),
    (16, 178, 192, BLACK),
    (16, 192, 207, WHITE),
    (16, 207, 221, BLACK),
    (16, 808, 822, BLACK),
    (16, 822, 837, WHITE),
    (16, 837, 910, BLACK),
    (17, 0, 164, BLACK),
    (17, 164, 192, WHITE),
    (17, 192, 207, BLACK),
    (17, 808, 822, WHITE),
    (17, 822, 910, BLACK),
    (18, 0, 910, BLACK),
];

static PAL_PARTS: [Part; 16] = [
    (14, 0, 1135, BLACK),
    (15, 0, 1135, BLACK),
    (16, 0, 207, BLACK),
    (16, 207, 225, WHITE),
    (16, 225, 243, BLACK),
    (16, 243, 260, WHITE),
    (16, 260, 278, BLACK),
    (16, 1005, 1023, BLACK),
    (16, 1023, 1041, WHITE),
    (16, 1041, 1135, BLACK),
    (17, 0, 207, BLACK),
    (17, 207, 243, WHITE),
    (17, 243, 260, BLACK),
    (17, 1005, 1023, WHITE),
    (17, 1023, 1135, BLACK),
    (18, 0, 1135, BLACK),
];

/// Fails where a part of the field of line 17 F12345 and line 18 800000 has another sample.
fn has_parts(alloc: Global, system: System, width: usize, parts: &[Part]) -> Result<(), Fail> {
    let config = Config::new(system, Levels::new(16384, 51200)?, 9)?;
    let mut paper = Paper::new(alloc);
    drew(&config, Tape::new(b"- F12345 800000"), &mut paper);
    for &(row, from, to, expected) in parts {
        for column in from..to {
            let found = sample(paper.taken.as_slice(), width.wrapping_mul(2), row, column);
            same(found, Some(expected), (system, row, column))?;
        }
    }
    Ok(())
}

// The boundaries of half cells of one microsecond from column 150 or 190 on: floor(j * 315 / 22) and floor(j * 709379 /
// 40000).
#[test]
fn half_cells_are_drawn_from_boundary_to_boundary(rt: HostRuntime) -> Result<(), Fail> {
    has_parts(rt.alloc(), System::Ntsc, 910, &NTSC_PARTS)?;
    has_parts(rt.alloc(), System::Pal, 1135, &PAL_PARTS)
}
