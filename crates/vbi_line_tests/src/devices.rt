//! Devices that are asked once a call.

use std::test::Fail as TestFail;
use vbi_line::{Counted, Fail};
use vbi_test_devices::{Paper, Tape, holds, same};

/// What a call answers, and how many failures and errors are counted after it.
type Asked = (Result<usize, Fail>, u64, u64);

const OTHER: Result<usize, Fail> = Err(Fail::Other);

const INTERRUPTED: Result<usize, Fail> = Err(Fail::Interrupted);

/// How a writer is set: its interruptions, the bytes before it fails, and whether it then takes none in place of an
/// error; what it answers to three bytes and to three more, and what it took.
static WRITERS: [(usize, Option<usize>, bool, [Asked; 2], &[u8]); 4] = [
    (0, None, false, [(Ok(3), 0, 0), (Ok(3), 0, 0)], b"abcabc"),
    (0, Some(2), true, [(Ok(2), 0, 0), (OTHER, 1, 1)], b"ab"),
    (0, Some(0), false, [(OTHER, 1, 1), (Ok(3), 1, 1)], b"abc"),
    (1, None, false, [(INTERRUPTED, 1, 0), (Ok(3), 1, 0)], b"abc"),
];

/// An answer, beside the counts after it.
fn with_counts<D>(answer: Result<usize, Fail>, counted: &Counted<D>) -> Asked {
    (answer, counted.failures(), counted.errors())
}

/// What a writer answers to three bytes and to three more, and the writer after that; none where the first call counts
/// more than one failure.
fn two_writes(mut paper: Paper) -> Option<([Asked; 2], Paper)> {
    let mut counted = Counted::new(&mut paper);
    let answer = counted.write_once(b"abc");
    let first = with_counts(answer, &counted);
    if counted.failures() > 1 {
        return None;
    }
    let answer = counted.write_once(b"abc");
    let second = with_counts(answer, &counted);
    Some(([first, second], paper))
}

/// Fails where a writer answers two writes otherwise, or has taken something else after them.
fn takes(paper: Paper, expected: [Asked; 2], taken: &[u8]) -> Result<(), TestFail> {
    let (answers, paper) = two_writes(paper).ok_or("failures of a write")?;
    let found = (answers, paper.asked, paper.flushed);
    same(found, (expected, 2, 0), "two writes")?;
    same(paper.taken.as_slice(), taken, expected)
}

#[test]
fn a_writer_is_asked_once_and_its_failures_are_counted(rt: HostRuntime) -> Result<(), TestFail> {
    for &(interrupts, fault, jams, expected, taken) in &WRITERS {
        let paper = Paper {
            interrupts,
            fault,
            jams,
            ..Paper::new(rt.alloc())
        };
        takes(paper, expected, taken)?;
    }
    Ok(())
}

#[test]
fn no_byte_is_owed_of_none(rt: HostRuntime) -> Result<(), TestFail> {
    let mut paper = Paper::new(rt.alloc());
    let mut counted = Counted::new(&mut paper);
    let answer = counted.write_once(b"");
    same((answer, counted.failures()), (Ok(0), 0), "no bytes")
}

/// Fails where a reader answers something else when it is asked for bytes.
fn reads(counted: &mut Counted<Tape>, room: &mut [u8], expected: Asked) -> Result<(), TestFail> {
    holds(counted.failures() < 10, expected)?;
    let answer = counted.read_once(room);
    same(with_counts(answer, counted), expected, "a read")
}

/// What a reader that is first interrupted, gives two bytes, fails and then has another answers to five calls.
static READS: [Asked; 5] = [
    (INTERRUPTED, 1, 0),
    (Ok(2), 1, 0),
    (OTHER, 2, 1),
    (Ok(1), 2, 1),
    (Ok(0), 2, 1),
];

#[test]
fn a_reader_is_asked_once_and_its_failures_are_counted() -> Result<(), TestFail> {
    let mut reader = Tape {
        piece: 2,
        interrupts: 1,
        ..Tape::failing(b"abc", 2)
    };
    let mut counted = Counted::new(&mut reader);
    let mut room = [0; 4];
    for &expected in &READS {
        reads(&mut counted, &mut room, expected)?;
    }
    holds(room == *b"cb\0\0", "the bytes read")?;
    same(counted.into_inner().asked, 5, "the reads")
}
