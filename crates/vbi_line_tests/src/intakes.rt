//! A line filled from readers that cut, interrupt, fail and end.

use byteorder::{ByteOrder, LittleEndian};
use std::io::Read;
use std::test::Fail;
use vbi_line::{Filled, Intake, IntakeFault};
use vbi_test_devices::{Resumed, Tape, same};
use vbi_words::{Levels, System, Word24, drawn_sample};

/// 82CFFF drawn with NTSC levels 8224 and 16448: each byte is a space or an `@`.
pub(crate) fn stored_line() -> [u8; 1820] {
    let levels = Levels::new(8224, 16448).unwrap();
    let word = Word24::new(0x82CFFF).unwrap();
    let mut samples = [0; 910];
    for column in 0..910 {
        samples[column] = drawn_sample(System::Ntsc, levels, Some(word), column);
    }
    let mut bytes = [0; 1820];
    LittleEndian::write_u16_into(&samples, &mut bytes);
    bytes
}

/// Places in the stored line, and the bytes there.
static STORED: [(usize, u8); 6] = [
    (0, b' '),
    (327, b' '),
    (328, b'@'),
    (383, b'@'),
    (384, b' '),
    (1819, b' '),
];

#[test]
fn the_stored_line_is_text() -> Result<(), Fail> {
    let bytes = stored_line();
    for &(at, byte) in &STORED {
        same(bytes.get(at), Some(&byte), at)?;
    }
    Ok(())
}

type NumberedOutcome = Result<Filled, IntakeFault>;

const FULL: NumberedOutcome = Ok(Filled::Full);

const READ: NumberedOutcome = Err(IntakeFault::Read);

/// What a call of `fill_line` answers, how many bytes are then held and fetched, and how many failures and errors are
/// counted.
type Call = (NumberedOutcome, usize, u64, u64);

/// An answer, beside the counts after it.
fn with_counts<R: Read>(answer: NumberedOutcome, intake: &Intake<R>) -> Call {
    (answer, intake.held(), intake.failures(), intake.errors())
}

/// The most bytes of a read of the stored line, the interruptions before each read, how often the reader then failed
/// and how often it was asked.
static WHOLE: [(usize, usize, u64, u64); 6] = [
    (1, 0, 0, 1820),
    (3, 0, 0, 607),
    (1000, 0, 0, 2),
    (2000, 0, 0, 1),
    (2000, 16, 16, 17),
    (455, 16, 64, 68),
];

/// What a first call of `fill_line` answers, how many bytes were fetched, and how often the reader was asked.
fn first_call(mut reader: Tape, system: System) -> (Call, u64, u64) {
    let mut intake = Intake::new(&mut reader, system);
    let answer = intake.fill_line();
    let call = with_counts(answer, &intake);
    (call, intake.fetched(), intake.into_reader().asked)
}

#[test]
fn reads_of_any_length_fill_a_line() -> Result<(), Fail> {
    let line = stored_line();
    for &(piece, again, failures, asked) in &WHOLE {
        let reader = Tape {
            piece,
            interrupts: again,
            again,
            ..Tape::new(&line)
        };
        let found = first_call(reader, System::Ntsc);
        let call = (FULL, 1820, failures, 0);
        same(found, (call, 1820, asked), (piece, again))?;
    }
    Ok(())
}

/// Interruptions before the first read of 1,000 bytes and before the second, after how many bytes an error comes, what
/// two calls answer, and how often the reader was then asked.
static FAULTS: [(usize, usize, Option<usize>, Call, Call, u64); 5] = [
    (0, 0, Some(1000), (READ, 1000, 1, 1), (FULL, 1820, 1, 1), 3),
    (3, 0, Some(0), (READ, 0, 4, 1), (FULL, 1820, 4, 1), 6),
    (17, 0, None, (READ, 0, 17, 0), (FULL, 1820, 17, 0), 19),
    // Each call bears 16 interruptions.
    (0, 33, None, (READ, 1000, 17, 0), (FULL, 1820, 33, 0), 35),
    (0, 34, None, (READ, 1000, 17, 0), (READ, 1000, 34, 0), 35),
];

/// What two calls of `fill_line` answer, and how many bytes were fetched, where the first call doesn't fill the line.
fn two_calls<R: Read>(reader: &mut R, system: System) -> Option<(Call, Call, u64)> {
    let mut intake = Intake::new(reader, system);
    let answer = intake.fill_line();
    let first = with_counts(answer, &intake);
    if intake.held() >= system.line_bytes() {
        return None;
    }
    let answer = intake.fill_line();
    let second = with_counts(answer, &intake);
    Some((first, second, intake.fetched()))
}

#[test]
fn a_line_is_filled_after_a_fault() -> Result<(), Fail> {
    let line = stored_line();
    for &(interrupts, again, fault, first, second, asked) in &FAULTS {
        let mut reader = Tape {
            piece: 1000,
            interrupts,
            again,
            fault,
            ..Tape::new(&line)
        };
        let found = two_calls(&mut reader, System::Ntsc);
        let expected = Some((first, second, second.1 as u64));
        same(
            (found, reader.asked),
            (expected, asked),
            (interrupts, again),
        )?;
    }
    Ok(())
}

#[test]
fn the_last_byte_may_come_after_the_end() -> Result<(), Fail> {
    let line = stored_line();
    let (first, more) = line.split_at(1819);
    let found = two_calls(&mut Resumed { first, more }, System::Ntsc);
    let short = (Ok(Filled::Ended(1819)), 1819, 0, 0);
    let whole = (FULL, 1820, 0, 0);
    same(found, Some((short, whole, 1820)), "the last byte")
}

/// What a call of `fill_line` answers, the passes over the line and the looks at it; and the bytes held and fetched
/// when it is cleared.
fn cleared(mut reader: Tape) -> (NumberedOutcome, (usize, u64), (usize, u64)) {
    let mut intake = Intake::new(&mut reader, System::Ntsc);
    let answer = intake.fill_line();
    let passes = (intake.passes(), intake.looked());
    intake.clear_line();
    (answer, passes, (intake.held(), intake.fetched()))
}

#[test]
fn a_cleared_line_holds_nothing() -> Result<(), Fail> {
    let line = stored_line();
    let found = cleared(Tape::new(&line));
    same(found, (FULL, (0, 0), (0, 1820)), "a line")
}

/// A system, the bytes of a reader, the answer, and how often the reader is asked, which has a byte for each read.
static SYSTEMS: [(System, usize, NumberedOutcome, u64); 8] = [
    (System::Ntsc, 0, Ok(Filled::Ended(0)), 1),
    (System::Ntsc, 1819, Ok(Filled::Ended(1819)), 1820),
    (System::Ntsc, 1820, FULL, 1820),
    (System::Ntsc, 1821, FULL, 1820),
    (System::Pal, 0, Ok(Filled::Ended(0)), 1),
    (System::Pal, 2269, Ok(Filled::Ended(2269)), 2270),
    (System::Pal, 2270, FULL, 2270),
    (System::Pal, 2271, FULL, 2270),
];

#[test]
fn a_line_has_as_many_bytes_as_its_system_says() -> Result<(), Fail> {
    let bytes = [0; 2271];
    for &(system, count, expected, asked) in &SYSTEMS {
        let (front, _) = bytes.split_at(count.min(2271));
        let mut reader = Tape {
            piece: 1,
            ..Tape::new(front)
        };
        let held = count.min(asked as usize);
        let call = (expected, held, 0, 0);
        if held < system.line_bytes() {
            // A reader that ended is asked again.
            let found = two_calls(&mut reader, system);
            let expected = (Some((call, call, held as u64)), asked + 1);
            same((found, reader.asked), expected, (system, count))?;
        } else {
            let found = first_call(reader, system);
            same(found, (call, held as u64, asked), (system, count))?;
        }
    }
    Ok(())
}
