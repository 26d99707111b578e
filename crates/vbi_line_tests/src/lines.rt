//! Lines of samples, and what each reader reports of them.

ghost use Rattle.std.specs.Prelude.{◌≡◌, []};
ghost use Rattle.vbi_line.specs.Line.{IsFull};

use byteorder::{ByteOrder, LittleEndian};
use std::test::Fail;
use vbi_line::{
    Filled, Intake, LineBuf, read_bytes_twice, read_line, read_packed, read_packed_twice,
    read_twice, slice_bytes, slice_lanes,
};
use vbi_test_devices::same;
use vbi_words::{Levels, Outcome, Reading, System, Word24, drawn_sample};

/// An outcome, its word as a number.
#[derive(Clone, Copy, Debug, PartialEq, Eq)]
pub(crate) enum NumberedOutcome {
    Word(u32),
    Blank,
    Unfinished,
    Change(u16),
    Hold(u16),
}

/// The usual levels of a system's lines.
pub(crate) fn levels_of(system: System) -> Levels {
    match system {
        System::Ntsc => Levels::new(16384, 51200).unwrap(),
        System::Pal => Levels::new(16384, 54016).unwrap(),
    }
}

pub(crate) fn set(samples: &mut [u16; 1135], from: usize, to: usize, sample: u16) {
    for column in from..to {
        if column < 1135 {
            samples[column] = sample;
        }
    }
}

/// The samples of the drawn row of a word.
pub(crate) fn drawn(system: System, levels: Levels, value: u32) -> [u16; 1135] {
    let mut samples = [levels.black(); 1135];
    for column in 0..system.width() {
        let word = Word24::new(value).ok();
        samples[column] = drawn_sample(system, levels, word, column);
    }
    samples
}

/// The bytes of these samples, of which a line of NTSC has the first.
fn bytes_of(samples: &[u16; 1135]) -> [u8; 2270] {
    let mut bytes = [0; 2270];
    LittleEndian::write_u16_into(samples, &mut bytes);
    bytes
}

/// A buffer that holds a line of these samples.
pub(crate) fn line_of(system: System, samples: &[u16; 1135]) -> LineBuf
    ensures system { result.system ≡ system }
    ensures full { IsFull result }
    ensures passes { result.cursors ≡ [] }
    ensures looked { result.looked ≡ 0 }
{
    let mut line = LineBuf::new(system);
    let bytes = bytes_of(samples);
    let length = 2 * system.width();
    line.room().copy_from_slice(&bytes[..length]);
    line.commit(length);
    line
}

fn in_numbers(outcome: Outcome) -> NumberedOutcome {
    match outcome {
        Outcome::Word(word) => NumberedOutcome::Word(word.value()),
        Outcome::Blank => NumberedOutcome::Blank,
        Outcome::Unfinished => NumberedOutcome::Unfinished,
        Outcome::Change(column) => NumberedOutcome::Change(column),
        Outcome::Hold(column) => NumberedOutcome::Hold(column),
    }
}

fn with_pass(reading: Reading) -> (NumberedOutcome, u8) {
    (in_numbers(reading.outcome), reading.pass)
}

/// The outcome of a line of these samples.
pub(crate) fn plain(system: System, levels: Levels, samples: &[u16; 1135]) -> NumberedOutcome {
    in_numbers(read_line(&mut line_of(system, samples), system, levels))
}

/// The outcome of the packed levels of a line of these samples.
pub(crate) fn by_bits(system: System, levels: Levels, samples: &[u16; 1135]) -> NumberedOutcome {
    let packed = slice_lanes(&mut line_of(system, samples), levels);
    in_numbers(read_packed(&packed, system))
}

/// The reading of a line of these samples, and its pass.
pub(crate) fn reading(
    system: System,
    levels: Levels,
    samples: &[u16; 1135],
) -> (NumberedOutcome, u8) {
    with_pass(read_twice(&mut line_of(system, samples), system, levels))
}

/// The reading of the line's bytes where they lie, and its pass.
pub(crate) fn in_place(
    system: System,
    levels: Levels,
    samples: &[u16; 1135],
) -> (NumberedOutcome, u8) {
    let bytes = bytes_of(samples);
    let packed = slice_bytes(&bytes[..2 * system.width()], system, levels);
    with_pass(read_packed_twice(&packed, system))
}

/// The reading of the line's bytes where they lie, and its pass, by one call.
pub(crate) fn at_once(
    system: System,
    levels: Levels,
    samples: &[u16; 1135],
) -> (NumberedOutcome, u8) {
    let bytes = bytes_of(samples);
    with_pass(read_bytes_twice(&bytes[..2 * system.width()], system, levels))
}

/// The outcome of an intake that is filled with the bytes of a line.
fn intake_outcome(system: System, levels: Levels, mut line: &[u8]) -> Option<NumberedOutcome> {
    let mut intake = Intake::new(&mut line, system);
    let Ok(Filled::Full) = intake.fill_line() else {
        return None;
    };
    Some(in_numbers(intake.outcome(levels)))
}

/// The reading of an intake that is filled with the bytes of a line, and its pass.
fn intake_reading(
    system: System,
    levels: Levels,
    mut line: &[u8],
) -> Option<(NumberedOutcome, u8)> {
    let mut intake = Intake::new(&mut line, system);
    let Ok(Filled::Full) = intake.fill_line() else {
        return None;
    };
    Some(with_pass(intake.reading(levels)))
}

/// The outcome, and the reading with its pass, of an intake that is filled with the line's bytes.
pub(crate) fn by_intake(
    system: System,
    levels: Levels,
    samples: &[u16; 1135],
) -> Option<(NumberedOutcome, (NumberedOutcome, u8))> {
    let bytes = bytes_of(samples);
    let line = &bytes[..2 * system.width()];
    let outcome = intake_outcome(system, levels, line)?;
    let reading = intake_reading(system, levels, line)?;
    Some((outcome, reading))
}

/// A system, the sample in the high columns of the drawn row of 82CFFF, and its reading by the system's usual levels.
static MIDWAY: [(System, u16, (NumberedOutcome, u8)); 4] = [
    (System::Ntsc, 33792, (NumberedOutcome::Blank, 0)),
    (System::Ntsc, 33793, (NumberedOutcome::Word(0x82CFFF), 1)),
    (System::Pal, 35200, (NumberedOutcome::Blank, 0)),
    (System::Pal, 35201, (NumberedOutcome::Word(0x82CFFF), 1)),
];

#[test]
fn a_sample_midway_is_low() -> Result<(), Fail> {
    for &(system, high, expected) in &MIDWAY {
        let samples = drawn(system, Levels::new(16384, high)?, 0x82CFFF);
        let levels = levels_of(system);
        let found = (
            plain(system, levels, &samples),
            reading(system, levels, &samples),
        );
        same(found, (expected.0, expected), (system, high))?;
    }
    Ok(())
}

/// The passes over a line, and the looks at its samples in these.
fn passes_over(line: &LineBuf) -> (usize, usize) {
    (line.passes(), line.looks())
}

/// The passes over a line of these samples that each reader makes, with their looks.
fn passes_of_readers(system: System, levels: Levels, samples: &[u16; 1135]) -> [(usize, usize); 3] {
    let mut once = line_of(system, samples);
    read_line(&mut once, system, levels);
    let mut twice = line_of(system, samples);
    read_twice(&mut twice, system, levels);
    let mut sliced = line_of(system, samples);
    slice_lanes(&mut sliced, levels);
    [
        passes_over(&once),
        passes_over(&twice),
        passes_over(&sliced),
    ]
}

#[test]
fn each_reader_makes_one_pass() -> Result<(), Fail> {
    for (system, width) in [(System::Ntsc, 910), (System::Pal, 1135)] {
        let levels = levels_of(system);
        let mut samples = [levels.black(); 1135];
        samples[0] = levels.white();
        let found = passes_of_readers(system, levels, &samples);
        same(found, [(1, width); 3], system)?;
    }
    Ok(())
}
