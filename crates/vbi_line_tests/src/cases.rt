//! Lines by their shapes, and what each reader has to report of them.

use crate::lines::{
    NumberedOutcome, at_once, by_bits, by_intake, drawn, in_place, levels_of, plain, reading, set,
};
use std::fmt::Debug;
use std::test::Fail;
use vbi_test_devices::same;
use vbi_words::{Levels, System, Word24};

/// How the levels of a line begin; the rest is low.
#[derive(Clone, Copy, Debug)]
pub(crate) enum Shape {
    /// This many lows, and then this many highs.
    Run(usize, usize),
    /// This many lows, and then runs, the first of them high: the length of each, and how many they are.
    Runs(usize, usize, usize),
    /// The drawn row of a word.
    Drawn(u32),
    /// A word in half cells of the least length, after so many lows.
    Least(u32, usize),
}

/// Columns, from one to another without that, which are made high or low.
#[derive(Clone, Copy, Debug)]
pub(crate) enum Turned {
    Nothing,
    High(usize, usize),
    Low(usize, usize),
}

/// This many lows, and then this many runs of a length, the first of them high; the rest is low.
fn runs(levels: Levels, low: usize, length: usize, count: usize) -> [u16; 1135] {
    let mut samples = [levels.black(); 1135];
    let mut column = low;
    for run in 0..count {
        let end = column.saturating_add(length);
        if run % 2 == 0 {
            set(&mut samples, column, end, levels.white());
        }
        column = end;
    }
    samples
}

/// A word in half cells of the least length, after so many lows.
fn least(system: System, levels: Levels, value: u32, lows: usize) -> [u16; 1135] {
    let mut samples = [levels.black(); 1135];
    if let Ok(word) = Word24::new(value) {
        let mut column = lows;
        for half in 0..48 {
            let end = column.saturating_add(system.half_min());
            if word.half(half) {
                set(&mut samples, column, end, levels.white());
            }
            column = end;
        }
    }
    samples
}

/// The samples of a line of this shape.
fn samples_of(system: System, shape: Shape) -> [u16; 1135] {
    let levels = levels_of(system);
    match shape {
        Shape::Run(low, high) => runs(levels, low, high, 1),
        Shape::Runs(low, length, count) => runs(levels, low, length, count),
        Shape::Drawn(value) => drawn(system, levels, value),
        Shape::Least(value, lows) => least(system, levels, value, lows),
    }
}

/// Fails where a reader reports another outcome than this of some samples, or another reading.
fn shows(
    system: System,
    samples: &[u16; 1135],
    outcome: NumberedOutcome,
    expected: (NumberedOutcome, u8),
    row: impl Debug + Drop,
) -> Result<(), Fail> {
    let levels = levels_of(system);
    let found = (
        plain(system, levels, samples),
        by_bits(system, levels, samples),
        reading(system, levels, samples),
        in_place(system, levels, samples),
        at_once(system, levels, samples),
        by_intake(system, levels, samples),
    );
    let by_intake = Some((outcome, expected));
    same(
        found,
        (outcome, outcome, expected, expected, expected, by_intake),
        row,
    )
}

/// A line, and its outcome, which is its reading as well.
pub(crate) type Clear = (System, Shape, NumberedOutcome);

/// The reading of an outcome that is taken as it is.
fn as_it_is(outcome: NumberedOutcome) -> (NumberedOutcome, u8) {
    match outcome {
        NumberedOutcome::Word(_) => (outcome, 1),
        _ => (outcome, 0),
    }
}

/// Fails where one of these lines is read as something else.
pub(crate) fn are_clear(rows: &[Clear]) -> Result<(), Fail> {
    for &(system, shape, outcome) in rows {
        let samples = samples_of(system, shape);
        shows(
            system,
            &samples,
            outcome,
            as_it_is(outcome),
            (system, shape),
        )?;
    }
    Ok(())
}

/// A line with columns that are turned over, its outcome, and the word of the second pass, or 0 where the reading is
/// the outcome.
pub(crate) type Glitch = (System, Shape, Turned, NumberedOutcome, u32);

/// Fails where one of these lines is read as something else.
pub(crate) fn are_read(rows: &[Glitch]) -> Result<(), Fail> {
    for &(system, shape, turned, outcome, word) in rows {
        let levels = levels_of(system);
        let mut samples = samples_of(system, shape);
        match turned {
            Turned::Nothing => {}
            Turned::High(from, to) => set(&mut samples, from, to, levels.white()),
            Turned::Low(from, to) => set(&mut samples, from, to, levels.black()),
        }
        let expected = match word {
            0 => as_it_is(outcome),
            _ => (NumberedOutcome::Word(word), 2),
        };
        shows(system, &samples, outcome, expected, (system, shape, turned))?;
    }
    Ok(())
}
