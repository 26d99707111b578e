//! Parts of a story that hang together: runs of one row, and groups of runs that near steps join.

ghost use Rattle.std.specs.Prelude.{◌≡◌, ℕ, ◌≤◌, ◌<◌, ◌^◌, length};
ghost use Rattle.vbi_story.specs.Story.{reading_at, row_price, weight};
ghost use Rattle.vbi_story.specs.Beliefs.{part, step_to, IsChain};

use crate::reading::{FAR, NEAR, NEAR_REACH, NumberReading, reading_at};

/// A part of what is told, and what it weighs.
#[derive(Clone, Copy)]
pub(crate) struct Chain {
    /// The place of its first reading.
    pub(crate) begin: usize,
    /// The place after that of its last.
    pub(crate) end: usize,
    /// The sum of its weights.
    pub(crate) weight: u32,
}

/// Returns the price of a step from one row to another.
pub(crate) fn row_price(from: u32, to: u32) -> u32
    ensures value { result ≡ row_price from to }
    ensures range { result ≤ 10 }
{
    if from == to {
        0
    } else if from.abs_diff(to) <= NEAR_REACH as u32 {
        NEAR
    } else {
        FAR
    }
}

/// Returns the price of the step that leads to this place.
pub(crate) fn step_to(told: &[NumberReading], place: usize) -> u32
    requires first { 1 ≤ place }
    requires inside { place < length told.now }
    ensures value { result ≡ step_to told.now place }
    ensures range { result ≤ 10 }
{
    row_price(reading_at(told, place - 1).row, reading_at(told, place).row)
}

/// Returns the chain that begins here, of which no step costs more than this.
pub(crate) fn chain_from(told: &[NumberReading], begin: usize, most: u32) -> Chain
    requires inside { begin < length told.now }
    requires few { length told.now ≤ 2 ^ 28 }
    requires light { (i : ℕ) → i < length told.now → (reading_at told.now i).weight ≤ 4 }
    requires begins { 0 < begin → most < step_to told.now begin }
    ensures begin { result.begin ≡ begin }
    ensures chain { IsChain most told.now begin result.end }
    ensures weight { result.weight ≡ weight (part told.now begin result.end) }
    ensures range { result.weight ≤ 2 ^ 30 }
{
    let mut end = begin + 1;
    let mut weight = reading_at(told, begin).weight;
    while end < told.len() && step_to(told, end) <= most {
        weight += reading_at(told, end).weight;
        end += 1;
    }
    Chain { begin, end, weight }
}
