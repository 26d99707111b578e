//! Which of the told readings are believed.
//!
//! A story tells misread numbers too, where nothing else was read, or where they outweigh what was. So a reading that
//! is told is believed only if three things hold. Its **group** weighs 10 or more: its run, and those that steps to
//! near rows join to it. Without its **run**, the readings on one row among which it is told, the story would be worth
//! more than 4 less. So would be the best story through any other number that its field shows: of two misread lines
//! that go on as well, neither is believed.
//!
//! The bounds are what `believed_is_true` rests on: to leave a row for a near one and come back costs 6, and with the
//! margin of 4 what is misread between true readings has to weigh more than 10 before any of it is believed; and 23 if
//! all of it is far off.

ghost use Rattle.std.specs.Prelude.{◌≡◌, ◌≢◌, ◌⊎◌, ◌↔◌, ℕ, ◌+◌, ◌-◌, ◌<◌, ◌≤◌, ◌^◌, length, slice_index};
ghost use Rattle.std.specs.Prelude.{slice_index_or};
ghost use Rattle.std.specs.Prelude.{true, false};
ghost use Rattle.vbi_story.specs.Story.{reading_at, row_price, IsStory, weight, price, near};
ghost use Rattle.vbi_story.specs.Beliefs.{part, step_to, without, mark_at, IsChain, IsFarBehind, IsHeavy, IsHeld};
ghost use Rattle.vbi_story.specs.Beliefs.{IsRivalled};
ghost use Rattle.vbi_story.specs.Beliefs.{IsBelieved};
ghost use Rattle.vbi_story.specs.Rivals.{AreBounds, AreReached};

use crate::chain::{Chain, chain_from, row_price, step_to};
use crate::reading::{NEAR, NumberReading, reading_at};

/// The weight from which on a group is believed: five lines of pass 1, so that no two fields bring it about.
pub const GROUP_ENOUGH: u32 = 10;

/// How much less a story has to be worth to be no rival: what one field weighs at most, so that none decides alone.
pub const STORY_MARGIN: u32 = 4;

/// Returns the price of the step that leads to this place; there is none to the first, and none past the last.
fn price_at(told: &[NumberReading], place: usize) -> u32
    requires { place ≤ length told.now }
    ensures first { place ≡ 0 → result ≡ 0 }
    ensures past { place ≡ length told.now → result ≡ 0 }
    ensures inside { 0 < place → place < length told.now → result ≡ step_to told.now place }
    ensures range { result ≤ 10 }
{
    if place == 0 || place == told.len() {
        0
    } else {
        step_to(told, place)
    }
}

/// Returns the price of the step over what is told from one place up to another.
fn price_over(told: &[NumberReading], begin: usize, end: usize) -> u32
    requires inside { end ≤ length told.now }
    requires some { begin < end }
    ensures first { begin ≡ 0 → result ≡ 0 }
    ensures past { end ≡ length told.now → result ≡ 0 }
    ensures inside { 0 < begin → end < length told.now
        → result ≡ row_price (reading_at told.now (begin - 1)).row (reading_at told.now end).row }
    ensures range { result ≤ 10 }
{
    if begin == 0 || end == told.len() {
        0
    } else {
        row_price(reading_at(told, begin - 1).row, reading_at(told, end).row)
    }
}

/// Whether without this run the story would be far behind.
fn is_held(told: &[NumberReading], run: Chain) -> bool
    requires run { IsChain 0 told.now run.begin run.end }
    requires weight { run.weight ≡ weight (part told.now run.begin run.end) }
    requires range { run.weight ≤ 2 ^ 30 }
    ensures { (result ≡ true) ↔ IsFarBehind (without told.now run.begin run.end) told.now }
{
    let around = price_at(told, run.begin) + price_at(told, run.end);
    let over = price_over(told, run.begin, run.end);
    around + STORY_MARGIN < run.weight + over
}

/// Marks each of these places alike.
fn mark(marks: &mut [bool], begin: usize, end: usize, holds: bool)
    requires order { begin ≤ end }
    requires inside { end ≤ length marks.old }
    ensures length { length marks.new ≡ length marks.old }
    ensures here { (i : ℕ) → begin ≤ i → i < end → mark_at marks.new i ≡ holds }
    ensures other { (i : ℕ) → (i < begin) ⊎ (end ≤ i) → mark_at marks.new i ≡ mark_at marks.old i }
{
    for place in begin..end {
        marks[place] = holds;
    }
}

/// Marks what stands in groups that weigh enough.
fn mark_groups(told: &[NumberReading], marks: &mut [bool])
    requires few { length told.now ≤ 2 ^ 28 }
    requires light { (i : ℕ) → i < length told.now → (reading_at told.now i).weight ≤ 4 }
    requires marks_are { length marks.old ≡ length told.now }
    ensures marks_are { length marks.new ≡ length told.now }
    ensures marks { (i : ℕ) → i < length told.now → (mark_at marks.new i ≡ true ↔ IsHeavy told.now i) }
{
    let mut place = 0;
    while place < told.len() {
        let group = chain_from(told, place, NEAR);
        mark(marks, place, group.end, group.weight >= GROUP_ENOUGH);
        place = group.end;
    }
}

/// Takes the mark from each run without which the story wouldn't be far behind.
fn unmark_runs(told: &[NumberReading], marks: &mut [bool])
    requires few { length told.now ≤ 2 ^ 28 }
    requires light { (i : ℕ) → i < length told.now → (reading_at told.now i).weight ≤ 4 }
    requires marks_are { length marks.old ≡ length told.now }
    ensures marks_are { length marks.new ≡ length told.now }
    ensures marks { (i : ℕ) → i < length told.now
        → (mark_at marks.new i ≡ true ↔ ((mark_at marks.old i ≡ true) × IsHeld told.now i)) }
{
    let mut place = 0;
    while place < told.len() {
        let run = chain_from(told, place, 0);
        if !is_held(told, run) {
            mark(marks, place, run.end, false);
        }
        place = run.end;
    }
}

/// Returns the place of the first reading that is of this field or a later one, from one on before which all are
/// earlier.
fn first_of_field(readings: &[NumberReading], begin: usize, field: u32) -> usize
    requires begin { begin ≤ length readings.now }
    requires earlier { (k : ℕ) → k < begin → (reading_at readings.now k).field < field }
    ensures inside { result ≤ length readings.now }
    ensures earlier { (k : ℕ) → k < result → (reading_at readings.now k).field < field }
{
    let mut place = begin;
    while place < readings.len() && reading_at(readings, place).field < field {
        place += 1;
    }
    place
}

/// Whether the best story through another number of this reading's field is worth nearly as much as this. From the
/// first place on no reading of the field is missing.
fn is_rivalled(
    readings: &[NumberReading],
    bounds: &[u32],
    begin: usize,
    reading: NumberReading,
    worth: u32,
) -> bool
    requires bounds_are { length bounds.now ≡ length readings.now }
    requires in_order { (i k : ℕ) → i ≤ k → k < length readings.now
        → (reading_at readings.now i).field ≤ (reading_at readings.now k).field }
    requires earlier { (k : ℕ) → k < begin → (reading_at readings.now k).field < reading.field }
    ensures { (result ≡ true) ↔ IsRivalled readings.now bounds.now worth reading }
{
    for place in begin..readings.len() {
        let other = reading_at(readings, place);
        if other.field > reading.field {
            return false;
        }
        let is_rival = other.field == reading.field && other.number != reading.number;
        if is_rival && worth.saturating_sub(STORY_MARGIN) <= bounds[place] {
            return true;
        }
    }
    false
}

/// Takes the mark from each told reading of which another number of its field is as good, or nearly.
fn unmark_rivalled(
    readings: &[NumberReading],
    bounds: &[u32],
    told: &[NumberReading],
    worth: u32,
    marks: &mut [bool],
)
    requires bounds_are { length bounds.now ≡ length readings.now }
    requires in_order { (i k : ℕ) → i ≤ k → k < length readings.now
        → (reading_at readings.now i).field ≤ (reading_at readings.now k).field }
    requires told_in_order { (i k : ℕ) → i ≤ k → k < length told.now
        → (reading_at told.now i).field ≤ (reading_at told.now k).field }
    requires marks_are { length marks.old ≡ length told.now }
    ensures marks_are { length marks.new ≡ length told.now }
    ensures marks { (i : ℕ) → i < length told.now → (mark_at marks.new i ≡ true ↔ ((mark_at marks.old i ≡ true)
        × (IsRivalled readings.now bounds.now worth (reading_at told.now i) → ⊥))) }
{
    let mut begin = 0;
    for place in 0..told.len() {
        let reading = reading_at(told, place);
        begin = first_of_field(readings, begin, reading.field);
        let rivalled = is_rivalled(readings, bounds, begin, reading, worth);
        marks[place] = marks[place] && !rivalled;
    }
}

/// Says of each reading that a story tells whether it is believed. The bounds are those that `bound` writes, and the
/// worth is what the story's weights are above its prices.
pub fn believe(
    readings: &[NumberReading],
    bounds: &[u32],
    told: &[NumberReading],
    worth: u32,
    believed: &mut [bool],
)
    requires few { length told.now ≤ 2 ^ 28 }
    requires in_order { (i k : ℕ) → i ≤ k → k < length readings.now
        → (reading_at readings.now i).field ≤ (reading_at readings.now k).field }
    requires light { (i : ℕ) → i < length readings.now → (reading_at readings.now i).weight ≤ 4 }
    requires bounds_are { length bounds.now ≡ length readings.now }
    requires most { AreBounds readings.now bounds.now }
    requires reached { AreReached readings.now bounds.now }
    requires story { IsStory readings.now told.now }
    requires worth { worth + price told.now ≡ weight told.now }
    requires believed_are { length believed.old ≡ length told.now }
    ensures { (i : ℕ) → i < length told.now
        → (mark_at believed.new i ≡ true ↔ IsBelieved readings.now told.now i) }
{
    mark_groups(told, believed);
    unmark_runs(told, believed);
    unmark_rivalled(readings, bounds, told, worth, believed);
}
