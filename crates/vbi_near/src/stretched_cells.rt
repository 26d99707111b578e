//! How near one word is whose cells are somewhat longer or shorter than they should be: they have 98 to 102 hundredths
//! of their length. Two hundredths of a word's 48 half cells are about one half cell. With more, the last half cells
//! would be compared with columns that lie by more than that beside them.

ghost use Rattle.std.specs.Prelude.{◌≡◌, ℕ, ◌+◌, ◌-◌, ◌*◌, ◌≤◌, ◌<◌, length, List, slice_index_or};
ghost use Rattle.vbi_near.specs.Common.{width_of, Slicing, Samples, IsPile, AreFew, shades};
ghost use Rattle.vbi_near.specs.StretchedCells.{stretched_offset, stretched_length, IsLeastAt, IsStretched};
ghost use Rattle.vbi_near.specs.StretchedCells.{stretched_word_cost, stretched_row_cost, IsAtRate, IsRateBefore};
ghost use Rattle.vbi_near.specs.{Rows.shades_of, Sums.IsRising, Sums.total_in};

use crate::sums::{ROOM, Sums, between};
use vbi_words::{System, Word24};

/// The most columns at which a word may begin: on a line of PAL, if its cells have 98 hundredths of their length.
const MOST_STARTS: usize = 302;

/// The columns from a word's start to a half cell, or to its end, if its cells have this many hundredths of their
/// length.
fn stretched_offset(system: System, rate: usize, half: usize) -> usize
    requires rate { rate ≤ 102 }
    requires half { half ≤ 48 }
    ensures value { result ≡ stretched_offset system rate half }
    ensures range { result < width_of system }
{
    match system {
        System::Ntsc => half * 315 * rate / 2200,
        System::Pal => half * 709379 * rate / 4000000,
    }
}

/// Puts what the columns cost that are low before each start.
fn lead_costs(dark: &[u32], costs: &mut [u32])
    requires rising { IsRising dark.now }
    requires room { length costs.old ≤ length dark.now }
    ensures value { (start : ℕ) → start < length costs.old
        → slice_index_or costs.new start 0 ≡ total_in dark.now 0 start }
    ensures few { (start : ℕ) → start < length costs.old → slice_index_or costs.new start 0 ≤ 1834980 * start }
{
    for start in 0..costs.len() {
        costs[start] = between(dark, 0, start);
    }
}

/// Adds what half cells cost that begin and end these numbers of columns after each start.
fn add_half(sums: &[u32], begin: usize, end: usize, costs: &mut [u32])
    requires rising { IsRising sums.now }
    requires short { length sums.now ≤ 1136 }
    requires order { begin ≤ end }
    requires inside { end + length costs.old ≤ length sums.now }
    requires few { (start : ℕ) → start < length costs.old
        → slice_index_or costs.old start 0 ≤ 1834980 * (start + begin) }
    ensures value { (start : ℕ) → start < length costs.old → slice_index_or costs.new start 0
        ≡ slice_index_or costs.old start 0 + total_in sums.now (start + begin) (end - begin) }
    ensures few { (start : ℕ) → start < length costs.old
        → slice_index_or costs.new start 0 ≤ 1834980 * (start + end) }
{
    let count = costs.len();
    let from = &sums[begin..begin + count];
    let to = &sums[end..end + count];
    for start in 0..count {
        costs[start] += to[start] - from[start];
    }
}

/// Puts how far the lines are from the rows of a word on cells of this rate, from each start, up to the word's end.
fn word_costs(sums: &Sums, word: Word24, rate: usize, costs: &mut [u32])
    requires rate { rate ≤ 102 }
    requires room { length costs.old + stretched_length sums.now.system rate ≤ width_of sums.now.system + 1 }
    ensures value { (start : ℕ) → start < length costs.old → slice_index_or costs.new start 0
        ≡ stretched_word_cost (shades_of sums.now) sums.now.system word rate start }
    ensures few { (start : ℕ) → start < length costs.old
        → slice_index_or costs.new start 0 ≤ 1834980 * (start + stretched_length sums.now.system rate) }
{
    lead_costs(sums.dark, costs);
    for half in 0..48 {
        let level = sums.level(word.half(half));
        let begin = stretched_offset(sums.system, rate, half);
        add_half(
            level,
            begin,
            stretched_offset(sums.system, rate, half + 1),
            costs,
        );
    }
}

/// How far the lines are from the nearest row of a word on cells of this rate.
fn distance_by(sums: &Sums, word: Word24, rate: usize) -> u32
    requires { (98 ≤ rate) × (rate ≤ 102) }
    ensures { IsLeastAt (IsAtRate sums.now.system rate) (stretched_row_cost (shades_of sums.now) sums.now.system word)
        result }
{
    let length = stretched_offset(sums.system, rate, 48);
    let count = sums.system.width() - length + 1;
    let mut all_costs = [0; MOST_STARTS];
    let costs = &mut all_costs[..count];
    word_costs(sums, word, rate, costs);
    let mut least = costs[0] + between(sums.dark, length, sums.system.width());
    for start in 1..count {
        least = least.min(costs[start] + between(sums.dark, start + length, sums.system.width()));
    }
    least
}

/// How far some lines are from the nearest row of this word whose cells have 98 to 102 hundredths of their length.
/// `darks` and `lights` say for each column how far their samples are from black there, and from white, in sum.
pub fn stretched_distance(darks: &[u32], lights: &[u32], system: System, word: Word24) -> u32
    requires dark { length darks.now ≡ width_of system }
    requires light { length lights.now ≡ width_of system }
    requires few { AreFew 28 darks.now × AreFew 28 lights.now }
    ensures { (slicing : Slicing) (lines : List Samples)
        → IsPile system slicing lines (shades darks.now lights.now) → IsStretched system slicing lines word result }
{
    let mut dark = [0; ROOM];
    let mut light = [0; ROOM];
    let sums = Sums::of(system, darks, lights, &mut dark, &mut light);
    let mut least = distance_by(&sums, word, 98);
    for rate in 99..103 {
        least = least.min(distance_by(&sums, word, rate));
    }
    least
}
