//! The ends of a signal: rows on which it goes on beyond the word by one cell, or is shorter by one cell or two.

ghost use Rattle.std.specs.Prelude.{◌≡◌, ℕ, ◌+◌, ◌*◌, ◌^◌, ◌≤◌, ◌<◌, Bool, true, false, min};
ghost use Rattle.vbi_near.specs.Common.{width_of, word_length, starts};
ghost use Rattle.vbi_near.specs.{Sums.total_in, Rows.shades_of, Rows.cell_cost_by, Rows.word_cost_by};
ghost use Rattle.vbi_near.specs.LongerSignal.{cell_length, IsLongerFound};
ghost use Rattle.vbi_near.specs.ShorterSignal.{bit_in_cell, black_cost, IsWithoutCell, IsShorterFound};

use crate::cells::{cell_at, costs_of};
use crate::half_cells::{Cell, column, offset};
use crate::sums::{Sums, between};
use crate::word_search::Found;

/// What a distance becomes if the cell that begins at this column is drawn, a one or a zero, and no longer black.
fn with_cell_at(sums: &Sums, distance: u32, begin: usize) -> u32
    requires room { begin + cell_length sums.now.system ≤ width_of sums.now.system }
    requires black { total_in sums.now.dark.now begin (cell_length sums.now.system) ≤ distance }
    requires few { distance < 2 ^ 31 }
    ensures { result + total_in sums.now.dark.now begin (cell_length sums.now.system)
        ≡ distance + min (cell_cost_by sums.now begin 0 true) (cell_cost_by sums.now begin 0 false) }
{
    let middle = begin + offset(sums.system, 1);
    let end = begin + offset(sums.system, 2);
    let costs = costs_of(sums.dark, sums.light, Cell { begin, middle, end });
    distance - between(sums.dark, begin, end) + costs.one.min(costs.zero)
}

/// The least distance of a drawn row that has one cell more before or after those of the word.
pub(crate) fn longer_distance(sums: &Sums, found: Found) -> u32
    requires start { found.start < starts sums.now.system }
    requires exact { word_cost_by sums.now found.start found.word ≡ found.distance }
    requires few { found.distance < 2 ^ 31 }
    ensures { IsLongerFound (shades_of sums.now) sums.now.system found result }
{
    let cell = offset(sums.system, 2);
    let end = column(sums.system, found.start, 48);
    if found.start < cell {
        return with_cell_at(sums, found.distance, end);
    }
    let before = with_cell_at(sums, found.distance, found.start - cell);
    if end + cell > sums.system.width() {
        return before;
    }
    before.min(with_cell_at(sums, found.distance, end))
}

/// What a black cell costs of a word that begins at `start`.
fn black_cell(sums: &Sums, start: usize, cell: usize) -> u32
    requires start { start + word_length sums.now.system ≤ width_of sums.now.system }
    requires cell { cell < 24 }
    ensures value { result ≡ black_cost (shades_of sums.now) sums.now.system start cell }
    ensures range { result < 2 ^ 26 }
{
    let black = Sums {
        system: sums.system,
        dark: sums.dark,
        light: sums.dark,
    };
    cell_at(&black, start, cell).one
}

/// What a distance becomes if a cell of the found word is black.
fn without_cell(sums: &Sums, found: Found, cell: usize, distance: u32) -> u32
    requires start { found.start + word_length sums.now.system ≤ width_of sums.now.system }
    requires cell { cell < 24 }
    requires drawn { cell_cost_by sums.now found.start cell (bit_in_cell found.word cell)
        ≤ distance }
    requires few { distance < 2 ^ 31 + 2 ^ 26 }
    ensures value { IsWithoutCell (shades_of sums.now) sums.now.system found cell distance result }
    ensures range { result < distance + 2 ^ 26 }
{
    let costs = cell_at(sums, found.start, cell);
    let black = black_cell(sums, found.start, cell);
    if (found.word >> (23 - cell)) % 2 == 1 {
        distance - costs.one + black
    } else {
        distance - costs.zero + black
    }
}

/// The least distance of a drawn row that has fewer cells than the word: one or two at either end are black.
#[tactic(auto, using(crate::proofs::CutShort::first_within, crate::proofs::CutShort::last_within))]
pub(crate) fn shorter_distance(sums: &Sums, found: Found) -> u32
    requires start { found.start < starts sums.now.system }
    requires exact { word_cost_by sums.now found.start found.word ≡ found.distance }
    requires few { found.distance < 2 ^ 31 }
    ensures { IsShorterFound (shades_of sums.now) sums.now.system found result }
{
    let first = without_cell(sums, found, 0, found.distance);
    let second = without_cell(sums, found, 1, first);
    let last = without_cell(sums, found, 23, found.distance);
    let other = without_cell(sums, found, 22, last);
    first.min(second).min(last.min(other))
}
