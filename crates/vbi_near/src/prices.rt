//! What the digits of a word cost that begins at a column.

ghost use Rattle.std.specs.Prelude.{◌≡◌, ℕ, ◌+◌, ◌*◌, ◌^◌, ◌≤◌, ◌<◌, Bool, true, false, length, slice_index};
ghost use Rattle.vbi_near.specs.Rows.{cell_cost_by, code_cost_by};
ghost use Rattle.vbi_near.specs.{Common.width_of, Common.word_length, Leads.bit_in, Leads.IsDigitCost};

use crate::cells::{Costs, cell_at};
use crate::sums::Sums;

/// What each value of each digit costs of a word that begins at `start`, 16 of each, and what there is to pay anyway.
#[derive(Clone, Copy)]
pub(crate) struct Prices<'a> {
    pub(crate) start: usize,
    pub(crate) base: u32,
    pub(crate) digits: &'a [u32],
    ghost base_few: { base < 2 ^ 29 },
    ghost long: { length digits.now ≡ 96 },
    ghost few: { (i : ℕ) → i < 96 → slice_index digits.now i < 2 ^ 28 },
}

impl<'a> Prices<'a> {
    ghost use Rattle.vbi_near.specs.Prices.{IsPricedBy};

    /// The prices of the words that begin at `start`, with room for the prices of the digits.
    pub(crate) fn at(sums: &Sums, start: usize, digits: &'a mut [u32; 96]) -> Self
        requires { start + word_length sums.now.system ≤ width_of sums.now.system }
        ensures start { result.start ≡ start }
        ensures prices { IsPricedBy (code_cost_by sums.now) result }
    {
        for place in 0..6 {
            digit_costs(sums, start, place, digits);
        }
        Prices {
            start,
            base: sums.around(start),
            digits,
        }
    }
}

/// What the bit of a digit costs that counts so much.
fn bit_cost(cell: Costs, value: usize, weight: usize) -> u32
    requires { 0 < weight }
    ensures value { (cost : Bool → ℕ) → cost true ≡ cell.one → cost false ≡ cell.zero
        → result ≡ cost (bit_in value weight) }
    ensures range { (cell.one < 2 ^ 26) × (cell.zero < 2 ^ 26) → result < 2 ^ 26 }
{
    if value / weight % 2 == 1 {
        cell.one
    } else {
        cell.zero
    }
}

/// Puts what each value of one digit more costs of a word that begins at `start`.
fn digit_costs(sums: &Sums, start: usize, place: usize, digits: &mut [u32])
    requires start { start + word_length sums.now.system ≤ width_of sums.now.system }
    requires place { place < 6 }
    requires room { length digits.old ≡ 96 }
    requires below { (i : ℕ) → i < 16 * place
        → IsDigitCost (cell_cost_by sums.now start) i (slice_index digits.old i) }
    ensures room { length digits.new ≡ 96 }
    ensures costs { (i : ℕ) → i < 16 * place + 16
        → IsDigitCost (cell_cost_by sums.now start) i (slice_index digits.new i) }
{
    let first = cell_at(sums, start, 4 * place);
    let second = cell_at(sums, start, 4 * place + 1);
    let third = cell_at(sums, start, 4 * place + 2);
    let last = cell_at(sums, start, 4 * place + 3);
    for value in 0..16 {
        digits[16 * place + value] = bit_cost(first, value, 8)
            + bit_cost(second, value, 4)
            + bit_cost(third, value, 2)
            + bit_cost(last, value, 1);
    }
}
