//! How a side goes on: what lies between its believed numbers, and whether its capture is whole.
//!
//! `gap` says what lies between two neighbouring numbers, by the rule of their disc; `gaps` walks over a side and asks
//! it of each pair, `gaps_so_far` joins two gaps to a `detour`, and `tally` counts them. `clock_search` finds which
//! numbers the disc leaves out, and `numbers_on_both` whether it has its numbers on both fields of a picture. `verdict`
//! judges the whole side, by its gaps, by fields that are swapped (`swaps`), by numbers that drift (`drift`), and by
//! many fields without a number (`blank_fields`). `aside_numbers` sets aside the numbers that replace others. What a
//! field shows is `vbi_side`'s. The laws say what all this is worth: `gap_laws` of one gap, `detour_laws` and
//! `aside_laws` of detours, `clock_laws` of clocks, `reason_laws` of reasons, `clean_laws` of sides that have to be
//! called whole. Nothing allocates or fails.
#![tactic(auto)]

pub mod aside_laws;
mod aside_numbers;
mod blank_fields;
pub mod clean_laws;
pub mod clock_laws;
mod clock_search;
mod detour;
pub mod detour_laws;
mod drift;
mod gap;
pub mod gap_laws;
mod gaps;
mod gaps_so_far;
mod numbers_on_both;
pub mod reason_laws;
mod side;
mod swaps;
mod tally;
mod verdict;

pub use aside_numbers::set_aside;
pub use clock_search::find_clock;
pub use gap::{BACK, Gap, HELD, INSERTED, JOINED, LOST, Numbering, OPEN, REPLACED, Rule, STILL};
pub use gaps::find_gaps;
pub use numbers_on_both::is_on_both;
pub use side::Side;
pub use tally::Tally;
pub use verdict::{Finding, Reasons, Verdict, judge_whole};
