//! Signals that lack half a word.

ghost use Rattle.std.specs.Prelude.{◌≡◌, ◌+◌, ◌≤◌, ◌<◌, false, slice_index_or};
ghost use Rattle.vbi_near.specs.HalvedSignal.{half_of, row_cost, halved_cost};
ghost use Rattle.vbi_near.specs.{Common.width_of, Common.word_length, Common.IsPlace, Rows.shades_of};

use crate::half_cells::column;
use crate::near::Near;
use crate::sums::{Sums, between};
use vbi_words::Word24;

/// Whether a half cell is high if the first half of a word is black, or its last.
#[tactic(auto, using(crate::proofs::HalvedRows::below_half, crate::proofs::HalvedRows::from_half))]
fn is_high(word: Word24, is_late: bool, half: usize) -> bool
    requires { half < 48 }
    ensures { result ≡ slice_index_or (half_of is_late word) half false }
{
    if half < 24 {
        !is_late && word.half(half)
    } else {
        is_late && word.half(half)
    }
}

/// How far the lines are from the row of a word that begins at `start`, with its first half black, or its last.
fn half_distance(sums: &Sums, start: usize, word: Word24, is_late: bool) -> u32
    requires { start + word_length sums.now.system ≤ width_of sums.now.system }
    ensures { result ≡ row_cost (shades_of sums.now) sums.now.system start (half_of is_late word) }
{
    let mut sum = sums.around(start);
    for half in 0..48 {
        let level = sums.level(is_high(word, is_late, half));
        let begin = column(sums.system, start, half);
        sum += between(level, begin, column(sums.system, start, half + 1));
    }
    sum
}

/// How far the lines are from the nearer row of half the word answered; its own distance if there is none.
pub(crate) fn halved_distance(sums: &Sums, near: &Near) -> u32
    requires { IsPlace sums.now.system near.now.word near.now.start }
    ensures { result ≡ halved_cost (shades_of sums.now) sums.now.system near.now.word near.now }
{
    match near.word {
        Some(word) => {
            let late = half_distance(sums, near.start, word, true);
            late.min(half_distance(sums, near.start, word, false))
        }
        None => near.distance,
    }
}
