//! The nearest of the codes that may stand on a line. The word 0 stands for none.
//!
//! Codes are few among words, so the nearest word is seldom one, and the nearest code has to be sought by itself. A
//! code is one of some **ranges**: words whose six hexadecimal digits are each from that of the least to that of the
//! greatest. What a digit costs depends on its value and place alone (prices.rt), so the nearest word of a range has
//! at each place the value that costs least there, and is off by the sum of these.
//!
//! The search goes over the starts, and at each over the ranges, and keeps the nearest word so far with its rival. The
//! start of the nearest of all words is looked at first. After that most starts are passed: their bound says that none
//! of all words is as near there. Of words that are as near, the one that begins first is kept, and of these the least
//! (`comes_first`), whatever the order of the search.

ghost use Rattle.std.specs.Prelude.{◌≡◌, ◌⊎◌, ℕ, suc, ◌+◌, ◌*◌, ◌^◌, ◌≤◌, ◌<◌, List, [], ◌∷◌, length, slice_index};
ghost use Rattle.std.specs.Prelude.{slice_index_or, false, IsTrue};
ghost use Rattle.vbi_near.specs.Common.{width_of, digit_of, IsWord, word_length, starts};
ghost use Rattle.vbi_near.specs.LineCodes.{Range, range, codes_of, digit_at, IsRange};
ghost use Rattle.vbi_near.specs.Prices.{IsPricedBy, ranges_of, IsRangeAt};
ghost use Rattle.vbi_near.specs.Leads.{IsChoice, AreBest, at_start, Look, look, IsSeen, with_ranges, all_codes, IsLead};
ghost use Rattle.vbi_near.specs.Leads.{IsAhead, IsFew, IsClose};
ghost use Rattle.vbi_near.specs.{Rows.word_cost_by, Rows.code_cost_by, Best.AreBounds};

use crate::bits::Bits;
use crate::prices::Prices;
use crate::sums::Sums;
use crate::word_search::{Found, ahead};
use vbi_words::{System, digit};

/// A range of words: the least, and the greatest.
type Words = (u32, u32);

/// The codes of lines 17 and 18: lead-in, lead-out, pictures up to 79,999, picture stop, chapters, the CLV mark, times.
const CODES_17: [Words; 7] = [
    (0x88FFFF, 0x88FFFF),
    (0x80EEEE, 0x80EEEE),
    (0xF00000, 0xF79999),
    (0x82CFFF, 0x82CFFF),
    (0x800DDD, 0x8F9DDD),
    (0x87FFFF, 0x87FFFF),
    (0xF0DD00, 0xF9DD59),
];

/// The codes of line 16 in NTSC: picture stop, CLV pictures of a second, programme status with CX and without it,
/// users' codes.
const CODES_16_NTSC: [Words; 5] = [
    (0x82CFFF, 0x82CFFF),
    (0x8AE000, 0x8FE929),
    (0x8DC000, 0x8DCFFF),
    (0x8BA000, 0x8BAFFF),
    (0x80D000, 0x87DFFF),
];

/// The codes of line 16 in PAL: picture stop, CLV pictures of a second, programme status with CX and without it, users'
/// codes.
const CODES_16_PAL: [Words; 6] = [
    (0x82CFFF, 0x82CFFF),
    (0x8AE000, 0x8FE919),
    (0x8AE020, 0x8FE924),
    (0x8DC000, 0x8DCFFF),
    (0x8BA000, 0x8BAFFF),
    (0x80D000, 0x87DFFF),
];

/// The cheapest of some values of a digit.
#[derive(Clone, Copy)]
pub(crate) struct Choice {
    pub(crate) value: usize,
    /// What it costs.
    pub(crate) least: u32,
    /// What any other costs at least.
    pub(crate) second: u32,
}

/// The cheaper of what was chosen and of the value after it.
fn with_value(choice: Choice, value: usize, cost: u32) -> Choice
    ensures { (costs : ℕ → ℕ) (low : ℕ) → costs value ≡ cost → IsChoice costs low value choice
        → IsChoice costs low (value + 1) result }
{
    if cost < choice.least {
        Choice {
            value,
            least: cost,
            second: choice.least,
        }
    } else if cost < choice.second {
        Choice {
            second: cost,
            ..choice
        }
    } else {
        choice
    }
}

/// The cheapest of the values of a digit from one to another, which cost so much.
fn choice_of(costs: &[u32], from: usize, to: usize) -> Choice
    requires order { from ≤ to }
    requires inside { to < length costs.now }
    ensures { IsChoice (λ v. slice_index_or costs.now v 0) from (to + 1) result }
{
    let mut choice = Choice {
        value: from,
        least: costs[from],
        second: u32::MAX,
    };
    for value in from + 1..to + 1 {
        choice = with_value(choice, value, costs[value]);
    }
    choice
}

/// The best digits with one more, whose values from one to another cost so much.
fn with_digit(best: Bits, costs: &[u32], from: usize, to: usize) -> Bits
    requires order { from ≤ to }
    requires inside { to < 16 }
    requires costs { length costs.now ≡ 16 }
    requires few { (value : ℕ) → value < 16 → slice_index costs.now value < 2 ^ 28 }
    requires word { best.word < 2 ^ 24 }
    requires distance { best.distance < 2 ^ 31 }
    ensures best { (cost : ℕ → ℕ → ℕ) (base : ℕ) (least greatest : ℕ → ℕ) (n : ℕ)
        → AreBest cost base least greatest n best → least n ≡ from → greatest n ≡ to
        → ((value : ℕ) → value < 16 → slice_index costs.now value ≡ cost n value)
        → AreBest cost base least greatest (suc n) result }
    ensures distance { result.distance < best.distance + 2 ^ 28 }
    ensures word { result.word < 16 * best.word + 16 }
{
    let choice = choice_of(costs, from, to);
    Bits {
        word: 16 * best.word + choice.value as u32,
        distance: best.distance + choice.least,
        margin: best.margin.min(choice.second - choice.least),
    }
}

/// The digits of a number at a place from 0, the first of six.
fn place_of(word: u32, place: usize) -> usize
    requires { place < 6 }
    ensures value { result ≡ digit_of word (place + 1) }
    ensures range { result < 16 }
{
    usize::from(digit(word, place as u32 + 1))
}

/// The best six digits of a range of words, if each value of each digit costs so much.
fn best_digits(prices: &Prices, words: Words) -> Bits
    requires { IsRange words.0 words.1 }
    ensures best { (cost : ℕ → ℕ → ℕ) → ((place value : ℕ) → place < 6 → value < 16
        → slice_index prices.now.digits.now (16 * place + value) ≡ cost place value)
        → AreBest cost prices.now.base (digit_at words.0) (digit_at words.1) 6 result }
    ensures distance { result.distance < 2 ^ 31 }
{
    let mut best = Bits {
        word: 0,
        distance: prices.base,
        margin: u32::MAX,
    };
    for place in 0..6 {
        let from = place_of(words.0, place);
        let to = place_of(words.1, place);
        best = with_digit(best, &prices.digits[16 * place..16 * place + 16], from, to);
    }
    best
}

/// The nearest of a range's words that begin at one column.
fn nearest_in_range(prices: &Prices, words: Words) -> Found
    requires { IsRange words.0 words.1 }
    ensures lead { (cost : ℕ → ℕ → ℕ) → IsPricedBy cost prices.now
        → IsLead cost (at_start prices.now.start (range words.0 words.1)) result }
    ensures word { 2 ^ 23 ≤ result.word }
    ensures distance { result.distance < 2 ^ 31 }
    ensures order { result.distance ≤ result.rival }
{
    let best = best_digits(prices, words);
    Found {
        word: best.word,
        start: prices.start,
        distance: best.distance,
        rival: best.distance.saturating_add(best.margin),
    }
}

/// Whether one is nearer than another, or as near and before it: by the start, and then by the word.
fn comes_first(one: Found, other: Found) -> bool
    ensures yes { IsTrue result → IsAhead one other }
    ensures no { result ≡ false → IsAhead other one }
{
    if one.distance != other.distance {
        one.distance < other.distance
    } else if one.start != other.start {
        one.start < other.start
    } else {
        one.word < other.word
    }
}

/// The nearer of two, or the one that comes first, with the rival of both.
fn nearer_lead(one: Found, other: Found) -> Found
    ensures lead { (cost : ℕ → ℕ → ℕ) (looks : List Look) (at : ℕ) (words : Range) → IsLead cost (IsSeen looks) one
        → IsLead cost (at_start at words) other → IsLead cost (IsSeen (look at words ∷ looks)) result }
    ensures close { IsFew one → other.distance < 2 ^ 31 → other.distance ≤ other.rival → 0 < other.word
        → IsClose result }
{
    if comes_first(other, one) {
        ahead(other, one)
    } else {
        ahead(one, other)
    }
}

/// Whether words that begin at this column can be nearer than the rival of what was found, or as near as what was found
/// and before it, if none of them is nearer than the bound.
fn needs_look(start: usize, bound: u32, found: Found) -> bool
    ensures { result ≡ false
        → (found.rival ≤ bound) × ((found.distance < bound) ⊎ (found.start < start)) }
{
    if bound < found.rival {
        return true;
    }
    bound <= found.distance && start <= found.start
}

/// The nearer of what was found and of the words of these ranges that begin at one column.
fn with_codes(prices: &Prices, codes: &[Words], found: Found) -> Found
    requires order { (i : ℕ) → i < length codes.now → IsRangeAt codes.now i }
    requires some { 0 < length codes.now }
    ensures lead { (cost : ℕ → ℕ → ℕ) (looks : List Look) → IsPricedBy cost prices.now
        → IsLead cost (IsSeen looks) found
        → IsLead cost (IsSeen (with_ranges looks prices.now.start (ranges_of codes.now))) result }
    ensures close { IsFew found → IsClose result }
{
    let mut best = found;
    for words in codes {
        best = nearer_lead(best, nearest_in_range(prices, *words));
    }
    best
}

/// The codes that may stand on a line.
fn codes_on(system: System, line: u32) -> &'static [Words]
    ensures codes { ranges_of result.now ≡ codes_of system line }
    ensures order { (i : ℕ) → i < length result.now → IsRangeAt result.now i }
    ensures some { 0 < length result.now }
{
    if line != 16 {
        return &CODES_17;
    }
    match system {
        System::Ntsc => &CODES_16_NTSC,
        System::Pal => &CODES_16_PAL,
    }
}

/// None, before anything was looked at.
pub(crate) fn none(sums: &Sums) -> Found
    ensures lead { IsLead (code_cost_by sums.now) (IsSeen []) result }
    ensures few { IsFew result }
{
    Found {
        word: 0,
        start: 0,
        distance: sums.blank(),
        rival: u32::MAX,
    }
}

/// The nearer of what was found and of the codes of a line that begin at this column.
pub(crate) fn with_start(sums: &Sums, line: u32, start: usize, found: Found) -> Found
    requires { start + word_length sums.now.system ≤ width_of sums.now.system }
    ensures lead { (looks : List Look) → IsLead (code_cost_by sums.now) (IsSeen looks) found
        → IsLead (code_cost_by sums.now) (IsSeen (with_ranges looks start (codes_of sums.now.system line))) result }
    ensures close { IsFew found → IsClose result }
{
    let mut digits = [0; 96];
    let prices = Prices::at(sums, start, &mut digits);
    with_codes(&prices, codes_on(sums.system, line), found)
}

/// The nearer of what was found and of the codes of a line that begin at this column, if no word that begins there is
/// nearer than this bound.
pub(crate) fn with_start_by(sums: &Sums, line: u32, start: usize, bound: u32, found: Found) -> Found
    requires start { start + word_length sums.now.system ≤ width_of sums.now.system }
    requires bound { (word : ℕ) → IsWord word → bound ≤ word_cost_by sums.now start word }
    ensures lead { (looks : List Look) → IsLead (code_cost_by sums.now) (IsSeen looks) found
        → IsLead (code_cost_by sums.now)
        (IsSeen (with_ranges looks start (codes_of sums.now.system line))) result }
    ensures close { IsClose found → IsClose result }
{
    if needs_look(start, bound, found) {
        with_start(sums, line, start, found)
    } else {
        found
    }
}

/// The nearest of the codes that may stand on this line, or none. `bounds` has for each start how near the nearest of
/// all words that begin there is, and `first` is the start that is looked at first.
pub(crate) fn nearest_code(sums: &Sums, line: u32, first: usize, bounds: &[u32]) -> Found
    requires first { first < starts sums.now.system }
    requires bounds { length bounds.now ≡ starts sums.now.system }
    requires far { AreBounds (word_cost_by sums.now) (starts sums.now.system) bounds.now }
    ensures lead { IsLead (code_cost_by sums.now) (all_codes (codes_of sums.now.system line) sums.now.system)
        result }
    ensures close { IsClose result }
{
    let mut best = with_start(sums, line, first, none(sums));
    for start in 0..bounds.len() {
        best = with_start_by(sums, line, start, bounds[start], best);
    }
    best
}
