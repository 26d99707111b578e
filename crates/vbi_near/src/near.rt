//! The nearest word of some lines, or none.
//!
//! A **row** is what a line would be if a word were drawn on it without a fault: black up to the column at which the
//! word begins, then its 48 half cells, each black or white, and black to the end. A row of no word is black all along.
//! How far a line is from a row is the sum, over the columns, of how far its sample is from the row's, and the nearest
//! word is that of the row with the least sum, of all words and all columns at which one may begin:
//!
//! ```text
//! the line   ___.-~-._.-~~~-._.-~-.______   its samples, with noise
//! its row    ___|~~~|_|~~~~~|_|~~~|______   black and white, the first half cell from the column `start` on
//! ```
//!
//! There are 2^23 words and up to 285 starts, so no row is ever drawn. What a half cell costs depends on where it lies
//! and on whether it is high, and on nothing else of the word. Sums over the columns (sums.rt) give that by two
//! subtractions; a bit of a word is then the cheaper one of its two cells (cells.rt), and the least over the
//! starts is the nearest word (bits.rt, word_search.rt). Several lines are one line whose columns cost what they cost
//! in all of them, so a field's lines 17 and 18, or a pile of lines, take no longer than one.
//!
//! The nearest word alone says little, as noise has one, too. So a `Near` says how far others are. `rival` is the
//! nearest other row: what makes one word surer than another. `longer` is the row with one cell more: if it is nearer,
//! the signal isn't a word of 24 cells. `shorter` is the row with fewer (ends.rt). The nearest code (codes.rt) is
//! sought among the words whose code may stand on the line, and its rival is the nearest other one of these, or none: a
//! code needs a smaller margin than any word, since fewer can be mistaken for it. word_rule.rt decides by these numbers
//! what a line says; how large a margin has to be stands in `specs/WordRule.antt`.

ghost use Rattle.std.specs.Prelude.{◌≡◌, ◌^◌, ◌≤◌, ◌<◌, ◌⊎◌, length, List};
ghost use Rattle.vbi_near.specs.Common.{width_of, IsWord, starts, IsPlace, Slicing, Samples, Shades, IsPile, AreFew};
ghost use Rattle.vbi_near.specs.Rows.{word_cost_by, IsRowOf, IsNearWord, IsNearCode};
ghost use Rattle.vbi_near.specs.Best.{IsFound, AreBounds, no_word, word_found, IsChosen};
ghost use Rattle.vbi_near.specs.{Common.shades, Leads.IsCodeChosen};

use crate::bits::MOST_STARTS;
use crate::codes::nearest_code;
use crate::ends::{longer_distance, shorter_distance};
use crate::sums::{ROOM, Sums};
use crate::word_search::{Found, nearest_word, start_count};
use vbi_words::{System, Word24};

/// The samples of the longest line, that of PAL.
pub(crate) const WIDEST: usize = 1135;

/// The word that is nearest to some lines, or none.
#[derive(Clone, Copy)]
pub struct Near {
    /// The word, if a drawn row of one is nearer than that of no word.
    pub word: Option<Word24>,
    /// The column at which it begins; 0 if there is none.
    pub start: usize,
    /// How far the samples of the lines are from its drawn row, in sum.
    pub distance: u32,
    /// The least distance of a drawn row of another word, or of none.
    pub rival: u32,
    /// The least distance of a drawn row that has one cell more before or after those of the word; the distance if
    /// there is none.
    pub longer: u32,
    /// The least distance of a drawn row that has fewer cells: the row of the word with its first one, its first two,
    /// its last one or its last two cells black; the distance if there is none.
    pub shorter: u32,
}

/// The word that is nearest to some lines, the code that is nearest, and how far they are from none.
#[derive(Clone, Copy)]
pub struct Nears {
    /// Of all words, or none.
    pub word: Near,
    /// Of the codes that may stand on a line, or none.
    pub code: Near,
    /// How far the lines are from the row of no word.
    pub blank: u32,
    /// How far the lines are from the nearer row of half the word: with its first twelve cells black, or its last.
    pub word_halved: u32,
    /// How far the lines are from the nearer row of half the code.
    pub code_halved: u32,
}

/// No word: the row of none is so far, and the nearest other row as far as `rival`.
fn no_word(distance: u32, rival: u32) -> Near
    ensures { result ≡ no_word distance rival }
{
    Near {
        word: None,
        start: 0,
        distance,
        rival,
        longer: distance,
        shorter: distance,
    }
}

/// The word found, with the distances of the nearest other row, of longer rows and of shorter ones.
fn word_found(found: Found, rival: u32, longer: u32, shorter: u32) -> Near
    requires { IsWord found.word }
    ensures { result ≡ word_found found rival longer shorter }
{
    Near {
        word: Some(Word24::new(found.word).unwrap()),
        start: found.start,
        distance: found.distance,
        rival,
        longer,
        shorter,
    }
}

/// The nearer of the nearest word and of none.
pub(crate) fn or_none(found: Found, longer: u32, shorter: u32, blank: u32) -> Near
    requires { IsWord found.word }
    ensures { IsChosen found longer shorter blank result }
{
    if blank <= found.distance {
        no_word(blank, found.distance)
    } else {
        word_found(found, found.rival.min(blank), longer, shorter)
    }
}

/// The code found, or none.
pub(crate) fn code_or_none(found: Found, longer: u32, shorter: u32) -> Near
    requires { (found.word ≡ 0) ⊎ IsWord found.word }
    ensures { IsCodeChosen found longer shorter result }
{
    if found.word == 0 {
        no_word(found.distance, found.rival)
    } else {
        word_found(found, found.rival, longer, shorter)
    }
}

/// The nearest word of a row, or none, by the nearest one of all that are drawn.
pub(crate) fn near_word(sums: &Sums, found: Found) -> Near
    requires found { IsFound (word_cost_by sums.now) 0 (starts sums.now.system) found }
    requires few { found.distance < 2 ^ 31 }
    ensures near { (slicing : Slicing) (lines : List Samples) (costs : Shades) → IsRowOf sums.now slicing lines costs
        → IsNearWord sums.now.system slicing lines result }
    ensures place { IsPlace sums.now.system result.word result.start }
    ensures start { result.start < 285 }
{
    let longer = longer_distance(sums, found);
    let shorter = shorter_distance(sums, found);
    or_none(found, longer, shorter, sums.blank())
}

/// The nearest of the codes that may stand on a line of this number, or none. `bounds` has for each start how near the
/// nearest of all words that begin there is. The search begins at `first`.
pub(crate) fn near_code(sums: &Sums, line: u32, first: usize, bounds: &[u32]) -> Near
    requires first { first < starts sums.now.system }
    requires bounds { length bounds.now ≡ starts sums.now.system }
    requires far { AreBounds (word_cost_by sums.now) (starts sums.now.system) bounds.now }
    ensures near { (slicing : Slicing) (lines : List Samples) (costs : Shades) → IsRowOf sums.now slicing lines costs
        → IsNearCode sums.now.system line slicing lines result }
    ensures place { IsPlace sums.now.system result.word result.start }
{
    let lead = nearest_code(sums, line, first, bounds);
    if lead.word == 0 {
        return code_or_none(lead, 0, 0);
    }
    let longer = longer_distance(sums, lead);
    let shorter = shorter_distance(sums, lead);
    code_or_none(lead, longer, shorter)
}

/// The word that is nearest to some lines. `darks` and `lights` say for each column how far their samples are in sum
/// from black there, and from white. Of drawn rows that are as near, the one of no word comes first, then the
/// one that begins first, and of these the one of the least word.
pub fn nearest(system: System, darks: &[u32], lights: &[u32]) -> Near
    requires dark { length darks.now ≡ width_of system }
    requires light { length lights.now ≡ width_of system }
    requires few { AreFew 28 darks.now × AreFew 28 lights.now }
    ensures near { (slicing : Slicing) (lines : List Samples)
        → IsPile system slicing lines (shades darks.now lights.now) → IsNearWord system slicing lines result }
    ensures start { result.start < 285 }
{
    let mut dark = [0; ROOM];
    let mut light = [0; ROOM];
    let sums = Sums::of(system, darks, lights, &mut dark, &mut light);
    let mut bounds = [0; MOST_STARTS];
    let found = nearest_word(&sums, &mut bounds[..start_count(system)]);
    near_word(&sums, found)
}
