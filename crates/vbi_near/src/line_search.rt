//! Lines whose nearest word was found, and the search for their nearest code, which takes up where that ended.

ghost use Rattle.std.specs.Prelude.{◌≡◌, ◌<◌, length, List};
ghost use Rattle.vbi_near.specs.Common.{width_of, Slicing, Samples, IsPile, AreFew, shades, starts};
ghost use Rattle.vbi_near.specs.{Candidates.HasNear, Candidates.some_lines, Rows.word_cost_by, Best.AreBounds};

use crate::bits::MOST_STARTS;
use crate::halved_signal::halved_distance;
use crate::near::{Nears, near_code, near_word};
use crate::sums::{ROOM, Sums};
use crate::word_rule::Nearest;
use crate::word_search::{nearest_word, start_count};
use vbi_words::System;

/// Some lines whose nearest word was found, and what the search for their nearest code needs.
#[derive(Clone, Copy)]
pub(crate) struct LineSearch<'a> {
    pub(crate) sums: Sums<'a>,
    pub(crate) word: Nearest,
    /// The column at which the nearest of all words begins, also if none is nearer.
    pub(crate) first: usize,
    /// How near the nearest of the words is that begin at each column.
    pub(crate) bounds: &'a [u32],
    ghost inside: { first < starts sums.system },
    ghost whole: { length bounds.now ≡ starts sums.system },
    ghost far: { AreBounds (word_cost_by sums) (starts sums.system) bounds.now },
}

impl<'a> LineSearch<'a> {
    ghost use Rattle.vbi_near.specs.{Common.Shades, Rows.IsRowOf, LineSearch.IsSought};

    /// Finds the nearest word of the lines, with room for how near words are at each start.
    pub(crate) fn of(sums: Sums<'a>, bounds: &'a mut [u32]) -> Self
        requires { length bounds.old ≡ starts sums.system }
        ensures sums { result.sums ≡ sums.entry }
        ensures word { IsSought result }
    {
        let found = nearest_word(&sums, bounds);
        let word = near_word(&sums, found);
        LineSearch {
            sums,
            word: Nearest {
                near: word,
                blank: sums.blank(),
                halved: halved_distance(&sums, &word),
            },
            first: found.start,
            bounds,
        }
    }

    /// The nearest word, and the nearest of the codes that may stand on a line of this number.
    pub(crate) fn nears(&self, number: u32) -> Nears
        requires { IsSought self.now }
        ensures { (slicing : Slicing) (lines : List Samples) (costs : Shades)
            → IsRowOf self.now.sums slicing lines costs
            → HasNear (some_lines self.now.sums.system number slicing lines) result }
    {
        // No word is nearer than the nearest one, so the search of codes begins where that begins.
        let code = near_code(&self.sums, number, self.first, self.bounds);
        Nears {
            word: self.word.near,
            code,
            blank: self.word.blank,
            word_halved: self.word.halved,
            code_halved: halved_distance(&self.sums, &code),
        }
    }
}

/// The word that is nearest to some lines, and the nearest of the codes that may stand on a line of this number, by how
/// far their samples are from black in each column, and from white.
pub fn nears_of(system: System, number: u32, darks: &[u32], lights: &[u32]) -> Nears
    requires dark { length darks.now ≡ width_of system }
    requires light { length lights.now ≡ width_of system }
    requires few { AreFew 28 darks.now × AreFew 28 lights.now }
    ensures { (slicing : Slicing) (lines : List Samples)
        → IsPile system slicing lines (shades darks.now lights.now)
        → HasNear (some_lines system number slicing lines) result }
{
    let mut dark = [0; ROOM];
    let mut light = [0; ROOM];
    let mut bounds = [0; MOST_STARTS];
    let sums = Sums::of(system, darks, lights, &mut dark, &mut light);
    LineSearch::of(sums, &mut bounds[..start_count(system)]).nears(number)
}
