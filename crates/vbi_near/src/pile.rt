//! What the columns of lines that have one word cost: how far their samples are from black, and from white, but no
//! more than a sample counts at most.

ghost use Rattle.std.specs.Prelude.{◌≡◌, ℕ, ◌+◌, ◌*◌, ◌≤◌, ◌<◌, ◌∷◌, ◌++◌, [], length, take, List};
ghost use Rattle.vbi_near.specs.Common.{System, line_bytes, width_of, Slicing, samples_of, Samples};
ghost use Rattle.vbi_near.specs.Common.{lines_of, known_but, most_of, IsPile, AreFew, shades};
ghost use Rattle.vbi_near.specs.{Rows.IsNearWord};

use crate::bits::MOST_STARTS;
use crate::line_search::{LineSearch, nears_of};
use crate::lines::{line_of, sample};
use crate::margins::{Margins, unit_of};
use crate::near::{Near, Nears, WIDEST, nearest};
use crate::silence::{Terms, nears_if};
use crate::stretched_cells::stretched_distance;
use crate::sums::{ROOM, Sums};
use crate::word_search::start_count;
use vbi_words::{Levels, System, Word24};

/// As far as a sample counts at most: seven tenths of how far white is from black.
#[tactic(auto, unfolding(crate::specs::Distances::most_of))]
fn most_of(levels: Levels) -> u16
    ensures { result ≡ most_of levels }
{
    let unit = u32::from(levels.white() - levels.black());
    ((7 * unit + 9) / 10) as u16
}

/// Adds what one line more costs in each column, given by its samples: two bytes for each, the low one first. An erased
/// column costs nothing, in any row.
pub fn add_line(levels: Levels, line: &[u8], erased: &[bool], darks: &mut [u32], lights: &mut [u32])
    requires line { length line.now ≡ 2 * length darks.old }
    requires erased { length erased.now ≡ length darks.old }
    requires same { length lights.old ≡ length darks.old }
    requires dark { AreFew 27 darks.old }
    requires light { AreFew 27 lights.old }
    ensures dark { length darks.new ≡ length darks.old }
    ensures light { length lights.new ≡ length lights.old }
    ensures pile { (system : System) (lines : List Samples) → length darks.old ≡ width_of system
        → IsPile system levels lines (shades darks.old lights.old)
        → IsPile system levels (lines ++ known_but erased.now (samples_of line.now) ∷ [])
        (shades darks.new lights.new) }
    ensures few { (lines : ℕ) → AreFew lines darks.old × AreFew lines lights.old
        → AreFew (lines + 1) darks.new × AreFew (lines + 1) lights.new }
{
    let most = most_of(levels);
    let count = darks.len();

    // As many bytes and marks as columns, and no branch: so a compiler leaves out the tests of indices, and neither
    // dropouts nor noise slow the loop.
    let line = &line[..2 * count];
    let erased = &erased[..count];
    for column in 0..count {
        let sample = sample(line, column);
        let most = if erased[column] { 0 } else { most };
        darks[column] += u32::from(sample.abs_diff(levels.black()).min(most));
        lights[column] += u32::from(sample.abs_diff(levels.white()).min(most));
    }
}

/// What each column of some lines costs, in sum over the lines: `darks` if it is black, `lights` if it is white.
#[derive(Drop)]
pub(crate) struct Pile<'a> {
    system: System,
    levels: Levels,
    /// How many lines there are.
    count: usize,
    darks: &'a mut [u32],
    lights: &'a mut [u32],
    ghost most: { count ≤ 28 },
    ghost dark_whole: { length darks.now ≡ width_of system },
    ghost light_whole: { length lights.now ≡ width_of system },
    ghost dark: { AreFew count darks.now },
    ghost light: { AreFew count lights.now },
}

impl<'a> Pile<'a> {
    ghost use Rattle.std.specs.Prelude.{replicate};
    ghost use Rattle.vbi_near.specs.{Candidates.HasNear, Candidates.some_lines, StretchedCells.IsStretched};
    ghost use Rattle.vbi_near.specs.{Pile.IsPileOf, Silence.HasNearUnlessSilent};

    /// The pile of no lines, with room for the costs of the longest ones.
    pub(crate) fn new(
        system: System,
        levels: Levels,
        darks: &'a mut [u32; WIDEST],
        lights: &'a mut [u32; WIDEST],
    ) -> Self
        requires { (darks.old ≡ replicate 1135 0) × (lights.old ≡ replicate 1135 0) }
        ensures empty { IsPileOf system levels [] result }
        ensures none { result.count ≡ 0 }
    {
        Pile {
            system,
            levels,
            count: 0,
            darks: &mut darks[..system.width()],
            lights: &mut lights[..system.width()],
        }
    }

    /// Adds a line, by its bytes and which of its columns are erased.
    pub(crate) fn add(&mut self, line: &[u8], erased: &[bool])
        requires few { self.old.count < 28 }
        requires line { length line.now ≡ line_bytes self.old.system }
        requires erased { length erased.now ≡ width_of self.old.system }
        ensures count { self.new.count ≡ self.old.count + 1 }
        ensures system { self.new.system ≡ self.old.system }
        ensures line { (system : System) (slicing : Slicing) (lines : List Samples) → IsPileOf system slicing lines
            self.old
            → IsPileOf system slicing (lines ++ known_but erased.now (samples_of line.now) ∷ []) self.new }
    {
        add_line(self.levels, line, erased, self.darks, self.lights);
        self.count += 1;
    }

    /// The nearest word of the lines, and the nearest of the codes that may stand on a line of this number.
    pub(crate) fn nears(&self, number: u32) -> Nears
        ensures { (system : System) (slicing : Slicing) (lines : List Samples) → IsPileOf system slicing lines self.now
            → HasNear (some_lines system number slicing lines) result }
    {
        nears_of(self.system, number, self.darks, self.lights)
    }

    /// The nearest words of the lines, or none if they say nothing by these margins.
    pub(crate) fn nears_if(&self, number: u32, margins: &Margins) -> Option<Nears>
        ensures { (system : System) (slicing : Slicing) (lines : List Samples) → IsPileOf system slicing lines self.now
            → HasNearUnlessSilent margins.now self.now.count (some_lines system number slicing lines) result }
    {
        let mut dark = [0; ROOM];
        let mut light = [0; ROOM];
        let mut bounds = [0; MOST_STARTS];
        let sums = Sums::of(self.system, self.darks, self.lights, &mut dark, &mut light);
        let terms = Terms {
            unit: unit_of(self.levels),
            margins,
            lines: self.count as u32,
        };
        let sought = LineSearch::of(sums, &mut bounds[..start_count(self.system)]);
        nears_if(&sought, number, &terms)
    }

    /// How far the lines are from the nearest row of this word on cells that are somewhat longer or shorter.
    pub(crate) fn stretched(&self, word: Word24) -> u32
        ensures { (system : System) (slicing : Slicing) (lines : List Samples) → IsPileOf system slicing lines self.now
            → IsStretched system slicing lines word result }
    {
        stretched_distance(self.darks, self.lights, self.system, word)
    }

    /// The word that is nearest to the lines.
    fn nearest(&self) -> Near
        ensures near { (system : System) (slicing : Slicing) (lines : List Samples)
            → IsPileOf system slicing lines self.now → IsNearWord system slicing lines result }
        ensures start { result.start < 285 }
    {
        nearest(self.system, self.darks, self.lights)
    }
}

/// The word that is nearest to this many lines of samples, each of two bytes, the low one first.
pub fn nearest_of_lines(system: System, levels: Levels, lines: &[u8], count: usize) -> Near
    requires few { count ≤ 28 }
    requires whole { length lines.now ≡ count * line_bytes system }
    ensures near { IsNearWord system levels (lines_of system lines.now count) result }
    ensures start { result.start < 285 }
{
    let none_erased = [false; WIDEST];
    let erased = &none_erased[..system.width()];
    let mut darks = [0; WIDEST];
    let mut lights = [0; WIDEST];
    let mut pile = Pile::new(system, levels, &mut darks, &mut lights);
    for line in 0..count {
        pile.add(line_of(system, lines, line), erased);
    }
    pile.nearest()
}
