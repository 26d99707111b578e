//! The reading of a line: its outcome, or the word that its smoothed levels show.

ghost use Rattle.std.specs.Prelude.{◌≡◌, ◌+◌, ◌^◌, ◌<◌, ◌≤◌, [], ◌∷◌, length, IfSome, IfNone};
ghost use Rattle.vbi_words.specs.{Geometry.width_of, Geometry.line_bytes, Levels.row_levels, Readings.IsReading};
ghost use Rattle.vbi_words.specs.{Shows.Shows, Shows.ShowsNone, Smooth.smooth_of};
ghost use Rattle.vbi_line.specs.{Line.IsFull, Line.KeepsBytes, OneReading.ReadsLine, OneReading.reading_of};

use crate::bytes_to_levels::slice_into;
use crate::decoder::Decoder;
use crate::lanes::slice_lanes;
use crate::line::LineBuf;
use crate::outcome::find_outcome;
use crate::packed::Packed;
use vbi_words::{Levels, Outcome, Reading, System, Word24};

/// The reading of a line of this system that is held whole: its outcome or, if it shows no word, the word that its
/// smoothed levels show. Columns in it are counted from 0. The samples are looked at only once: their levels are kept,
/// and the smoothed levels are found from these.
pub fn read_twice(line: &mut LineBuf, system: System, slicing: Levels) -> Reading
    requires full { IsFull line.old }
    requires system { line.old.system ≡ system }
    requires passes { line.old.cursors ≡ [] }
    requires looked { line.old.looked ≤ 2 ^ 61 }
    ensures reading { result ≡ reading_of system (row_levels slicing line.old.held) }

    // One pass has looked at each sample once.
    ensures bytes { KeepsBytes line.old line.new }
    ensures pass { line.new.cursors ≡ width_of system ∷ [] }
    ensures looked { line.new.looked ≡ line.old.looked + width_of system }
{
    let packed = slice_lanes(line, slicing);
    read_packed_twice(&packed, system)
}

/// The reading of a line that is held whole, if it is selected; the line is held no longer.
#[inline]
pub fn take_reading(line: &mut LineBuf, slicing: Levels, is_selected: bool) -> Option<Reading>
    requires full { IsFull line.old }
    requires passes { line.old.cursors ≡ [] }
    requires looked { line.old.looked ≤ 2 ^ 61 }
    ensures { ReadsLine slicing is_selected line.old line.new result }
{
    let system = line.system();
    let reading = if is_selected {
        Some(read_twice(line, system, slicing))
    } else {
        None
    };
    line.clear();
    reading
}

/// The reading of a line's bytes, two for each sample, the low one first. Columns in it are counted from 0. Nothing
/// counts how often a sample is looked at.
pub fn read_bytes_twice(bytes: &[u8], system: System, slicing: Levels) -> Reading
    requires { length bytes.now ≡ line_bytes system }
    ensures { result ≡ reading_of system (row_levels slicing bytes.now) }
{
    let mut packed = Packed::new();
    slice_into(&mut packed, bytes, system, slicing);
    read_packed_twice(&packed, system)
}

/// The reading of a line's levels. Columns in it are counted from 0. The smoothed levels are read only if the levels
/// show no word and one of them is high.
pub fn read_packed_twice(packed: &Packed, system: System) -> Reading
    requires { length packed.now ≡ width_of system }
    ensures { result ≡ reading_of system packed.now }
{
    let plain = find_outcome(packed, system);
    let (outcome, pass) = match plain {
        Outcome::Word(_) => (plain, 1),
        Outcome::Blank => (plain, 0),
        Outcome::Unfinished | Outcome::Change(_) | Outcome::Hold(_) => {
            match smoothed_word(packed, system) {
                Some(word) => (Outcome::Word(word), 2),
                None => (plain, 0),
            }
        }
    };
    Reading { outcome, pass }
}

/// The word that the smoothed levels show. The first three columns of a run keep the smoothed level of the columns
/// before it, and a run of three columns or fewer changes nothing.
#[tactic(auto, using(crate::proofs::SmoothRuns::begins))]
fn smoothed_word(packed: &Packed, system: System) -> Option<Word24>
    requires { length packed.now < 2 ^ 16 }
    ensures some { IfSome result (λ w. Shows system (smooth_of packed.now) w) }
    ensures none { IfNone result (ShowsNone system (smooth_of packed.now)) }
{
    let mut settled = false;
    let mut decoder = Decoder::Lead(0);
    let mut column: usize = 0;
    while column < packed.width() {
        let (level, count) = packed.next_run(column);
        let count = usize::from(count);
        // The smoothed level of a column is that of the latest four equal ones. So a run of up to three has the level
        // of what was before, and so do the first three of a longer one.
        if count < 4 {
            decoder = decoder.read_run(system, settled, count).ok()?;
        } else {
            let begun = decoder.read_run(system, settled, 3).ok()?;
            decoder = begun.read_run(system, level, count - 3).ok()?;
            settled = level;
        }
        column += count;
    }
    decoder.word(system)
}
