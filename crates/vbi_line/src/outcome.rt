//! The outcome of a line: its word, or why it shows none.

ghost use Rattle.std.specs.Prelude.{◌≡◌, ◌+◌, ◌^◌, ◌<◌, ◌≤◌, [], ◌∷◌, length};
ghost use Rattle.vbi_words.specs.{Geometry.width_of, Levels.row_levels, Outcomes.IsOutcome};
ghost use Rattle.vbi_line.specs.{Line.IsFull, Line.KeepsBytes, OneReading.outcome_of};

use crate::decoder::Decoder;
use crate::lanes::slice_lanes;
use crate::line::LineBuf;
use crate::packed::Packed;
use crate::straight::straight_word;
use vbi_words::{Levels, Outcome, System};

/// The outcome of a line of this system that is held whole, by one pass over its samples. Columns in it are counted
/// from 0.
pub fn read_line(line: &mut LineBuf, system: System, slicing: Levels) -> Outcome
    requires full { IsFull line.old }
    requires system { line.old.system ≡ system }
    requires passes { line.old.cursors ≡ [] }
    requires looked { line.old.looked ≤ 2 ^ 61 }
    ensures outcome { result ≡ outcome_of system (row_levels slicing line.old.held) }

    // One pass has looked at each sample once.
    ensures bytes { KeepsBytes line.old line.new }
    ensures pass { line.new.cursors ≡ width_of system ∷ [] }
    ensures looked { line.new.looked ≡ line.old.looked + width_of system }
{
    let packed = slice_lanes(line, slicing);
    read_packed(&packed, system)
}

/// The outcome of a line's levels. Columns in it are counted from 0.
#[tactic(auto, using(crate::proofs::OneReading::same_outcome))]
pub fn read_packed(packed: &Packed, system: System) -> Outcome
    requires { length packed.now ≡ width_of system }
    ensures { result ≡ outcome_of system packed.now }
{
    find_outcome(packed, system)
}

/// What `read_packed` returns, by the relation that the proofs of this crate need.
pub(crate) fn find_outcome(packed: &Packed, system: System) -> Outcome
    requires { length packed.now ≡ width_of system }
    ensures { IsOutcome system packed.now result }
{
    match straight_word(packed, system) {
        Some(word) => Outcome::Word(word),
        None => read_runs(packed, system),
    }
}

/// The cause at the first hopeless column, which is this number of columns after the first column of its run.
fn cause(begin: usize, after: usize) -> Outcome
    requires { begin + after < 2 ^ 16 }
    ensures change { after ≡ 0 → result ≡ Outcome.Change (begin + after) }
    ensures hold { 0 < after → result ≡ Outcome.Hold (begin + after) }
{
    let at = (begin + after) as u16;
    if after == 0 {
        Outcome::Change(at)
    } else {
        Outcome::Hold(at)
    }
}

/// The outcome, run by run: a run of equal levels is one step of the decoder, however long it is.
fn read_runs(packed: &Packed, system: System) -> Outcome
    requires { length packed.now < 2 ^ 16 }
    ensures { IsOutcome system packed.now result }
{
    let mut decoder = Decoder::Lead(0);
    let mut column: usize = 0;
    // A run has the level that the one before it doesn't have.
    let mut level = packed.width() > 0 && packed.level(0);
    while column < packed.width() {
        let end = packed.run_end(column, level);
        match decoder.read_run(system, level, end - column) {
            Ok(next) => {
                decoder = next;
                column = end;
                level = !level;
            }
            Err(lived) => return cause(column, lived),
        }
    }
    decoder.end(system)
}
