//! Laws of the definitions in `specs/`. A function here does nothing: its contract is a law, which holds of every
//! system and every list of levels.

ghost use Rattle.std.specs.Prelude.{◌≡◌, List, Bool};
ghost use Rattle.vbi_words.specs.{declared.system.System.System, declared.outcome.Outcome.Outcome};
ghost use Rattle.vbi_words.specs.{declared.outcome.Reading.Reading, Outcomes.IsOutcome, Readings.IsReading};
ghost use Rattle.vbi_words.specs.{Readings.reading_from, Smooth.smooth_of};
ghost use Rattle.vbi_line.specs.OneReading.{reading_of, outcome_of};

/// A list of levels has exactly one outcome.
#[tactic(auto, using(crate::proofs::OneReading::is_outcome, crate::proofs::OneReading::same_outcome))]
pub fn one_outcome()
    ensures is { (system : System) (levels : List Bool) → IsOutcome system levels (outcome_of system levels) }
    ensures only { (system : System) (levels : List Bool) (outcome : Outcome)
        → IsOutcome system levels outcome → outcome ≡ outcome_of system levels }
{}

/// A list of levels has exactly one reading, which follows from its outcome and the outcome of its smoothed levels.
pub fn one_reading()
    ensures is { (system : System) (levels : List Bool) → IsReading system levels (reading_of system levels) }
    ensures only { (system : System) (levels : List Bool) (reading : Reading)
        → IsReading system levels reading → reading ≡ reading_of system levels }
    ensures outcomes { (system : System) (levels : List Bool)
        → reading_of system levels ≡ reading_from (outcome_of system levels) (outcome_of system (smooth_of levels)) }
{}
