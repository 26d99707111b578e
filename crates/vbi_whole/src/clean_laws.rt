//! Laws of captures that leave nothing to doubt. A function here does nothing: its contract is a law.
//!
//! The laws of `gap_laws` say what a verdict means; these say when it is given. `specs/CleanRuns.antt` has the captures
//! of which they speak, by what the judge is handed.

ghost use Rattle.std.specs.Prelude.{◌≡◌, ℕ, ◌+◌, ◌*◌, ◌<◌, ◌≤◌, Bool, true, false, List, [], ◌∷◌, replicate};
ghost use Rattle.vbi_whole.specs.Types.{System, Clock, Plain, DropFrame, OneIn, Gap, Numbering, Counted, Number, Pace};
ghost use Rattle.vbi_whole.specs.CleanRuns.{KeepsTo, AreThreeAtEnds, IsReadRun, IsCleanRun, IsCleanSide, IsReadTwice};
ghost use Rattle.vbi_whole.specs.{Types.Video, Types.Sightings, Types.Finding, NumbersOnBoth.is_on_both};
ghost use Rattle.vbi_whole.specs.{CleanRuns.IsOneOfThree, CleanRuns.IsBegun, CleanRuns.IsEnded, Verdicts.IsFinding};
ghost use Rattle.vbi_whole.specs.{Verdicts.found_whole, Gaps.of_video};
ghost use Rattle.vbi_side.specs.{Worked.field_of, Worked.blank, PaceSearch.IsFound, Numbers.AreAnswers};
ghost use Rattle.vbi_side.specs.{Numbers.IsMarked};

/// A capture of video is called whole if it is one run of a disc from its first number to lead-out, each number of
/// which was read on both lines in pass 1. Its pace is found, its numbers are believed, and are found to stand on one
/// field of a picture. By the clock by which its disc counts nothing is said of it: no gap, no unread number, no swap
/// and no reason.
pub fn yes_complete()
    ensures pace { (clock : Clock) (number : ℕ → ℕ) (fields : List Sightings) (begin last : ℕ) (system : System)
        (counted : Counted) (pace : Pace) → IsCleanRun clock number fields begin last
        → IsFound system counted fields pace → pace ≡ Video }
    ensures believed { (clock : Clock) (number : ℕ → ℕ) (fields : List Sightings) (begin last : ℕ)
        (answers : List Number) → IsCleanRun clock number fields begin last → AreAnswers Video fields answers
        → (p : ℕ) → p ≤ last → IsMarked answers (begin + 2 * p) (number p) }
    ensures one_field { (clock : Clock) (number : ℕ → ℕ) (fields : List Sightings) (begin last : ℕ)
        (answers : List Number) → IsCleanRun clock number fields begin last → AreAnswers Video fields answers
        → is_on_both answers ≡ false }
    ensures whole { (number : ℕ → ℕ) (fields : List Sightings) (begin last : ℕ) (answers : List Number)
        (numbering : Numbering) (may_end : Bool) (ends : List ℕ) (finding : Finding) (old new : List Gap)
        → IsCleanSide (of_video numbering fields answers ends) number begin last may_end
        → AreAnswers Video fields answers
        → IsFinding (of_video numbering fields answers ends) may_end finding old new
        → finding ≡ found_whole begin (begin + 2 * last) }
{}

/// Runs are clean if each number is read: those of three pictures or more, of a disc that leaves out no number; by the
/// clocks that can be found those of which the first three numbers go up by one, and the last three.
pub fn clean_runs_are()
    ensures plain { (fields : List Sightings) (begin last m : ℕ) → 2 ≤ last
        → IsReadRun (λ p. m + p) fields begin last → IsCleanRun Plain (λ p. m + p) fields begin last }
    ensures drop { (number : ℕ → ℕ) (fields : List Sightings) (begin last : ℕ) → AreThreeAtEnds number last
        → KeepsTo DropFrame number last → IsReadRun number fields begin last
        → IsCleanRun DropFrame number fields begin last }
    ensures thousand { (phase : ℕ) (number : ℕ → ℕ) (fields : List Sightings) (begin last : ℕ) → phase < 1000
        → AreThreeAtEnds number last → KeepsTo (OneIn 1000 phase) number last → IsReadRun number fields begin last
        → IsCleanRun (OneIn 1000 phase) number fields begin last }
    ensures more { (phase : ℕ) (number : ℕ → ℕ) (fields : List Sightings) (begin last : ℕ) → phase < 1001
        → AreThreeAtEnds number last → KeepsTo (OneIn 1001 phase) number last → IsReadRun number fields begin last
        → IsCleanRun (OneIn 1001 phase) number fields begin last }
{}

/// Clean sides at their edges, written down by hand: where a side may begin, where it has to end, and which fields and
/// numbers are a run.
#[tactic(auto, unfolding(vbi_side::specs::Clocks::kept, crate::specs::Gaps::since_end))]
pub fn worked_clean_sides()
    ensures first { IsBegun Plain [] 0 1 × (IsBegun Plain [] 0 2 → ⊥) }
    ensures unread { IsBegun Plain (0 ∷ 3 ∷ 0 ∷ 0 ∷ []) 4 2 × (IsBegun Plain (0 ∷ 0 ∷ 3 ∷ 0 ∷ []) 4 2 → ⊥) }
    ensures late { IsBegun Plain (replicate 100 0) 100 2 × (IsBegun Plain (replicate 101 0) 101 2 → ⊥) }
    ensures ended { IsEnded false (0 ∷ 1 ∷ []) 0 × (IsEnded false (1 ∷ 0 ∷ []) 0 → ⊥)
        × (IsEnded false (0 ∷ 3 ∷ []) 0 → ⊥) × IsEnded true [] 0 }
    ensures twice { IsReadTwice (field_of 5 2 5 2 ∷ []) 0 5 × (IsReadTwice (field_of 5 1 5 2 ∷ []) 0 5 → ⊥)
        × (IsReadTwice (field_of 5 2 6 2 ∷ []) 0 5 → ⊥) }
    ensures run { IsReadRun (λ p. 7 + p) (field_of 7 2 7 2 ∷ blank ∷ field_of 8 2 8 2 ∷ []) 0 1
        × (IsReadRun (λ p. 7 + p) (field_of 7 2 7 2 ∷ blank ∷ blank ∷ []) 0 1 → ⊥)
        × (IsReadRun (λ p. 7 + p) (field_of 7 2 7 2 ∷ blank ∷ field_of 8 2 8 2 ∷ []) 0 0 → ⊥) }
    ensures three { IsOneOfThree (λ p. p) 2 0 × (IsOneOfThree (λ p. p) 1 0 → ⊥)
        × (IsOneOfThree (λ p. 2 * p) 2 0 → ⊥) }
{}
