//! Laws of the rules' edges, written down by hand. A function here does nothing: its contract holds each of them.

ghost use Rattle.std.specs.Prelude.{◌≡◌, ℕ, List, [], ◌∷◌, map, true, false};
ghost use Rattle.vbi_side.specs.Types.{Ntsc, Pal, Counted, Times, Pace, Video, Sightings, DropFrame, OneIn};
ghost use Rattle.vbi_side.specs.{Clocks.left_out, Clocks.leaves_out, Clocks.place, DueNumbers.ShowsInstead};
ghost use Rattle.vbi_side.specs.{DueNumbers.ShowsTwice, PaceSearch.IsFound, Numbers.doubtful_of, Numbers.doubtful};
ghost use Rattle.vbi_side.specs.{Numbers.nothing, Chapters.chapters_of, Chapters.opposes, Worked.field_of};
ghost use Rattle.vbi_side.specs.{Worked.instead_of, WorkedChapters.line_of};

/// Which fields leave no room for a number that is due, what is in doubt, which pace is never asked, and what of a
/// field speaks of its chapter.
#[tactic(auto, unfolding(vbi_words::specs::Codes::code_of))]
pub fn worked_rules()
    ensures instead { ShowsInstead (instead_of 0 0 0 0 ∷ []) 0 × (ShowsInstead (field_of 5 2 5 2 ∷ []) 0 → ⊥) }
    ensures twice { ShowsTwice (field_of 5 2 5 2 ∷ []) 0 × (ShowsTwice (field_of 5 2 6 2 ∷ []) 0 → ⊥)
        × (ShowsTwice (field_of 5 1 5 2 ∷ []) 0 → ⊥) × (ShowsTwice (field_of 5 2 5 1 ∷ []) 0 → ⊥) }
    ensures doubt { map doubtful_of (field_of 1 2 2 2 ∷ field_of 1 1 2 2 ∷ field_of 1 0 2 1 ∷ field_of 1 0 2 0 ∷ [])
        ≡ doubtful 1 ∷ doubtful 1 ∷ doubtful 2 ∷ nothing ∷ [] }
    ensures times { (fields : List Sightings) (pace : Pace) → IsFound Ntsc Times fields pace → pace ≡ Video }
    ensures pal { (counted : Counted) (fields : List Sightings) (pace : Pace) → IsFound Pal counted fields pace
        → pace ≡ Video }
    ensures lines { chapters_of (line_of 0x807DDD 1) (line_of 0x819DDD 2) ≡ field_of 7 2 19 1 }
    ensures against { map (λ j. opposes 5 7 j 8) (4 ∷ 5 ∷ 6 ∷ []) ≡ true ∷ true ∷ false ∷ [] }
    ensures against_back { map (λ j. opposes 5 7 j 6) (4 ∷ 5 ∷ 6 ∷ []) ≡ false ∷ true ∷ true ∷ [] }
    ensures same { map (λ j. opposes 5 7 j 7) (4 ∷ 5 ∷ 6 ∷ []) ≡ false ∷ false ∷ false ∷ [] }
{}

/// What a clock leaves out, worked by hand: 0:00:59.29 is followed by 0:01:00.02, and 0:09:59.29 by 0:10:00.00.
#[tactic(auto, unfolding(crate::specs::Clocks::left_out, crate::specs::Clocks::kept))]
pub fn worked_clocks()
    ensures minute { map (left_out DropFrame) (0 ∷ 1799 ∷ 1800 ∷ 1801 ∷ 1802 ∷ 3600 ∷ 3602 ∷ 18000 ∷ 19800 ∷ 19802
        ∷ 107892 ∷ []) ≡ 0 ∷ 0 ∷ 0 ∷ 1 ∷ 2 ∷ 2 ∷ 4 ∷ 18 ∷ 18 ∷ 20 ∷ 108 ∷ [] }
    ensures places { map (place DropFrame) (1799 ∷ 1802 ∷ 17999 ∷ 18000 ∷ []) ≡ 3598 ∷ 3600 ∷ 35962 ∷ 35964 ∷ [] }
    ensures even { map (left_out (OneIn 1000 399)) (399 ∷ 400 ∷ 1399 ∷ 1400 ∷ []) ≡ 0 ∷ 1 ∷ 1 ∷ 2 ∷ [] }
    ensures out { map (leaves_out DropFrame) (0 ∷ 1 ∷ 1799 ∷ 1800 ∷ 1801 ∷ 1802 ∷ 18000 ∷ 18001 ∷ 19800 ∷ [])
        ≡ false ∷ false ∷ false ∷ true ∷ true ∷ false ∷ false ∷ false ∷ true ∷ [] }
{}
