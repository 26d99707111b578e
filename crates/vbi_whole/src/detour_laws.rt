//! Laws of detours. A function here does nothing: its contract is a law.
//!
//! What is told of gaps is the gaps themselves, but for detours (`detours_told`). By one nothing is said to be lost
//! (`replaced_costs_nothing`). What one says of the disc follows if the numbers around it are right, of video:
//! `replaced_is`, the law of the two, and `inserted_is`. The function `worked_detours` has rows written down by hand.

ghost use Rattle.std.specs.Prelude.{◌≡◌, ◌≢◌, ℕ, ◌+◌, ◌*◌, ◌-◌, ◌<◌, ◌≤◌, Bool, List, [], ◌∷◌, Option, Some, None};
ghost use Rattle.std.specs.Prelude.{length, slice_get, map, false};
ghost use Rattle.vbi_whole.specs.Types.{Clock, Plain, Gap, Numbering, Number, Pace, Video, Film, Sightings, Finding};
ghost use Rattle.vbi_whole.specs.Detours.{detour_of, fields_by, turned, detoured, skips, repeats, IsToldAs, IsLeft};
ghost use Rattle.vbi_whole.specs.Gaps.{lost, held, back, still, joined, open_gap, inserted, replaced, gap_made};
ghost use Rattle.vbi_whole.specs.Gaps.{since_end, IsGap, IsOfVideo, Judged, rule_by};
ghost use Rattle.vbi_whole.specs.{Types.No, Types.Rule, Tallies.tally_of, Verdicts.too_few, Verdicts.padded_in};
ghost use Rattle.vbi_whole.specs.{Verdicts.HasNone, Verdicts.IsFinding, WorkedSides.cav, WorkedSides.by_pictures};
ghost use Rattle.vbi_whole.specs.{WorkedSides.by_film, Detours.IsRightDetour};
ghost use Rattle.vbi_side.specs.{Clocks.kept, Clocks.DiscCountsBy, Numbers.IsMarked, Side.Rises, Side.captured};
ghost use Rattle.vbi_side.specs.{Side.IsOneRun, Paces.spot};

/// As many gaps are told as there are, each in its place: as it is, or as one of a detour of two neighbours. One that
/// is told to be of another kind than these is told as it is. Detours are taken from the first gap on, and no gap is of
/// two.
pub fn detours_told()
    ensures count { (rule : Rule) (gaps : List Gap)
        → length (detoured rule gaps) ≡ length gaps }
    ensures each { (rule : Rule) (gaps : List Gap) (j : ℕ) (told : Gap)
        → slice_get (detoured rule gaps) j ≡ Some told → IsToldAs rule gaps j told }
    ensures others { (rule : Rule) (gaps : List Gap) (j : ℕ) (told : Gap)
        → slice_get (detoured rule gaps) j ≡ Some told → told.kind ≢ replaced → told.kind ≢ inserted
        → slice_get gaps j ≡ Some told }
    ensures pair { (rule : Rule) (a b : Gap) (gaps : List Gap) (kind : ℕ)
        → detour_of rule a b ≡ Some kind → detoured rule (a ∷ b ∷ gaps)
        ≡ turned kind (fields_by rule kind a b) a ∷ turned kind 0 b ∷ detoured rule gaps }
    ensures alone { (rule : Rule) (a b : Gap) (gaps : List Gap)
        → detour_of rule a b ≡ None
        → detoured rule (a ∷ b ∷ gaps) ≡ a ∷ detoured rule (b ∷ gaps) }
{}

/// The law of the two: if the numbers around replaced ones are right, of a disc of video that counts on, as many fields
/// are skipped between as are repeated. If the capture is in the disc's order, its fields between are one run, and the
/// numbers of the run, at both gaps, aren't those of the disc.
pub fn replaced_is()
    ensures cancels { (disc : ℕ → Option ℕ) (place : ℕ → ℕ) (numbering : Numbering) (a b : Gap)
        → IsRightDetour disc place numbering a b replaced → a.after ≤ b.before
        → skips place a.after (b.before - a.after) ≡ repeats place a.after (b.before - a.after) }
    ensures in_order { (disc : ℕ → Option ℕ) (place : ℕ → ℕ) (numbering : Numbering) (a b : Gap)
        → IsRightDetour disc place numbering a b replaced → a.after ≤ b.before
        → Rises place → IsOneRun place a.after b.before }
    ensures misread { (disc : ℕ → Option ℕ) (place : ℕ → ℕ) (judged : Judged) (a b : Gap) → IsOfVideo judged
        → IsRightDetour disc place judged.rule.numbering a b replaced → IsGap judged a → IsGap judged b
        → a.before ≤ b.after → Rises place
        → (captured disc place a.before ≢ Some a.to) × (captured disc place b.after ≢ Some b.from) }
{}

/// If the numbers around inserted fields are right, of a disc of video that counts on, the disc has fewer fields
/// between than the capture, and no more than stand outside of the run between the two gaps. So the capture isn't in
/// the disc's order there. And if fields are inserted, the verdict is no.
pub fn inserted_is()
    ensures left { (disc : ℕ → Option ℕ) (place : ℕ → ℕ) (numbering : Numbering) (a b : Gap)
        → IsRightDetour disc place numbering a b inserted
        → a.after < a.before → a.before ≤ b.after → b.after < b.before
        → IsLeft (rule_by Video 0 numbering) place a b }
    ensures out_of_order { (disc : ℕ → Option ℕ) (place : ℕ → ℕ) (numbering : Numbering) (a b : Gap)
        → IsRightDetour disc place numbering a b inserted
        → a.after < a.before → a.before ≤ b.after → b.after < b.before → Rises place → ⊥ }
    ensures verdict { (judged : Judged) (may_end : Bool) (finding : Finding) (old new : List Gap)
        → IsFinding judged may_end finding old new → (HasNone judged.numbers → ⊥)
        → 0 < finding.tally.inserted → finding.verdict ≡ No }
{}

/// If all gaps of a capture are told to be of replaced numbers, no field and no number is lost by them, none is
/// undecided, and the verdict isn't no, unless the capture begins late, or fields are swapped or
/// padding.
pub fn replaced_costs_nothing()
    ensures counts { (clock : Clock) (gaps : List Gap) (unread : ℕ)
        → ((j : ℕ) (gap : Gap) → slice_get gaps j ≡ Some gap → gap.kind ≡ replaced)
        → ((tally_of clock gaps unread).lost ≡ 0) × ((tally_of clock gaps unread).held ≡ 0)
        × ((tally_of clock gaps unread).lost_numbers ≡ 0) × ((tally_of clock gaps unread).undecided ≡ 0)
        × ((tally_of clock gaps unread).back ≡ 0) × ((tally_of clock gaps unread).joined ≡ 0)
        × ((tally_of clock gaps unread).inserted ≡ 0) }
    ensures verdict { (judged : Judged) (may_end : Bool) (finding : Finding) (old new : List Gap)
        → (is : IsFinding judged may_end finding old new)
        → ((j : ℕ) (gap : Gap) → slice_get (detoured judged.rule is.told.gaps) j ≡ Some gap
        → gap.kind ≡ replaced) → is.swapped ≡ false → padded_in judged.ends ≡ 0
        → ((m : ℕ) → IsMarked judged.numbers finding.first m
        → too_few judged.rule.pace (since_end judged.ends finding.first) (kept judged.rule.numbering.clock m) ≡ false)
        → finding.verdict ≢ No }
{}

/// Detours, worked by hand: over pictures 41 to 43 in place of 3 to 5; where the player left picture 3, and came back;
/// of each kind; without a number that goes back; with numbers on both fields; of film; and three gaps, of which the
/// second one would be a detour with either.
#[tactic(auto, unfolding(vbi_side::specs::Clocks::kept, crate::specs::Detours::detoured_from))]
pub fn worked_detours()
    ensures replaces { map (λ k. detour_of by_pictures (gap_made (spot 2 2) (spot 4 41) lost 74 0) (gap_made (spot 8 43)
        (spot k 6) back 0 0)) (9 ∷ 10 ∷ 11 ∷ []) ≡ None ∷ Some replaced ∷ None ∷ [] }
    ensures inserts { map (λ n. detour_of by_pictures (gap_made (spot 4 3) (spot 8 21) lost 32 0) (gap_made (spot 8 21)
        (spot 11 n) back 0 0)) (2 ∷ 3 ∷ 4 ∷ 5 ∷ 6 ∷ 7 ∷ []) ≡ None ∷ None ∷ Some inserted ∷ Some inserted
        ∷ Some inserted ∷ None ∷ [] }
    ensures kinds { map (λ kind. detour_of by_pictures (gap_made (spot 4 3) (spot 8 21) kind 0 0) (gap_made (spot 8 21)
        (spot 11 6) back 0 0)) (lost ∷ held ∷ back ∷ still ∷ joined ∷ open_gap ∷ []) ≡ Some inserted ∷ Some inserted
        ∷ Some inserted ∷ None ∷ None ∷ Some inserted ∷ [] }
    ensures second_kinds { map (λ kind. detour_of by_pictures (gap_made (spot 4 3) (spot 8 2) back 0 0) (gap_made (spot
        8 2) (spot 11 6) kind 0 0)) (lost ∷ held ∷ back ∷ still ∷ joined ∷ open_gap ∷ []) ≡ Some inserted
        ∷ Some inserted ∷ Some inserted ∷ None ∷ None ∷ Some inserted ∷ [] }
    ensures none_back { detour_of by_pictures (gap_made (spot 0 1) (spot 4 2) held 2 0) (gap_made (spot 4 2) (spot 8 3)
        held 2 0) ≡ None }
    ensures both { map (λ slack. detour_of (rule_by Video slack cav) (gap_made (spot 3 2) (spot 4 41) lost 77 0)
        (gap_made (spot 7 42) (spot 8 3) back 0 0)) (0 ∷ 1 ∷ []) ≡ None ∷ Some inserted ∷ [] }
    ensures film { map (λ n. detour_of by_film (gap_made (spot 2 2) (spot 5 41) lost 94 0) (gap_made (spot 7 42) (spot
        10 n) back 0 0)) (3 ∷ 4 ∷ 5 ∷ 6 ∷ []) ≡ Some inserted ∷ Some inserted ∷ Some replaced ∷ None ∷ [] }
    ensures film_still { map (λ pace. detour_of (rule_by pace 0 cav) (gap_made (spot 147 59) (spot 149 61) lost 2 0)
        (gap_made (spot 149 61) (spot 151 61) still 2 0)) (Video ∷ Film ∷ []) ≡ None ∷ Some replaced ∷ [] }
    ensures told { detoured by_pictures (gap_made (spot 4 3) (spot 6 21) lost 34 0
        ∷ gap_made (spot 10 23) (spot 12 4) back 0 0 ∷ []) ≡ gap_made (spot 4 3) (spot 6 21) inserted 6 0
        ∷ gap_made (spot 10 23) (spot 12 4) inserted 0 0 ∷ [] }
    ensures once { detoured by_pictures (gap_made (spot 2 2) (spot 4 41) lost 74 0
        ∷ gap_made (spot 4 41) (spot 6 4) back 0 0 ∷ gap_made (spot 6 4) (spot 8 43) lost 76 0 ∷ [])
        ≡ gap_made (spot 2 2) (spot 4 41) replaced 0 0 ∷ gap_made (spot 4 41) (spot 6 4) replaced 0 0
        ∷ gap_made (spot 6 4) (spot 8 43) lost 76 0 ∷ [] }
    ensures last { detoured by_pictures (gap_made (spot 2 2) (spot 4 41) lost 74 0
        ∷ gap_made (spot 8 43) (spot 12 9) back 0 0 ∷ gap_made (spot 14 10) (spot 20 13) held 0 0 ∷ [])
        ≡ gap_made (spot 2 2) (spot 4 41) lost 74 0 ∷ gap_made (spot 8 43) (spot 12 9) back 0 0
        ∷ gap_made (spot 14 10) (spot 20 13) held 0 0 ∷ [] }
    ensures film_fields { detoured by_film (gap_made (spot 2 2) (spot 5 41) lost 94 0
        ∷ gap_made (spot 7 42) (spot 10 3) back 0 0 ∷ []) ≡ gap_made (spot 2 2) (spot 5 41) inserted 6 0
        ∷ gap_made (spot 7 42) (spot 10 3) inserted 0 0 ∷ [] }
    ensures open_gaps { (tally_of Plain (gap_made (spot 2 2) (spot 4 41) replaced 0 0
        ∷ gap_made (spot 8 43) (spot 10 6) replaced 0 0 ∷ []) 0).open_gaps ≡ 2 }
    ensures away { (tally_of Plain (gap_made (spot 4 3) (spot 6 21) inserted 6 0
        ∷ gap_made (spot 10 23) (spot 12 4) inserted 0 0 ∷ []) 0).inserted ≡ 6 }
{}
