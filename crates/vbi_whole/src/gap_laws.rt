//! Laws of the gaps and of the verdict. A function here does nothing: its contract is a law.
//!
//! First the gaps: all are told, in order, and what one says is so on the disc (`all_told` to `cut_found`). Then the
//! verdict: what `Yes` means of video, of numbers on both fields and of film (`whole_yes`, `nearly_whole`), and that
//! lost fields are lost (`lost_sound`). They speak of a disc that counts by a clock, with the case of none beside it.
//! Where the clock leaves numbers out within 12 of an end, as many pictures as the 24 fields of the reach last, they
//! say less: a believed number may fit others there that are one off.
//!
//! The functions `worked_..` are rows written down by hand at the edges of each rule, and captures that meet the
//! premises. A change in `specs/Gaps.antt`, `Verdicts.antt`, `Swaps.antt` or `Drifts.antt` changes rows here, and
//! docs/PROMISES.md.

ghost use Rattle.std.specs.Prelude.{◌≡◌, ◌≢◌, ℕ, ◌+◌, ◌*◌, ◌-◌, ◌<◌, ◌≤◌, Bool, List, [], ◌∷◌, ◌++◌, Option, Some};
ghost use Rattle.std.specs.Prelude.{None, slice_get, map, true, false};
ghost use Rattle.vbi_whole.specs.Types.{Number, Sightings, Gap, Finding, Pace, Video, Film, Clock, Plain, DropFrame};
ghost use Rattle.vbi_whole.specs.Gaps.{lost, held, back, still, joined, open_gap, gap_of, gap_made, since_end};
ghost use Rattle.vbi_whole.specs.Gaps.{ended_between, shown_between, IsGap, AreGaps, CountTo, HasRightEnds};
ghost use Rattle.vbi_whole.specs.Gaps.{LostAtLeast, HeldAtLeast, to_judge, Judged, rule_by, amid, IsOfVideo};
ghost use Rattle.vbi_whole.specs.Verdicts.{is_end_unseen, too_few, HasNone, IsFinding, found_whole};
ghost use Rattle.vbi_whole.specs.WorkedSides.{cav, cav_pal, clv, clv_pal, by_pictures, by_times, by_film, unseen};
ghost use Rattle.vbi_whole.specs.WorkedSides.{after_5, gap_after_5, two_stills, two_pictures, two_answers, worked_side};
ghost use Rattle.vbi_whole.specs.{Types.OneIn, Types.Numbering, Types.Yes, Types.CannotTell, Detours.detoured};
ghost use Rattle.vbi_whole.specs.{Tallies.lost_of, Tallies.undecided_of, Tallies.stills_of, Tallies.last_still};
ghost use Rattle.vbi_whole.specs.{Swaps.stands_off};
ghost use Rattle.vbi_whole.specs.{Swaps.is_stray, NumbersOnBoth.is_on_both, SaidWhole.IsSaidWhole};
ghost use Rattle.vbi_whole.specs.SaidWhole.{AreClearEnds, AreFewLost, IsReadGap};
ghost use Rattle.vbi_whole.specs.{Drifts.leads, Drifts.IsDriftTold};
ghost use Rattle.vbi_whole.specs.{WorkedSides.worked_answers, WorkedSides.worked_ends};
ghost use Rattle.vbi_side.specs.Numbers.{IsMarked, AreAnswers, believed, doubtful, nothing};
ghost use Rattle.vbi_side.specs.Side.{DiscRuns, DiscCounts, Rises, captured, AreLost, NoneLost, IsOneRun};
ghost use Rattle.vbi_side.specs.Clocks.{DiscCountsBy, DiscNearlyBy, IsClear, IsClearAt, out_near};
ghost use Rattle.vbi_side.specs.{Beliefs.reach, Beliefs.enough, Truth.IsNear, Truth.wrong_weight, Truth.video_disc};
ghost use Rattle.vbi_side.specs.{Ends.end_by, Worked.field_of, Paces.spot};

/// What is told are gaps, each one is told, and in order: an earlier one ends where a later one begins, or before.
pub fn all_told()
    ensures each { (judged : Judged) (k : ℕ) (gaps : List Gap) (unread : ℕ)
        → AreGaps judged k gaps unread → (j : ℕ) (gap : Gap)
        → slice_get gaps j ≡ Some gap → IsGap judged gap × (gap.before < k) }
    ensures every { (judged : Judged) (k : ℕ) (gaps : List Gap) (unread : ℕ)
        → AreGaps judged k gaps unread → (gap : Gap)
        → IsGap judged gap → gap.before < k → (j : ℕ) × (slice_get gaps j ≡ Some gap) }
    ensures order { (judged : Judged) (k : ℕ) (gaps : List Gap) (unread : ℕ)
        → AreGaps judged k gaps unread → (i j : ℕ) (one other : Gap) → i < j
        → slice_get gaps i ≡ Some one → slice_get gaps j ≡ Some other → one.before ≤ other.after }
{}

/// If each number of video goes on from the one before it, any two count to each other.
pub fn all_count()
    ensures { (judged : Judged) (k unread i m j n : ℕ) → IsOfVideo judged → AreGaps judged k [] unread
        → IsMarked judged.numbers i m → IsMarked judged.numbers j n → i ≤ j → j < k
        → CountTo judged.rule.numbering.clock i m j n }
{}

/// In a gap whose numbers are right as many fields are lost as it says, or too many, if the disc counts on by the
/// clock: of video just as many are lost, at either pace as many at least. And a gap of video of any kind is one: its
/// fields aren't one run of the disc.
pub fn gap_is_so()
    ensures exact { (judged : Judged) (disc : ℕ → Option ℕ) (place : ℕ → ℕ) (gap : Gap) → IsOfVideo judged
        → DiscCountsBy judged.rule.numbering.clock Video disc → IsGap judged gap → gap.kind ≡ lost
        → HasRightEnds (captured disc place) gap → AreLost place gap.after gap.before gap.fields }
    ensures cut { (judged : Judged) (disc : ℕ → Option ℕ) (place : ℕ → ℕ) (gap : Gap) → IsOfVideo judged
        → DiscCountsBy judged.rule.numbering.clock Video disc → IsGap judged gap
        → HasRightEnds (captured disc place) gap
        → place gap.before ≢ place gap.after + (gap.before - gap.after) }
    ensures least { (judged : Judged) (disc : ℕ → Option ℕ) (place : ℕ → ℕ) (gap : Gap)
        → DiscCountsBy judged.rule.numbering.clock judged.rule.pace disc → IsGap judged gap → gap.kind ≡ lost
        → HasRightEnds (captured disc place) gap → LostAtLeast place gap.after gap.before gap.fields }
    ensures more { (judged : Judged) (disc : ℕ → Option ℕ) (place : ℕ → ℕ) (gap : Gap)
        → DiscCountsBy judged.rule.numbering.clock judged.rule.pace disc → IsGap judged gap → gap.kind ≡ held
        → HasRightEnds (captured disc place) gap → HeldAtLeast place gap.after gap.before gap.fields }
{}

/// Around a gap of video the capture isn't one run of the disc: if less than enough was misread around the numbers at
/// both of its ends, not every field from 24 before the one to 24 after the other is followed by the disc's next one.
pub fn cut_found()
    ensures plain { (disc : ℕ → Option ℕ) (place : ℕ → ℕ) (judged : Judged) (fields : List Sightings) (gap : Gap)
        → IsOfVideo judged → IsReadGap disc place judged fields gap → judged.rule.numbering.clock ≡ Plain
        → DiscRuns Video disc → IsOneRun place (gap.after - reach) (gap.before + reach) → ⊥ }
    ensures by_clock { (disc : ℕ → Option ℕ) (place : ℕ → ℕ) (judged : Judged) (fields : List Sightings) (gap : Gap)
        → IsOfVideo judged → IsReadGap disc place judged fields gap
        → DiscCountsBy judged.rule.numbering.clock Video disc → Rises place
        → IsClear judged.rule.numbering.clock gap.from → IsClear judged.rule.numbering.clock gap.to
        → IsOneRun place (gap.after - reach) (gap.before + reach) → ⊥ }
{}

/// If a capture of video is said to be whole, its fields stand in the disc's order, the disc counts by the clock of the
/// answer, less than enough was misread around its first and its last number, and the clock leaves out none near these,
/// no field of the disc is lost from 24 fields after the first to 24 before the last. Of what was read between the two
/// nothing is assumed. A disc that leaves out no numbers is the case `plain`.
pub fn whole_yes()
    ensures by_clock { (disc : ℕ → Option ℕ) (place : ℕ → ℕ) (judged : Judged) (fields : List Sightings)
        (finding : Finding) → IsOfVideo judged → IsSaidWhole disc place judged fields finding
        → DiscCountsBy judged.rule.numbering.clock Video disc → AreClearEnds judged finding
        → NoneLost place (finding.first + reach) (finding.last - reach) }
    ensures plain { (disc : ℕ → Option ℕ) (place : ℕ → ℕ) (judged : Judged) (fields : List Sightings)
        (finding : Finding) → IsOfVideo judged → IsSaidWhole disc place judged fields finding
        → judged.rule.numbering.clock ≡ Plain → DiscRuns Video disc
        → NoneLost place (finding.first + reach) (finding.last - reach) }
{}

/// If a capture of a disc with a number on both fields of its pictures, or of film, is so said to be whole, at most two
/// fields are lost between two fields of which one is within 24 fields of each end, of film at most four. By a clock,
/// wherever the ends are, at most twice as many as numbers are left out near them.
pub fn nearly_whole()
    ensures both { (disc : ℕ → Option ℕ) (place : ℕ → ℕ) (judged : Judged) (fields : List Sightings)
        (finding : Finding) → judged.rule.pace ≡ Video → judged.rule.slack ≤ 1
        → IsSaidWhole disc place judged fields finding
        → DiscNearlyBy judged.rule.numbering.clock judged.rule.slack disc → AreClearEnds judged finding
        → AreFewLost place finding (2 * judged.rule.slack) }
    ensures film { (disc : ℕ → Option ℕ) (place : ℕ → ℕ) (judged : Judged) (fields : List Sightings)
        (finding : Finding) → judged.rule.pace ≡ Film → IsSaidWhole disc place judged fields finding
        → DiscCountsBy judged.rule.numbering.clock Film disc → AreClearEnds judged finding
        → AreFewLost place finding 4 }
    ensures anywhere { (disc : ℕ → Option ℕ) (place : ℕ → ℕ) (judged : Judged) (fields : List Sightings)
        (finding : Finding) → IsOfVideo judged → IsSaidWhole disc place judged fields finding
        → DiscCountsBy judged.rule.numbering.clock Video disc
        → (m n : ℕ) × IsMarked judged.numbers finding.first m × IsMarked judged.numbers finding.last n
        × AreFewLost place finding (2 * (out_near judged.rule.numbering.clock m
        + out_near judged.rule.numbering.clock n)) }
    ensures both_plain { (disc : ℕ → Option ℕ) (place : ℕ → ℕ) (judged : Judged) (fields : List Sightings)
        (finding : Finding) → judged.rule.pace ≡ Video → judged.rule.slack ≤ 1
        → IsSaidWhole disc place judged fields finding → judged.rule.numbering.clock ≡ Plain
        → DiscCounts judged.rule.slack disc → AreFewLost place finding (2 * judged.rule.slack) }
    ensures film_plain { (disc : ℕ → Option ℕ) (place : ℕ → ℕ) (judged : Judged) (fields : List Sightings)
        (finding : Finding) → judged.rule.pace ≡ Film → IsSaidWhole disc place judged fields finding
        → judged.rule.numbering.clock ≡ Plain → DiscRuns Film disc → AreFewLost place finding 4 }
{}

/// If fields are said to be lost, the numbers at the ends of the gaps that are told to be such are right, and the
/// capture's fields stand in the disc's order, this many of the disc at least are lost between its first and its last
/// number.
pub fn lost_sound()
    ensures { (judged : Judged) (may_end : Bool) (disc : ℕ → Option ℕ) (place : ℕ → ℕ) (finding : Finding)
        (old new : List Gap) → DiscCountsBy judged.rule.numbering.clock judged.rule.pace disc
        → Rises place → (is : IsFinding judged may_end finding old new)
        → ((j : ℕ) (gap : Gap) → slice_get (detoured judged.rule is.told.gaps) j ≡ Some gap
        → gap.kind ≡ lost → HasRightEnds (captured disc place) gap) → (HasNone judged.numbers → ⊥)
        → LostAtLeast place finding.first finding.last finding.tally.lost }
{}

/// If nothing is known, it can't be told.
pub fn none_known()
    ensures { (judged : Judged) (may_end : Bool) (finding : Finding)
        (old new : List Gap) → IsFinding judged may_end finding old new
        → HasNone judged.numbers
        → finding.verdict ≡ CannotTell }
{}

/// Gaps, worked by hand: of video between picture 5 in field 10 and others, of times, and of film.
#[tactic(auto, unfolding(vbi_side::specs::Clocks::kept))]
pub fn worked_gaps()
    ensures goes_on { map (λ n. after_5 by_pictures (2 * n) n) (6 ∷ 7 ∷ 1000 ∷ []) ≡ None ∷ None ∷ None ∷ [] }
    ensures lost { after_5 by_pictures 12 8 ≡ gap_after_5 12 8 lost 4 }
    ensures one_lost { gap_of (rule_by Video 0 cav_pal) (amid false 7) (spot 10 5) (spot 11 6)
        ≡ Some (gap_made (spot 10 5) (spot 11 6) lost 1 7) }
    ensures held { after_5 by_pictures 15 6 ≡ gap_after_5 15 6 held 3 }
    ensures twice { after_5 by_pictures 13 5 ≡ gap_after_5 13 5 held 3 }
    ensures still { after_5 (rule_by Video 0 cav_pal) 14 5 ≡ gap_after_5 14 5 still 4 }
    ensures back { after_5 by_pictures 12 4 ≡ gap_after_5 12 4 back 0 }
    ensures joined { gap_of by_pictures (amid true 0) (spot 10 5) (spot 99 1) ≡ gap_after_5 99 1 joined 0 }
    ensures both { map (λ k. after_5 (rule_by Video 1 cav) k 6) (11 ∷ 12 ∷ 13 ∷ []) ≡ None ∷ None ∷ None ∷ [] }
    ensures both_lost { after_5 (rule_by Video 1 cav) 11 7 ≡ gap_after_5 11 7 lost 2 }
    ensures film { map (λ k. after_5 by_film k 7) (14 ∷ 15 ∷ 16 ∷ []) ≡ None ∷ None ∷ None ∷ [] }
    ensures film_lost { map (λ n. after_5 by_film (2 * n - 1) n) (6 ∷ 8 ∷ []) ≡ gap_after_5 11 6 lost 1
        ∷ gap_after_5 15 8 lost 2 ∷ [] }
    ensures film_held { after_5 by_film 14 6 ≡ gap_after_5 14 6 held 1 }
    ensures film_cut { map (λ k. after_5 by_film k 7) (12 ∷ 13 ∷ 17 ∷ 18 ∷ []) ≡ gap_after_5 12 7 lost 2
        ∷ gap_after_5 13 7 open_gap 1 ∷ gap_after_5 17 7 open_gap 1 ∷ gap_after_5 18 7 held 2 ∷ [] }
    ensures film_video { map (λ k. after_5 by_film k 10) (19 ∷ 20 ∷ 21 ∷ []) ++ map (λ k. after_5 by_film k 12) (23 ∷ 24
        ∷ 25 ∷ []) ≡ gap_after_5 19 10 lost 3 ∷ gap_after_5 20 10 open_gap 2 ∷ gap_after_5 21 10 open_gap 1
        ∷ gap_after_5 23 12 lost 4 ∷ gap_after_5 24 12 open_gap 3 ∷ gap_after_5 25 12 lost 2 ∷ [] }
    ensures film_back { gap_of by_film unseen (spot 20 10) (spot 24 8)
        ≡ Some (gap_made (spot 20 10) (spot 24 8) back 0 0) }
    ensures stays { map (λ numbering. after_5 (rule_by Video 0 numbering) 14 5) (clv ∷ clv_pal ∷ [])
        ≡ gap_after_5 14 5 held 4 ∷ gap_after_5 14 5 held 4 ∷ [] }
    ensures stays_beside_an_end { map (λ numbering. gap_of (rule_by Video 0 numbering) (amid true 0) (spot 10 5) (spot
        13 5)) (cav ∷ clv ∷ []) ≡ gap_after_5 13 5 held 3 ∷ gap_after_5 13 5 held 3 ∷ [] }
    ensures clock { map (λ n. after_5 by_times 13 n) (7 ∷ []) ++ map (λ n. after_5 by_times 12 n) (7 ∷ 8 ∷ 9 ∷ [])
        ≡ gap_after_5 13 7 lost 1 ∷ gap_after_5 12 7 open_gap 2 ∷ gap_after_5 12 8 open_gap 4 ∷ gap_after_5 12 9 lost 6
        ∷ [] }
    ensures no_clock { map (λ numbering. after_5 (rule_by Video 0 numbering) 12 7) (cav ∷ clv_pal ∷ [])
        ≡ gap_after_5 12 7 lost 2 ∷ gap_after_5 12 7 lost 2 ∷ [] }
    ensures shown { shown_between (field_of 8 2 8 2 ∷ field_of 7 2 7 2 ∷ field_of 8 1 8 2 ∷ field_of 6 2 8 2
        ∷ field_of 5 2 5 2 ∷ field_of 9 2 9 2 ∷ field_of 6 2 6 2 ∷ []) (spot 0 5) (spot 6 9) ≡ 1 }
    ensures numbers { map (lost_of Plain) (gap_made (spot 10 5) (spot 20 100) lost 180 0
        ∷ gap_made (spot 10 5) (spot 20 100) lost 180 6 ∷ gap_made (spot 10 5) (spot 12 7) open_gap 2 0
        ∷ gap_made (spot 10 5) (spot 20 6) held 8 0 ∷ []) ≡ 90 ∷ 88 ∷ 0 ∷ 0 ∷ [] }
    ensures undecided { map (undecided_of Plain) (gap_made (spot 10 5) (spot 20 100) lost 180 0
        ∷ gap_made (spot 10 5) (spot 20 100) lost 180 6 ∷ gap_made (spot 10 5) (spot 12 7) open_gap 2 0
        ∷ gap_made (spot 10 5) (spot 20 6) held 8 0 ∷ []) ≡ 4 ∷ 6 ∷ 1 ∷ 0 ∷ [] }
    ensures stills { (stills_of 0 two_stills ≡ 2) × (last_still 0 two_stills ≡ 21) }
    ensures since { map (since_end (1 ∷ 0 ∷ 2 ∷ 3 ∷ 0 ∷ [])) (0 ∷ 1 ∷ 2 ∷ 3 ∷ 4 ∷ 5 ∷ []) ≡ 0 ∷ 0 ∷ 1 ∷ 2 ∷ 0 ∷ 1 ∷ [] }
    ensures ended { map (ended_between (1 ∷ 0 ∷ 2 ∷ 3 ∷ 0 ∷ []) 0) (1 ∷ 2 ∷ 3 ∷ 4 ∷ []) ≡ false ∷ false ∷ false ∷ true
        ∷ [] }
    ensures still_at_an_end { gap_of by_pictures (amid true 0) (spot 10 5) (spot 14 5) ≡ gap_after_5 14 5 still 4 }
{}

/// Swapped fields, numbers on both fields, and what verdicts go by, worked by hand.
#[tactic(auto, unfolding(vbi_side::specs::Clocks::kept))]
pub fn worked_verdicts()
    ensures off { map (λ k. stands_off (spot 10 5) (spot k 6)) (10 ∷ 11 ∷ 12 ∷ 13 ∷ 14 ∷ []) ≡ false ∷ true ∷ false
        ∷ true ∷ false ∷ [] }
    ensures leads { map (λ k. leads Video (spot 10 5) (spot k 6)) (11 ∷ 12 ∷ 13 ∷ []) ≡ false ∷ true ∷ true ∷ [] }
    ensures film_leads { map (λ k. leads Film (spot 10 5) (spot k 7)) (14 ∷ 15 ∷ 16 ∷ []) ≡ false ∷ true ∷ true ∷ [] }
    ensures stray { map (is_stray Plain [] (spot 10 5) 11) (None ∷ Some (field_of 6 2 0 0) ∷ Some (field_of 0 0 6 2)
        ∷ Some (field_of 6 0 6 1) ∷ Some (field_of 7 2 6 0) ∷ Some (field_of 0 0 0 0) ∷ []) ≡ false ∷ true ∷ true ∷ true
        ∷ false ∷ false ∷ [] }
    ensures beside { map (λ n. is_stray Plain (nothing ∷ believed n ∷ nothing
        ∷ []) (spot 1 5) 2 (Some (field_of 5 2 0 0))) (5 ∷ 4 ∷ []) ≡ false ∷ true ∷ [] }
    ensures beside_next { map (λ n. is_stray Plain (nothing ∷ believed 5 ∷ nothing ∷ believed n
        ∷ []) (spot 1 5) 2 (Some (field_of 0 0 6 2))) (6 ∷ 7 ∷ []) ≡ false ∷ true ∷ [] }
    ensures ends { map (λ outs. map (end_by outs) (0 ∷ 1 ∷ 2 ∷ [])) (0 ∷ 1 ∷ 2 ∷ []) ≡ (0 ∷ 2 ∷ 3 ∷ []) ∷ (2 ∷ 2 ∷ 3
        ∷ []) ∷ (1 ∷ 1 ∷ 1 ∷ []) ∷ [] }
    ensures unseen { map (λ ends. is_end_unseen false ends 0) ((1 ∷ 0 ∷ []) ∷ (0 ∷ 1 ∷ []) ∷ (0 ∷ 3 ∷ []) ∷ (0 ∷ 2 ∷ [])
        ∷ []) ≡ true ∷ false ∷ true ∷ true ∷ [] }
    ensures both { map is_on_both ((believed 1 ∷ believed 1 ∷ believed 2 ∷ nothing ∷ []) ∷ (believed 1 ∷ nothing
        ∷ believed 2 ∷ []) ∷ (believed 1 ∷ nothing ∷ nothing ∷ believed 2 ∷ []) ∷ (doubtful 1 ∷ doubtful 1 ∷ []) ∷ [])
        ≡ true ∷ false ∷ true ∷ false ∷ [] }
    ensures few { map is_on_both ((believed 1 ∷ nothing ∷ believed 2 ∷ nothing ∷ believed 3 ∷ nothing ∷ believed 4
        ∷ believed 5 ∷ []) ∷ (believed 1 ∷ nothing ∷ believed 2 ∷ nothing ∷ believed 3 ∷ nothing ∷ believed 4 ∷ nothing
        ∷ believed 5 ∷ believed 6 ∷ []) ∷ []) ≡ true ∷ false ∷ [] }
    ensures frozen { map is_on_both ((believed 1 ∷ believed 1 ∷ believed 1 ∷ nothing ∷ believed 2 ∷ []) ∷ (believed 1
        ∷ believed 1 ∷ believed 1 ∷ believed 2 ∷ []) ∷ []) ≡ false ∷ true ∷ [] }
    ensures late { map (λ fields. too_few Video fields 5) (7 ∷ 8 ∷ []) ≡ true ∷ false ∷ [] }
    ensures film_late { map (λ fields. too_few Film fields 5) (8 ∷ 9 ∷ []) ≡ true ∷ false ∷ [] }
    ensures first { map (λ m. too_few Video 0 m) (0 ∷ 1 ∷ 2 ∷ []) ≡ false ∷ false ∷ true ∷ [] }
{}

/// A disc with its numbers on both fields, of which the second field of picture 2 is lost: each number is within a
/// field of the one before it, but picture 3 stands two fields too early for the second field of picture 1.
#[tactic(auto, unfolding(vbi_side::specs::Clocks::kept))]
pub fn worked_drift()
    ensures { IsDriftTold (rule_by Video 1 cav) (believed 1 ∷ believed 1 ∷ believed 2 ∷ believed 3 ∷ []) true }
{}

/// A capture that is whole by the definitions, worked by hand: picture 1, its second field, and picture 2, of which the
/// caller says that the capture may end there.
#[tactic(auto, unfolding(vbi_side::specs::Clocks::kept))]
pub fn worked_whole()
    ensures { IsFinding (to_judge by_pictures two_pictures two_answers (0 ∷ 0 ∷ 0 ∷ [])) true (found_whole 0 2) [] [] }
{}

/// The premises of `whole_yes` hold together: of a capture of 25 pictures, each read on both lines, which the
/// definitions say to be whole.
#[tactic(auto, unfolding(vbi_side::specs::Clocks::kept))]
pub fn worked_premises()
    ensures runs { DiscRuns Video video_disc }
    ensures rises { Rises (λ i. i) }
    ensures answers { AreAnswers Video worked_side worked_answers }
    ensures finding { IsFinding (to_judge by_pictures worked_side worked_answers worked_ends) true (found_whole 0 48)
        [] [] }
    ensures few { wrong_weight (captured video_disc (λ i. i)) worked_side 0 < enough }
    ensures low { wrong_weight (captured video_disc (λ i. i)) worked_side 48 < enough }
    ensures far { (found_whole 0 48).first + 2 * reach ≤ (found_whole 0 48).last }
{}
