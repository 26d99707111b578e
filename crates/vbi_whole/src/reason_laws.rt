//! Laws of the verdict's reasons, worked by hand. A function here does nothing: its contract holds rows of numbers,
//! each law those of few definitions, so that a definition turned together with its code is refused by one of them.

ghost use Rattle.std.specs.Prelude.{◌≡◌, ◌≢◌, ◌+◌, ◌-◌, ◌<◌, ◌≤◌, ℕ, Bool, true, false, List, [], ◌∷◌, ◌++◌, map};
ghost use Rattle.std.specs.Prelude.{replicate, slice_get, Some};
ghost use Rattle.vbi_whole.specs.Types.{Plain, Shown, Number, Gap, Rule, Finding, Yes, No, CannotTell};
ghost use Rattle.vbi_whole.specs.Gaps.{lost, held, back, still, joined, open_gap, inserted, gap_made, since_end};
ghost use Rattle.vbi_whole.specs.Verdicts.{no_reason, verdict_of, reasons_of, is_begin_unseen, lead_out_follows};
ghost use Rattle.vbi_whole.specs.Verdicts.{are_doubtful, padded_in, HasNone, IsFinding};
ghost use Rattle.vbi_whole.specs.{BlankFields.IsBlank, BlankFields.IsBlankTo, Gaps.GoesOn, Gaps.to_judge, Gaps.Judged};
ghost use Rattle.vbi_whole.specs.{Tallies.tally_of, WorkedSides.one_number, WorkedSides.found_at};
ghost use Rattle.vbi_whole.specs.{WorkedSides.by_pictures};
ghost use Rattle.vbi_side.specs.{Ends.no_end, Ends.lead_out, Ends.lead_in, Ends.padding, Ends.end_of, Numbers.believed};
ghost use Rattle.vbi_side.specs.{Numbers.doubtful, Paces.spot};

/// What each reason is found by, alone.
#[tactic(auto, unfolding(vbi_side::specs::Clocks::kept, crate::specs::Gaps::since_end))]
pub fn worked_reasons()
    ensures seen { map (λ kind. reasons_of (one_number []) true
        (found_at (gap_made (spot 10 5) (spot 12 8) kind 4 0 ∷ []) 0)) (lost ∷ held ∷ back ∷ joined ∷ [])
        ≡ record no_reason { is_lost = true } ∷ record no_reason { is_held = true }
        ∷ record no_reason { goes_back = true } ∷ record no_reason { is_joined = true } ∷ [] }
    ensures late { reasons_of (one_number (0 ∷ [])) true
        (record (found_at [] 1) { first = spot 1 3; last = spot 1 3 }) ≡ record no_reason { begins_late = true } }
    ensures swapped { reasons_of (one_number []) true (record (found_at [] 0)
        { swap = record { field = 0; is_seen = true } }) ≡ record no_reason { is_swapped = true } }
    ensures drifts { reasons_of (one_number []) true (record (found_at [] 0) { drifts = true })
        ≡ record no_reason { is_off = true } }
    ensures off { reasons_of (one_number []) true (found_at [] 2) ≡ record no_reason { is_off = true } }
    ensures stood { reasons_of (one_number []) true (found_at (gap_made (spot 0 1) (spot 2 1) still 2 0 ∷ []) 2)
        ≡ no_reason }
    ensures left_open { reasons_of (one_number []) true
        (found_at (gap_made (spot 0 1) (spot 2 1) open_gap 2 0 ∷ []) 2) ≡ record no_reason { is_open = true } }
    ensures away { reasons_of (one_number []) true
        (found_at (gap_made (spot 0 1) (spot 2 1) inserted 2 0 ∷ []) 2) ≡ record no_reason { is_inserted = true } }
    ensures padded { reasons_of (one_number (4 ∷ [])) true (found_at [] 0) ≡ record no_reason { is_padded = true } }
    ensures dark { reasons_of (one_number []) true (record (found_at [] 0) { blank = 7 })
        ≡ record no_reason { is_blank = true } }
    ensures end { reasons_of (one_number []) false (found_at [] 0) ≡ record no_reason { end_unseen = true } }
    ensures begin { reasons_of (to_judge by_pictures [] (believed 2 ∷ []) (replicate 101 0)) true
        (record (found_at [] 0) { first = spot 101 2; last = spot 101 2 })
        ≡ record no_reason { begin_unseen = true } }
    ensures doubted { reasons_of (to_judge by_pictures [] (believed 1 ∷ doubtful 1 ∷ []) []) true (found_at [] 0)
        ≡ record no_reason { many_doubtful = true } }
{}

/// Which reasons leave which verdict: those that are seen on the capture `No`, whatever else there is.
pub fn worked_seen_reasons()
    ensures yes { verdict_of no_reason ≡ Yes }
    ensures no { map verdict_of (record no_reason { is_lost = true } ∷ record no_reason { is_held = true }
        ∷ record no_reason { goes_back = true } ∷ record no_reason { is_joined = true }
        ∷ record no_reason { begins_late = true } ∷ record no_reason { is_swapped = true }
        ∷ record no_reason { is_inserted = true } ∷ record no_reason { is_padded = true } ∷ []) ≡ replicate 8 No }
    ensures cannot_tell { map verdict_of (record no_reason { is_off = true } ∷ record no_reason { no_numbers = true }
        ∷ record no_reason { end_unseen = true } ∷ record no_reason { begin_unseen = true }
        ∷ record no_reason { many_doubtful = true } ∷ record no_reason { is_open = true }
        ∷ record no_reason { is_blank = true } ∷ []) ≡ replicate 7 CannotTell }
    ensures both { map verdict_of (record no_reason { is_lost = true; end_unseen = true }
        ∷ record no_reason { is_inserted = true; is_open = true }
        ∷ record no_reason { is_padded = true; is_open = true }
        ∷ record no_reason { is_inserted = true; is_blank = true }
        ∷ record no_reason { is_padded = true; is_blank = true } ∷ []) ≡ replicate 5 No }
    ensures many { map verdict_of (record no_reason { is_open = true; is_blank = true } ∷ record no_reason {
      is_off = true;
      no_numbers = true;
      end_unseen = true;
      begin_unseen = true;
      many_doubtful = true;
      is_open = true;
    }
        ∷ []) ≡ replicate 2 CannotTell }
{}

/// A capture with a field that is padding is never called whole. If a number is believed, it is called not whole, and
/// it is told how many fields are padding. What lines show never says so: the caller does.
pub fn padding_is_told()
    ensures never { (judged : Judged) (may_end : Bool) (finding : Finding) (old new : List Gap)
        → IsFinding judged may_end finding old new
        → (i : ℕ) → slice_get judged.ends i ≡ Some padding → finding.verdict ≢ Yes }
    ensures verdict { (judged : Judged) (may_end : Bool) (finding : Finding) (old new : List Gap)
        → IsFinding judged may_end finding old new → (HasNone judged.numbers → ⊥)
        → (i : ℕ) → slice_get judged.ends i ≡ Some padding → finding.verdict ≡ No }
    ensures never_read { (line_17 line_18 : Shown) → end_of line_17 line_18 < padding }
{}

/// A capture with over a hundred fields in a row without a believed number, between two that go on, is never called
/// whole.
pub fn blank_is_told()
    ensures never { (judged : Judged) (may_end : Bool) (finding : Finding) (old new : List Gap)
        → IsFinding judged may_end finding old new → (i : ℕ) → IsBlank judged.rule judged.numbers i
        → finding.verdict ≢ Yes }
    ensures limit { (rule : Rule) (answers : List Number) (i m n : ℕ)
        → GoesOn rule answers (spot i m) (spot (i + 102) n) → IsBlank rule answers i }
    ensures fewer { (rule : Rule) (answers : List Number) (i k : ℕ) → IsBlankTo rule answers i k → 101 ≤ k - i - 1 }
{}

/// Padding is no end of a side, and each field of it counts.
#[tactic(auto, unfolding(crate::specs::Gaps::since_end))]
pub fn worked_padding()
    ensures since { since_end (lead_in ∷ padding ∷ no_end ∷ []) 3 ≡ 2 }
    ensures follows { map (λ ends. lead_out_follows ends 0) ((no_end ∷ padding ∷ []) ∷ (padding ∷ lead_out ∷ []) ∷ [])
        ≡ false ∷ true ∷ [] }
    ensures count { padded_in (padding ∷ lead_in ∷ padding ∷ no_end ∷ lead_out ∷ []) ≡ 2 }
{}

/// A begin is unseen from 101 fields on, and many numbers are doubtful from a tenth on.
#[tactic(auto, unfolding(crate::specs::Gaps::since_end))]
pub fn worked_limits()
    ensures begin { map (λ n. is_begin_unseen (replicate n 0) (spot n 2)) (100 ∷ 101 ∷ []) ≡ false ∷ true ∷ [] }
    ensures doubtful { map are_doubtful ((replicate 9 (believed 1) ++ doubtful 1 ∷ [])
        ∷ (replicate 10 (believed 1) ++ doubtful 1 ∷ []) ∷ []) ≡ true ∷ false ∷ [] }
{}

/// What a tally counts of a gap: its fields.
pub fn worked_tallies()
    ensures lost_fields { (tally_of Plain (gap_made (spot 10 5) (spot 12 8) lost 4 0 ∷ []) 0).lost ≡ 4 }
    ensures held_fields { (tally_of Plain (gap_made (spot 10 5) (spot 15 6) held 3 0 ∷ []) 0).held ≡ 3 }
{}
