//! Laws of numbers that are set aside. A function here does nothing: its contract is a law.
//!
//! What is set aside was believed, and stands in a run between two neighbouring gaps that replaces others; all other
//! answers are as they were, so what is left of the believed ones was believed (`aside_is`). No run that is to be set
//! aside is left out (`aside_all`). The function `worked_aside` has rows written down by hand.

ghost use Rattle.std.specs.Prelude.{◌≡◌, ℕ, ◌≤◌, true, false, List, [], ◌∷◌, Some, None, length, slice_get, map};
ghost use Rattle.vbi_whole.specs.AsideNumbers.{is_in_row, numbers_in, run_before, is_aside, AreLeft, IsAsideAt};
ghost use Rattle.vbi_whole.specs.{Types.Number, Types.Video, Types.Film, Types.Gap, Types.Rule};
ghost use Rattle.vbi_whole.specs.{AsideNumbers.shown_by_turns, AsideNumbers.run_of, Gaps.rule_by, WorkedSides.by_film};
ghost use Rattle.vbi_whole.specs.{WorkedSides.by_pictures, WorkedSides.cav};
ghost use Rattle.vbi_side.specs.{Numbers.doubtful, Numbers.IsMarked, Paces.spot};

/// What is set aside is in doubt and was believed, in a field of a run between two neighbouring gaps that replaces
/// others. Any other answer is as it was. So a number that is left believed was believed.
pub fn aside_is()
    ensures sound { (rule : Rule) (gaps : List Gap) (numbers left : List Number) (i n : ℕ)
        → AreLeft rule gaps numbers left → IsMarked left i n → IsMarked numbers i n }
    ensures in_doubt { (rule : Rule) (gaps : List Gap) (numbers left : List Number) (i n : ℕ)
        → AreLeft rule gaps numbers left → IsMarked numbers i n → is_aside rule gaps numbers i (length gaps) ≡ true
        → slice_get left i ≡ Some (doubtful n) }
    ensures others { (rule : Rule) (gaps : List Gap) (numbers left : List Number) (i : ℕ) (answer : Number)
        → AreLeft rule gaps numbers left → slice_get numbers i ≡ Some answer
        → is_aside rule gaps numbers i (length gaps) ≡ false → slice_get left i ≡ Some answer }
    ensures runs { (rule : Rule) (gaps : List Gap) (numbers : List Number) (i k : ℕ)
        → is_aside rule gaps numbers i k ≡ true
        → (j : ℕ) × (run : IsAsideAt rule gaps numbers j) × (run.a.before ≤ i) × (i ≤ run.b.after) }
{}

/// Each field of a run that is to be set aside is. Gaps are taken in pairs, from the first one of a kind on.
pub fn aside_all()
    ensures { (rule : Rule) (gaps : List Gap) (numbers : List Number) (i j : ℕ) → run_before gaps j ≡ None
        → (run : IsAsideAt rule gaps numbers j) → run.a.before ≤ i → i ≤ run.b.after
        → is_aside rule gaps numbers i (length gaps) ≡ true }
{}

/// Worked by hand: which numbers are in the row of number 1 in field 0, of video, with numbers on both fields, and of
/// film; how many numbers are due in so many fields; pictures 41 and 42 in place of 3 and 4, of which each field from 4
/// to 6 is set aside; the same among as few others; pictures 5 to 8 in place of 3 to 6; a number that stays; and gaps
/// of another kind.
pub fn worked_aside()
    ensures rows { map (λ n. is_in_row by_pictures (spot 0 1) (spot 4 n)) (2 ∷ 3 ∷ 4 ∷ []) ≡ false ∷ true ∷ false ∷ [] }
    ensures both_rows { map (λ k. is_in_row (rule_by Video 1 cav) (spot 0 1) (spot k 3)) (2 ∷ 3 ∷ 4 ∷ 5 ∷ 6 ∷ [])
        ≡ false ∷ true ∷ true ∷ true ∷ false ∷ [] }
    ensures film_rows { map (λ k. is_in_row by_film (spot 0 1) (spot k 3)) (2 ∷ 3 ∷ 5 ∷ 7 ∷ 8 ∷ []) ≡ false ∷ true
        ∷ true ∷ true ∷ false ∷ [] }
    ensures due { map (numbers_in Video) (1 ∷ 2 ∷ 3 ∷ 4 ∷ []) ≡ 0 ∷ 1 ∷ 1 ∷ 2 ∷ [] }
    ensures film_due { map (numbers_in Film) (1 ∷ 2 ∷ 4 ∷ 5 ∷ 7 ∷ []) ≡ 0 ∷ 1 ∷ 1 ∷ 2 ∷ 3 ∷ [] }
    ensures aside { map (λ i. is_aside by_pictures (run_of (spot 2 2) (spot 4 41) (spot 6 42) (spot 8 5))
        (shown_by_turns (1 ∷ 2 ∷ 41 ∷ 42 ∷ 5 ∷ [])) i 2) (3 ∷ 4 ∷ 5 ∷ 6 ∷ 7 ∷ []) ≡ false ∷ true ∷ true ∷ true ∷ false
        ∷ [] }
    ensures as_heavy { is_aside by_pictures (run_of (spot 0 1) (spot 2 41) (spot 4 42) (spot 6 4)) (shown_by_turns (1
        ∷ 41 ∷ 42 ∷ 4 ∷ [])) 2 2 ≡ false }
    ensures few_skipped { is_aside by_pictures (run_of (spot 2 2) (spot 4 5) (spot 10 8) (spot 12 7)) (shown_by_turns (1
        ∷ 2 ∷ 5 ∷ 6 ∷ 7 ∷ 8 ∷ 7 ∷ 8 ∷ 9 ∷ [])) 4 2 ≡ false }
    ensures stays { is_aside by_pictures (run_of (spot 2 2) (spot 4 2) (spot 4 2) (spot 6 4)) (shown_by_turns (1 ∷ 2 ∷ 2
        ∷ 4 ∷ [])) 4 2 ≡ false }
{}
