//! Laws of rows: each function here has an empty body, and its contract is a theorem.

ghost use Rattle.std.specs.Prelude.{◌≡◌, ◌≢◌, ◌↔◌, ℕ, ◌+◌, ◌*◌, ◌%◌, ◌≤◌, List, [], ◌∷◌, map};
ghost use Rattle.vbi_story.specs.declared.rows.Playing.TheVariants.{Video, SecondField, FilmEarly, FilmLate, Still};
ghost use Rattle.vbi_story.specs.declared.rows.Playing.TheVariants.{ThirdBegin, ThirdMiddle, ThirdEnd, Twice, Thrice};
ghost use Rattle.vbi_story.specs.declared.rows.Playing.TheVariants.{Back, BackTwice, BackThrice};
ghost use Rattle.vbi_story.specs.Rows.{row_of};

/// On video two numbers stand on one row exactly if they are two fields a number apart, at a speed exactly if they are
/// whole pictures apart and go by so fast, and of a still if they are equal and whole pictures apart.
pub fn one_row()
    ensures video { (last big i m k n : ℕ) → m ≤ big → n ≤ big
        → (row_of Video last big i m ≡ row_of Video last big k n) ↔ (k + 2 * m ≡ i + 2 * n) }
    ensures second { (last big i n : ℕ) → row_of SecondField last big (i + 1) n ≡ row_of Video last big i n }
    ensures twice { (last big i m k n : ℕ) → i ≤ last → k ≤ last
        → (row_of Twice last big i m ≡ row_of Twice last big k n) ↔ ((i % 2 ≡ k % 2) × (k + m ≡ i + n)) }
    ensures thrice { (last big i m k n : ℕ) → i ≤ last → k ≤ last
        → (row_of Thrice last big i m ≡ row_of Thrice last big k n) ↔ (3 * k + 2 * m ≡ 3 * i + 2 * n) }
    ensures still { (last big i m k n : ℕ)
        → (row_of Still last big i m ≡ row_of Still last big k n) ↔ ((m ≡ n) × (i % 2 ≡ k % 2)) }
{}

/// Rows written down by hand, on a side of the fields 0 to 100 whose numbers go up to 40: of video and its second
/// field; of four pictures of film; of a number's three pictures; and of numbers that rise or fall by two and by three.
pub fn worked_rows()
    ensures video { row_of Video 100 40 10 5 ∷ row_of Video 100 40 12 6 ∷ row_of Video 100 40 13 6 ∷ []
        ≡ 81 ∷ 81 ∷ 82 ∷ [] }
    ensures second { row_of SecondField 100 40 11 5 ∷ row_of SecondField 100 40 13 6 ∷ [] ≡ 81 ∷ 81 ∷ [] }
    ensures film_early { row_of FilmEarly 100 40 0 0 ∷ row_of FilmEarly 100 40 2 1 ∷ row_of FilmEarly 100 40 5 2
        ∷ row_of FilmEarly 100 40 7 3 ∷ row_of FilmEarly 100 40 8 3 ∷ [] ≡ 120 ∷ 120 ∷ 120 ∷ 120 ∷ 121 ∷ [] }
    ensures film_late { row_of FilmLate 100 40 0 0 ∷ row_of FilmLate 100 40 3 1 ∷ row_of FilmLate 100 40 5 2
        ∷ row_of FilmLate 100 40 8 3 ∷ row_of FilmLate 100 40 7 3 ∷ [] ≡ 120 ∷ 120 ∷ 120 ∷ 120 ∷ 119 ∷ [] }
    ensures third { row_of ThirdBegin 100 40 6 10 ∷ row_of ThirdMiddle 100 40 8 10 ∷ row_of ThirdEnd 100 40 10 10
        ∷ row_of ThirdBegin 100 40 12 11 ∷ [] ≡ 190 ∷ 190 ∷ 190 ∷ 190 ∷ [] }
    ensures twice { row_of Twice 100 40 10 5 ∷ row_of Twice 100 40 12 7 ∷ row_of Twice 100 40 13 8 ∷ []
        ≡ 190 ∷ 190 ∷ 191 ∷ [] }
    ensures thrice { row_of Thrice 100 40 10 5 ∷ row_of Thrice 100 40 12 8 ∷ row_of Thrice 100 40 13 8 ∷ []
        ≡ 280 ∷ 280 ∷ 277 ∷ [] }
    ensures back { row_of Back 100 40 10 5 ∷ row_of Back 100 40 12 4 ∷ row_of Back 100 40 13 4 ∷ []
        ≡ 20 ∷ 20 ∷ 21 ∷ [] }
    ensures back_twice { row_of BackTwice 100 40 10 5 ∷ row_of BackTwice 100 40 12 3 ∷ row_of BackTwice 100 40 11 4 ∷ []
        ≡ 30 ∷ 30 ∷ 31 ∷ [] }
    ensures back_thrice { row_of BackThrice 100 40 10 5 ∷ row_of BackThrice 100 40 12 2 ∷ [] ≡ 40 ∷ 40 ∷ [] }
    ensures still { row_of Still 100 40 10 5 ∷ row_of Still 100 40 12 5 ∷ row_of Still 100 40 13 5 ∷ []
        ≡ 10 ∷ 10 ∷ 11 ∷ [] }
{}
