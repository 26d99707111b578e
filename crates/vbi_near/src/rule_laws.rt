//! Laws of the rule by which words are recovered, as rows written down. A function here does nothing: its contract
//! holds each number of the rule.

ghost use Rattle.std.specs.Prelude.{◌≡◌, ◌∷◌, [], Some, None, map, true, false};
ghost use Rattle.vbi_near.specs.Common.{Word, Blank, Change};
ghost use Rattle.vbi_near.specs.WorkedRules.{as_other, beside, from_none, other_ten_ahead, code_halved_at};
ghost use Rattle.vbi_near.specs.WorkedRules.{other_halved_at, as_given, levelled_as, levelled_codes, worn_by, worn};
ghost use Rattle.vbi_near.specs.WorkedRules.{smoothed_by, smoothed_at, smoothed, read_as, both_at, together_at};
ghost use Rattle.vbi_near.specs.WorkedRules.{code_beside, beyond_at, beyond_beside, code_with, other_with, code_longer};
ghost use Rattle.vbi_near.specs.WorkedRules.{code_ten_ahead, SayUntil, PileSaysUntil, FieldShows, PairShows};
ghost use Rattle.vbi_near.specs.{Margins.levelled_margins, WordRule.said_of, WordRule.unless_beyond};
ghost use Rattle.vbi_near.specs.{Candidates.are_alike_by, PileRule.said_together, Recovery.recovered_of};

/// What a nearest word has to be beside that: close to the nearest word if it is a code, and all there.
pub fn worked_said()
    ensures line { said_of 100 levelled_margins.lone 1 (from_none 12000 (other_with 0xF12345 10499)) ≡ None }
    ensures close { SayUntil levelled_margins.lone 1 (beside 10300) 0xF12345 10985 10984
        × (said_of 100 levelled_margins.lone 1 (beside 10301 19999) ≡ None) }
    ensures code_halved { SayUntil levelled_margins.lone 1 code_halved_at 0xF12345 15225 15224 }
    ensures other_halved { SayUntil levelled_margins.lone 1 other_halved_at 0xF1234A 15000 14999 }
{}

/// Fields written down, NTSC with white 100 above black: which words their lines show, and in which pass.
pub fn worked_fields()
    // The two agree up to 30 columns, or if their words are the same, and then say their word together, whatever
    // each of them says.
    ensures together { PairShows (worn (code_with 0xF12345 10100)) (worn (code_with 0xF12346 12000))
        (together_at 23000 23800) (Some 0xF12345, 3) (Some 0xF12345, 3) }
    ensures same { PairShows (worn (code_with 0xF12345 10100)) (worn (code_with 0xF12345 10100))
        (together_at 31000 31800) (Some 0xF12345, 3) (Some 0xF12345, 3) }
    ensures no_more { PairShows (worn (code_with 0xF12345 10900)) (worn (code_with 0xF12346 12000))
        (together_at 23000 23799) (None, 0) (None, 0) }
    ensures apart { PairShows (worn (code_with 0xF12345 10799)) (worn (code_with 0xF12346 10800))
        (together_at 23001 29999) (None, 0) (Some 0xF12346, 3) }

    // Each of them has to bear the common word: that is nearer to both, by 20 columns, than the word of one line to it
    // and none to the other.
    ensures borne { PairShows (worn (code_with 0xF12345 10100)) (worn (from_none 14000 (code_with 0xF12346 10100)))
        (together_at 22000 29999) (Some 0xF12345, 3) (Some 0xF12345, 3) }
    ensures not_on_17 { PairShows (worn (from_none 13999 (code_with 0xF12345 10100))) (worn (code_with 0xF12346 11000))
        (together_at 22000 29999) (None, 0) (Some 0xF12346, 3) }
    ensures not_on_18 { PairShows (worn (code_with 0xF12345 11000)) (worn (from_none 13999 (code_with 0xF12346 10100)))
        (together_at 22000 29999) (Some 0xF12345, 3) (None, 0) }

    // If each of the two goes on beyond its nearest word, they don't agree; if one does, they may.
    ensures go_on { PairShows (worn (code_longer 9699)) (worn (code_longer 9699)) (together_at 20000 29999) (None, 0)
        (None, 0) }
    ensures goes_on { PairShows (worn (code_longer 9699)) (worn (code_longer 9700)) (together_at 20000 29999)
        (Some 0xF12345, 3) (Some 0xF12345, 3) }

    // Beside a word that stays, a line is alone. A word of pass 2 stays if the line's nearest word says it.
    ensures alone { FieldShows (worn (code_with 0x8AE000 10600)) (read_as (Word 0xF12345) 1)
        (worn (code_with 0xF12346 10600)) (together_at 21000 29999) (Some 0x8AE000, 3) (Some 0xF12345, 1)
        (Some 0xF12346, 3) }
    ensures stays { FieldShows (read_as (Word 0x8DC000) 1) (worn (code_with 0xF12345 10600))
        (smoothed 0xF12346 (code_with 0xF12346 10600)) (together_at 21000 29999) (Some 0x8DC000, 1) (Some 0xF12345, 3)
        (Some 0xF12346, 2) }
    ensures falls { FieldShows (smoothed 0x8DC000 (code_with 0x8DC000 10599)) (worn (code_with 0xF12345 10600))
        (smoothed 0xF12346 (code_with 0xF12346 10599)) (together_at 23000 23800) (None, 0) (Some 0xF12345, 3)
        (Some 0xF12345, 3) }
    ensures cause { recovered_of 100 (smoothed 0x8DC000 (code_with 0x8DC000 10599)) (read_as Blank 0)
        (read_as (Word 0xF12345) 1) (together_at 0 0)
        ≡ record { outcome = Change 34; pass = 0 } ∷ record { outcome = Blank; pass = 0 }
        ∷ record { outcome = Word 0xF12345; pass = 1 } ∷ [] }
{}

/// Levelled lines are asked first, and lines as they are if these say nothing: each line of a field for itself, and
/// lines 17 and 18 together if they agree by what is asked.
pub fn worked_levels()
    // Line 16 says the word of its levelled samples, line 17 that of its own, since the levelled ones have no margin.
    ensures first { FieldShows (worn_by (levelled_codes 0x8AE000 10556 0x8AE001 10600))
        (worn_by (levelled_codes 0xF12345 10555 0xF12346 10600)) (read_as Blank 0) (as_given (both_at 0 0))
        (Some 0x8AE000, 3) (Some 0xF12346, 3) (None, 0) }

    // Lines 17 and 18 agree levelled, or, if they can't be levelled together, as they are.
    ensures together { PairShows (worn_by (levelled_codes 0xF12345 10100 0xF12346 10100))
        (worn_by (levelled_codes 0xF12345 10100 0xF12346 10100))
        (levelled_as (both_at 23000 23800) (both_at 90000 90000)) (Some 0xF12345, 3) (Some 0xF12345, 3) }
    ensures unlike { PairShows (worn_by (levelled_codes 0xF12347 10799 0xF12345 10100))
        (worn_by (levelled_codes 0xF12347 10800 0xF12345 10100)) (as_given (both_at 23000 23800)) (Some 0xF12345, 3)
        (Some 0xF12347, 3) }
    ensures apart { PairShows (worn_by (levelled_codes 0xF12345 10799 0xF12347 10800))
        (worn_by (levelled_codes 0xF12346 10800 0xF12348 10800))
        (levelled_as (both_at 23001 29999) (both_at 23001 29999)) (Some 0xF12347, 3) (Some 0xF12346, 3) }

    // If each of the two goes on beyond its nearest word levelled, they don't agree so; if one does, they may.
    ensures go_on { PairShows (worn_by (levelled_as (code_longer 9799) (code_with 0xF12346 10100)))
        (worn_by (levelled_as (code_longer 9799) (code_with 0xF12346 10100)))
        (levelled_as (both_at 20000 29999) (both_at 90000 90000)) (None, 0) (None, 0) }
    ensures goes_on { PairShows (worn_by (levelled_as (code_longer 9799) (code_with 0xF12346 10100)))
        (worn_by (levelled_as (code_longer 9800) (code_with 0xF12346 10100)))
        (levelled_as (both_at 20000 29999) (both_at 90000 90000)) (Some 0xF12345, 3) (Some 0xF12345, 3) }

    // A word of pass 2 stays if one of both says it first.
    ensures stays { FieldShows (smoothed_by 0x8DC000 (levelled_codes 0x8DC000 10556 0x8DC001 10600))
        (smoothed_by 0xF12345 (levelled_codes 0xF12345 10555 0xF12345 10600)) (read_as (Word 0xF12345) 1)
        (as_given (both_at 0 0)) (Some 0x8DC000, 2) (Some 0xF12345, 2) (Some 0xF12345, 1) }
{}

/// A word of pass 2 that its line doesn't say stays if the line, on somewhat longer or shorter cells, is nearer to
/// it by eight columns than to any other word.
pub fn worked_stretched()
    // Beside another nearest word at 10,000: 9,200 is near enough, 9,201 isn't.
    ensures beside_another { FieldShows (smoothed_at 9200 0x8DC000 (as_given (code_with 0x8AE000 10100)))
        (smoothed_at 9201 0x8DC000 (as_given (code_with 0x8AE000 10100))) (read_as Blank 0) (together_at 0 0)
        (Some 0x8DC000, 2) (None, 0) (None, 0) }

    // If it is the nearest word, its rival counts: at 10,599, too near for a code to be said.
    ensures beside_its_rival { FieldShows (smoothed_at 9799 0x8DC000 (as_given (code_with 0x8DC000 10599)))
        (smoothed_at 9800 0x8DC000 (as_given (code_with 0x8DC000 10599))) (read_as Blank 0) (together_at 0 0)
        (Some 0x8DC000, 2) (None, 0) (None, 0) }

    // Another word may be nearer levelled: the line as it is counts.
    ensures beside_as_it_is { FieldShows (smoothed_at 9200 0x8DC000 (levelled_codes 0x8DC000 10555 0x8AE000 10100))
        (smoothed_at 9201 0x8DC000 (levelled_codes 0x8DC000 10555 0x8AE000 10100)) (read_as Blank 0)
        (as_given (both_at 0 0)) (Some 0x8DC000, 2) (None, 0) (None, 0) }
{}

/// Two lines agree by their words or by their codes, and go on by their words; what several lines say together.
pub fn worked_together()
    ensures by_codes { PairShows (worn (code_beside 0xF1234A 10000 9700 11000 11500))
        (worn (code_beside 0xF1234B 10000 9700 11000 11500))
        (as_given (from_none 60000 (code_beside 0xF1234C 23100 23100 23400 29000))) (Some 0xF12345, 3)
        (Some 0xF12345, 3) }
    ensures words_go_on { PairShows (worn (code_beside 0xF1234A 10000 9699 11000 11500))
        (worn (code_beside 0xF1234B 10000 9699 11000 11500))
        (as_given (from_none 60000 (code_beside 0xF1234C 23100 23100 23400 29000))) (None, 0) (None, 0) }
    ensures levelled_first { said_together 100 true 2 (levelled_codes 0xF12345 11000 0xF12346 11000) ≡ Some 0xF12345 }
    ensures given_next { said_together 100 true 2 (levelled_codes 0xF12345 10399 0xF12346 10400) ≡ Some 0xF12346 }
    ensures known { PileSaysUntil true (code_with 0xF12345) 0xF12345 10400 10399 }
    ensures unknown { PileSaysUntil false (code_with 0xF12345) 0xF12345 10800 10799 }
    ensures other { PileSaysUntil true (other_with 0xF1234A) 0xF1234A 10800 10799 }
    ensures code_share { PileSaysUntil true code_ten_ahead 0xF12345 82300 82301 }
    ensures other_share { PileSaysUntil true other_ten_ahead 0xF1234A 106000 106001 }
    ensures longer { PileSaysUntil true code_longer 0xF12345 9200 9199 }
    ensures alike { map (are_alike_by 100 100) (49 ∷ 50 ∷ 160 ∷ []) ≡ false ∷ true ∷ true ∷ [] }
    ensures alike_least { map (are_alike_by 100 60) (29 ∷ 30 ∷ 120 ∷ 121 ∷ []) ≡ false ∷ true ∷ true ∷ false ∷ [] }
{}

/// No picture number of 80,000 or more is recovered. The word F92345 is nearest here, and ahead of any other word.
pub fn worked_beyond()
    // The words at the limits: picture numbers up to 79,999, a time, and a word with a digit that isn't decimal are
    // recovered.
    ensures limits { map (λ word. unless_beyond (Some word))
        (0xF79999 ∷ 0xF80000 ∷ 0xF92345 ∷ 0xFF9999 ∷ 0xF8DD00 ∷ 0xF9999A ∷ []) ≡ Some 0xF79999 ∷ None ∷ None ∷ None
        ∷ Some 0xF8DD00 ∷ Some 0xF9999A ∷ [] }

    // The code 12345 is recovered beside it, up to 3 columns farther, and nothing if it is farther.
    ensures code { PairShows (worn (beyond_beside 10800 10300 10900)) (read_as (Word 0xF12345) 1) (together_at 0 0)
        (Some 0xF12345, 3) (Some 0xF12345, 1) }
    ensures nothing { PairShows (worn (beyond_beside 10800 10301 19999)) (read_as (Word 0xF12345) 1) (together_at 0 0)
        (None, 0) (Some 0xF12345, 1) }

    // Levelled lines that would say it say nothing, so lines as they are are asked next.
    ensures given_next { PairShows (worn_by (levelled_as (beyond_beside 10800 10301 19999) (code_with 0xF12345 10600)))
        (read_as (Word 0xF12345) 1) (together_at 0 0) (Some 0xF12345, 3) (Some 0xF12345, 1) }

    // Neither do two lines that don't agree, two lines together, or a pile.
    ensures apart { PairShows (worn (beyond_beside 11000 12000 19999)) (worn (code_with 0xF12346 10800))
        (together_at 25001 29999) (None, 0) (Some 0xF12346, 3) }
    ensures together { PairShows (worn (beyond_beside 10800 11001 19999)) (worn (beyond_beside 10800 11001 19999))
        (as_given (as_other (beyond_at 20000 30000))) (None, 0) (None, 0) }
    ensures pile { map (λ known. said_together 100 known 2 (as_given (as_other (beyond_at 20000 30000))))
        (true ∷ false ∷ []) ≡ None ∷ None ∷ [] }

    // As a word of pass 1 it stays, and as one of pass 2 if its line says it.
    ensures stays { PairShows (read_as (Word 0xF92345) 1) (smoothed 0xF92345 (beyond_beside 10800 11001 19999))
        (together_at 0 0) (Some 0xF92345, 1) (Some 0xF92345, 2) }
    ensures falls { PairShows (read_as (Word 0xF92345) 1) (smoothed 0xF92345 (as_other (beyond_at 10000 10799)))
        (together_at 0 0) (Some 0xF92345, 1) (None, 0) }
{}
