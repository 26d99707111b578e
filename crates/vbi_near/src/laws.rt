//! Laws of the definitions in `specs/`. A function here does nothing: its contract is a law, which holds of all lines.

ghost use Rattle.std.specs.Prelude.{◌≡◌, ◌≢◌, ◌⊎◌, ℕ, ◌*◌, ◌-◌, ◌≤◌, ◌<◌, Bool, true, false, List, [], ◌∷◌, length};
ghost use Rattle.std.specs.Prelude.{map, replicate, Option, Some, None, ◌↔◌, IsTrue, ◌&&◌, not};
ghost use Rattle.std.specs.List.{All};
ghost use Rattle.vbi_near.specs.Common.{System, Ntsc, Pal, Word, width_of, start_of, Slicing, IsWord, IsWordOrNone};
ghost use Rattle.vbi_near.specs.Common.{IsBetween, differences, drawn_row_of, IsPlace, starts, picture_of, drawn_as};
ghost use Rattle.vbi_near.specs.Common.{Samples, unit_of, most_of, known, known_but, row_distance, distance_of};
ghost use Rattle.vbi_near.specs.{declared.near.Near.Near, LongerSignal.begun_earlier, LongerSignal.ended_later};
ghost use Rattle.vbi_near.specs.{Nearest.IsNearest, Rows.IsNearWord, Rows.IsNearCode, Apart.picture_distance};
ghost use Rattle.vbi_near.specs.{LineCodes.IsOneOf, LineCodes.codes_of, LineCodes.is_beyond_79999};
ghost use Rattle.vbi_near.specs.{declared.recovery.Recovered.Recovered, declared.margins.Margins.Margins};
ghost use Rattle.vbi_near.specs.{declared.near.Nears.Nears, WordRule.said_of, Candidates.Row, Candidates.Lines};
ghost use Rattle.vbi_near.specs.{Candidates.HasNear, Ahead.IsAheadBy, Ahead.IsAheadOn, Ahead.IsAheadOnBoth};
ghost use Rattle.vbi_near.specs.{Recovery.IsRecovered, Recovery.field_line, Recovery.row_at, PileRule.IsSaidTogether};
ghost use Rattle.vbi_words.specs.{Codes.may_stand, Codes.code_of, WorkedLines.changing};

/// If another word than the one answered was recorded, the samples of the lines are off by `rival` or more in sum.
pub fn misread_at_least()
    ensures { (system : System) (slicing : Slicing) (lines : List Samples) (near : Near) (word : Option ℕ) (start : ℕ)
        → IsNearest system slicing lines near → IsPlace system word start → word ≢ near.word
        → near.rival ≤ distance_of (most_of slicing) lines (drawn_as slicing (picture_of system word start)) }
{}

/// If the samples are off by less than `rival` in sum, the word answered is the recorded one.
pub fn right_below_rival()
    ensures { (system : System) (slicing : Slicing) (lines : List Samples) (near : Near) (word : Option ℕ) (start : ℕ)
        → IsNearest system slicing lines near → IsPlace system word start
        → distance_of (most_of slicing) lines (drawn_as slicing (picture_of system word start)) < near.rival
        → word ≡ near.word }
{}

/// Of some lines there is one least distance; and if the rival is farther, one nearest word.
pub fn one_nearest()
    ensures distance { (system : System) (slicing : Slicing) (lines : List Samples) (near other : Near)
        → IsNearest system slicing lines near → IsNearest system slicing lines other → near.distance ≡ other.distance }
    ensures word { (system : System) (slicing : Slicing) (lines : List Samples) (near other : Near)
        → IsNearest system slicing lines near → IsNearest system slicing lines other → near.distance < near.rival
        → other.word ≡ near.word }
{}

/// Of some lines one word is the first of the nearest, from one start on, and so is one code: all that is answered is
/// fixed by the lines.
pub fn one_near()
    ensures word { (system : System) (slicing : Slicing) (lines : List Samples) (near other : Near)
        → IsNearWord system slicing lines near → IsNearWord system slicing lines other → near ≡ other }
    ensures code { (system : System) (line : ℕ) (slicing : Slicing) (lines : List Samples) (near other : Near)
        → IsNearCode system line slicing lines near → IsNearCode system line slicing lines other → near ≡ other }
{}

/// Any lines have such a nearest word, and such a nearest code.
pub fn some_near()
    ensures word { (system : System) (slicing : Slicing) (lines : List Samples)
        → (near : Near) × IsNearWord system slicing lines near }
    ensures code { (system : System) (line : ℕ) (slicing : Slicing) (lines : List Samples)
        → (near : Near) × IsNearCode system line slicing lines near }
{}

/// The table that is searched for codes has the words whose code may stand on the line, by the table of classes, but no
/// picture number of 80,000 or more, and no others.
pub fn codes_stand()
    ensures { (system : System) (line word : ℕ) → 16 ≤ line → line ≤ 18 → IsWord word
        → (IsOneOf (codes_of system line) word
        ↔ IsTrue (may_stand system line (code_of word) && not (is_beyond_79999 word))) }
{}

/// Three rows, some columns of which may be erased, show one thing: what their lines are taken to show is fixed by the
/// bytes, the erased columns and the levels of black and white.
pub fn one_recovered()
    ensures { (system : System) (slicing : Slicing) (rows : List ℕ) (erased : List Bool)
        (recovered other : List Recovered) → IsRecovered system slicing rows erased recovered
        → IsRecovered system slicing rows erased other → recovered ≡ other }
{}

/// Any three rows show something, whichever of their columns are erased.
pub fn some_recovered()
    ensures { (system : System) (slicing : Slicing) (rows : List ℕ) (erased : List Bool)
        → (recovered : List Recovered) × IsRecovered system slicing rows erased recovered }
{}

/// If lines say a word by their samples, and another code that may stand on them was recorded, the samples are off from
/// a row of that code, wherever it begins, by a margin more than from one of the word said: by that of a code, or by
/// that of any other word.
pub fn recovered_costs()
    ensures lines { (lines : Lines) (margins : Margins) (count : ℕ) (near : Nears) (word : ℕ) → HasNear lines near
        → said_of (unit_of lines.slicing) margins count near ≡ Some word → IsAheadBy lines margins word }

    // Lines levelled or as they are: of one line by 4 columns at least, of two together by 5.
    ensures first { (system : System) (slicing : Slicing) (rows : List ℕ) (erased : List Bool)
        (second third : Recovered) (word : ℕ) → IsRecovered system slicing rows erased
        (record { outcome = Word word; pass = 3 } ∷ second ∷ third ∷ [])
        → IsAheadOn (field_line system slicing rows erased 0) 4 word }
    ensures second { (system : System) (slicing : Slicing) (rows : List ℕ) (erased : List Bool)
        (first third : Recovered) (word : ℕ) → IsRecovered system slicing rows erased
        (first ∷ record { outcome = Word word; pass = 3 } ∷ third ∷ [])
        → IsAheadOn (field_line system slicing rows erased 1) 4 word
        ⊎ IsAheadOnBoth (field_line system slicing rows erased 1) (row_at system rows erased 2) 5 word }
    ensures third { (system : System) (slicing : Slicing) (rows : List ℕ) (erased : List Bool)
        (first second : Recovered) (word : ℕ) → IsRecovered system slicing rows erased
        (first ∷ second ∷ record { outcome = Word word; pass = 3 } ∷ [])
        → IsAheadOn (field_line system slicing rows erased 2) 4 word
        ⊎ IsAheadOnBoth (field_line system slicing rows erased 1) (row_at system rows erased 2) 5 word }
{}

/// Recovery says no picture number of 80,000 or more: no line of a field shows one in pass 3, and no pile of lines says
/// one.
pub fn never_beyond_79999()
    ensures field { (system : System) (slicing : Slicing) (rows : List ℕ) (erased : List Bool)
        (recovered : List Recovered) → IsRecovered system slicing rows erased recovered
        → All (λ line. (word : ℕ) → line ≡ record { outcome = Word word; pass = 3 }
        → IsBetween 0xF80000 0xFF9999 word → ⊥) recovered }
    ensures pile { (system : System) (number : ℕ) (slicing : Slicing) (known : Bool) (rows : List Row) (word : ℕ)
        → IsSaidTogether system number slicing known rows (Some word) → IsBetween 0xF80000 0xFF9999 word → ⊥ }
{}

/// Pictures of different words, or of a word and of none, are apart, wherever they begin.
pub fn pictures_apart()
    ensures { (system : System) (one other : Option ℕ) (s t : ℕ) → IsPlace system one s → IsPlace system other t
        → one ≢ other
        → picture_distance system ≤ differences (picture_of system one s) (picture_of system other t) }
{}

/// Drawn rows of different words, or of a word and of none, are apart: their samples are off from one another by the
/// columns of `pictures_apart` times the most that a sample counts.
pub fn rows_apart()
    ensures { (system : System) (slicing : Slicing) (one other : Option ℕ) (s t : ℕ) → IsPlace system one s
        → IsPlace system other t → one ≢ other → picture_distance system * most_of slicing
        ≤ row_distance (most_of slicing) (known (drawn_as slicing (picture_of system one s)))
        (drawn_as slicing (picture_of system other t)) }
{}

/// If the samples are off by so little, the word answered is the recorded one, wherever it begins: in each line, at
/// the mean, by less than 14 (NTSC) or 17.5 (PAL) times the most that a sample counts.
pub fn few_misread()
    ensures { (system : System) (slicing : Slicing) (lines : List (List ℕ)) (near : Near) (word : Option ℕ) (start : ℕ)
        → All (λ line. length line ≡ width_of system) lines → IsNearest system slicing (map known lines) near
        → IsPlace system word start
        → 2 * distance_of (most_of slicing) (map known lines) (drawn_as slicing (picture_of system word start))
        < length lines * (picture_distance system * most_of slicing)
        → near.word ≡ word }
{}

/// Of lines that are all the drawn row of a word, or of none, this word is the nearest one, from its start on and at
/// the distance 0; any other is as far as `rows_apart` says.
pub fn drawn_is_nearest()
    ensures { (system : System) (slicing : Slicing) (lines : List (List ℕ)) (near : Near) (word : Option ℕ) (start : ℕ)
        → slicing.black < slicing.white → 0 < length lines
        → All (λ line. line ≡ drawn_as slicing (picture_of system word start)) lines
        → IsNearest system slicing (map known lines) near → IsPlace system word start
        → (near.word ≡ word) × (near.start ≡ start) × (near.distance ≡ 0)
        × (length lines * (picture_distance system * most_of slicing) ≤ near.rival) }
{}

/// From the system's own start on, the drawn row is the one that `draw_line` draws.
pub fn drawn_at_start()
    ensures { (system : System) (slicing : Slicing) (word : Option ℕ) → IsWordOrNone word
        → drawn_as slicing (picture_of system word (start_of system)) ≡ drawn_row_of system slicing word }
{}

/// Rows that are written down by hand, each by the columns at which its level changes, and its width: a picture stop
/// from the last start on, a time from the first one on, 24 ones with a one before them, and 24 ones with a zero after
/// them. Two rows that are no farther apart than `pictures_apart` says. The most that a sample counts, and the
/// distances of a few samples.
pub fn worked_near()
    ensures last_start { picture_of Ntsc (Some 0x82CFFF) 223 ≡ changing false 0 (
        237 ∷ 265 ∷ 280 ∷ 294 ∷ 308 ∷ 323 ∷ 337 ∷ 351 ∷ 366 ∷ 380 ∷ 409 ∷ 437 ∷ 466 ∷ 480 ∷ 495 ∷ 523 ∷ 538 ∷ 552
        ∷ 580 ∷ 595 ∷ 609 ∷ 623 ∷ 638 ∷ 652 ∷ 666 ∷ 681 ∷ 695 ∷ 709 ∷ 724 ∷ 738 ∷ 752 ∷ 767 ∷ 781 ∷ 795 ∷ 810 ∷ 824
        ∷ 838 ∷ 853 ∷ 867 ∷ 881 ∷ 895 ∷ 910 ∷ []) }
    ensures first_start { picture_of Pal (Some 0x8AE012) 0 ≡ changing false 0 (
        17 ∷ 53 ∷ 70 ∷ 88 ∷ 106 ∷ 124 ∷ 159 ∷ 195 ∷ 230 ∷ 266 ∷ 301 ∷ 319 ∷ 336 ∷ 354 ∷ 372 ∷ 407 ∷ 425 ∷ 443 ∷ 461
        ∷ 478 ∷ 496 ∷ 514 ∷ 532 ∷ 549 ∷ 567 ∷ 585 ∷ 602 ∷ 620 ∷ 638 ∷ 656 ∷ 691 ∷ 727 ∷ 744 ∷ 762 ∷ 798 ∷ 833
        ∷ 1135 ∷ []) }
    ensures begun_earlier { begun_earlier Ntsc 0xFFFFFF 28 true ≡ changing false 0 (
        14 ∷ 28 ∷ 42 ∷ 56 ∷ 70 ∷ 85 ∷ 99 ∷ 113 ∷ 128 ∷ 142 ∷ 156 ∷ 171 ∷ 185 ∷ 199 ∷ 214 ∷ 228 ∷ 242 ∷ 257 ∷ 271
        ∷ 285 ∷ 300 ∷ 314 ∷ 328 ∷ 343 ∷ 357 ∷ 371 ∷ 385 ∷ 400 ∷ 414 ∷ 428 ∷ 443 ∷ 457 ∷ 471 ∷ 486 ∷ 500 ∷ 514 ∷ 529
        ∷ 543 ∷ 557 ∷ 572 ∷ 586 ∷ 600 ∷ 615 ∷ 629 ∷ 643 ∷ 658 ∷ 672 ∷ 686 ∷ 700 ∷ 715 ∷ 910 ∷ []) }
    ensures ended_later { ended_later Pal 0xFFFFFF 0 false ≡ changing false 0 (
        17 ∷ 35 ∷ 53 ∷ 70 ∷ 88 ∷ 106 ∷ 124 ∷ 141 ∷ 159 ∷ 177 ∷ 195 ∷ 212 ∷ 230 ∷ 248 ∷ 266 ∷ 283 ∷ 301 ∷ 319 ∷ 336
        ∷ 354 ∷ 372 ∷ 390 ∷ 407 ∷ 425 ∷ 443 ∷ 461 ∷ 478 ∷ 496 ∷ 514 ∷ 532 ∷ 549 ∷ 567 ∷ 585 ∷ 602 ∷ 620 ∷ 638 ∷ 656
        ∷ 673 ∷ 691 ∷ 709 ∷ 727 ∷ 744 ∷ 762 ∷ 780 ∷ 798 ∷ 815 ∷ 833 ∷ 868 ∷ 1135 ∷ []) }
    ensures none { picture_of Pal None 0 ≡ replicate 1135 false }
    ensures starts { (starts Ntsc ≡ 224) × (starts Pal ≡ 285) }
    ensures apart { (differences (picture_of Ntsc (Some 0x800000) 223) (picture_of Ntsc (Some 0xA00000) 223) ≡ 28)
        × (differences (picture_of Pal (Some 0x800000) 0) (picture_of Pal (Some 0xC00000) 0) ≡ 35) }
    ensures most { most_of (record { black = 16384; white = 51200 }) ≡ 24372 }
    ensures samples { drawn_as (record { black = 16384; white = 51200 }) (false ∷ true ∷ true ∷ [])
        ≡ 16384 ∷ 51200 ∷ 51200 ∷ [] }
    ensures distance { distance_of 34816 (map known ((16384 ∷ 51000 ∷ 60000 ∷ []) ∷ (16000 ∷ 51200 ∷ 65535 ∷ []) ∷ []))
        (16384 ∷ 51200 ∷ 51200 ∷ []) ≡ 23719 }
    ensures erased { distance_of 34816 (known_but (false ∷ true ∷ false ∷ []) (16384 ∷ 51000 ∷ 60000 ∷ []) ∷ [])
        (16384 ∷ 51200 ∷ 51200 ∷ []) ≡ 8800 }
    ensures at_most { distance_of 34816 (map known ((16384 ∷ 0 ∷ 16385 ∷ []) ∷ (65535 ∷ 51200 ∷ 16383 ∷ []) ∷ []))
        (16384 ∷ 51200 ∷ 51200 ∷ []) ≡ 139263 }
{}
