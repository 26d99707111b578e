//! What the numbers of a search are, which rows are read, and which fields tell what, written down by hand. A function
//! here does nothing: its contract holds each of them.

ghost use Rattle.std.specs.Prelude.{◌≡◌, ◌≤◌, ℕ, List, [], ◌∷◌, map, take, drop, None};
ghost use Rattle.vbi_words.specs.declared.system.System.TheVariants.{Ntsc, Pal};
ghost use Rattle.vbi_side.specs.Worked.{field_of};
ghost use Rattle.vbi_seek.specs.NumberSearch.{probe_most, probe_longest, probed_most, around_most, Numbers, IsSought};
ghost use Rattle.vbi_seek.specs.Worked.{video_ending, film_ending, far_ending, second_on_18};
ghost use Rattle.vbi_seek.specs.{declared.number_search.Sought.Sought, declared.search.Seek.Seek};
ghost use Rattle.vbi_seek.specs.{FieldLines.code_bytes, FieldLines.field_in, NumberSearch.IsSoughtIn};
ghost use Rattle.vbi_seek.specs.{NumberSpots.IsTold, NumberSpots.TellsIn, NumberSpots.middle_of};

/// How many fields a search looks at, the middles of a side's quarters, and what is answered if none is found.
pub fn worked_searches()
    ensures reads { (probe_most ≡ 12) × (probe_longest ≡ 144) × (probed_most ≡ 812) × (around_most ≡ 188) }
    ensures middles { map (middle_of 1000 4) (0 ∷ 1 ∷ 2 ∷ 3 ∷ []) ≡ 125 ∷ 375 ∷ 625 ∷ 875 ∷ [] }
    ensures looked { (seek : Seek) (bytes : List ℕ) (number : ℕ) (sought : Sought)
        → IsSought seek bytes number sought → sought.looked ≤ 1000 }
    ensures unfound { (numbers : Numbers) (number : ℕ) (sought : Sought)
        → IsSoughtIn numbers number sought → sought.field ≡ numbers.side.count
        → (sought.number ≡ record { number = 0; state = 0 }) × (sought.pace ≡ None) }
{}

/// Which numbers fields tell together: what supports one has to weigh 6, at either pace, or what all fields show at
/// that of video. So one field alone tells none, and fields tell no number that none of them shows.
pub fn worked_telling()
    ensures video { IsTold (video_ending 2) 0 5 × (IsTold (video_ending 1) 0 5 → ⊥) }
    ensures film { IsTold (film_ending 2) 0 5 × (IsTold (film_ending 1) 0 5 → ⊥) }
    ensures far { IsTold (far_ending 2) 0 5 × (IsTold (far_ending 1) 0 5 → ⊥) }
    ensures alone { IsTold (field_of 5 2 5 2 ∷ []) 0 5 → ⊥ }
    ensures shown { TellsIn second_on_18 5 × TellsIn second_on_18 6 }
    ensures unshown { TellsIn second_on_18 7 → ⊥ }
{}

/// The rows of a field that are lines 16 to 18, and the place of a field in a side.
pub fn worked_fields()
    ensures rows_ntsc { (field : List ℕ) → code_bytes Ntsc field ≡ take 5460 (drop 27300 field) }
    ensures rows_pal { (field : List ℕ) → code_bytes Pal field ≡ take 6810 (drop 34050 field) }
    ensures fields_ntsc { (side : List ℕ) → field_in Ntsc side 2 ≡ take 478660 (drop 957320 side) }
    ensures fields_pal { (side : List ℕ) → field_in Pal side 2 ≡ take 710510 (drop 1421020 side) }
{}
