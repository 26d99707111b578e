//! Laws of levelled lines, as rows written down. A function here does nothing: its contract holds each number.

ghost use Rattle.std.specs.Prelude.{◌≡◌, ℕ, ◌+◌, ◌∷◌, [], List, length, map, slice_index, true, false};
ghost use Rattle.vbi_near.specs.Common.{System, Ntsc, Pal, width_of, Slicing};
ghost use Rattle.vbi_near.specs.LevelledLines.{window_of, first_of, end_of, window_start, swing_of, is_swing};
ghost use Rattle.vbi_near.specs.LevelledLines.{middle_of, levelled_unit, levelled_slicing, levelled_sample};
ghost use Rattle.vbi_near.specs.LevelledLines.{levelled_each, smoothed, levelled, filled};
ghost use Rattle.vbi_near.specs.WorkedLevels.{slicing_at, wave, raised, climbing};

/// The columns of windows. No window begins before the columns of words, or ends after them.
pub fn worked_windows()
    ensures columns { map window_of (Ntsc ∷ Pal ∷ []) ≡ 172 ∷ 213 ∷ [] }
    ensures first { map first_of (Ntsc ∷ Pal ∷ []) ≡ 143 ∷ 180 ∷ [] }
    ensures end { map end_of (Ntsc ∷ Pal ∷ []) ≡ 844 ∷ 1049 ∷ [] }
    ensures ntsc { map (window_start Ntsc) (0 ∷ 229 ∷ 230 ∷ 757 ∷ 758 ∷ 759 ∷ 909 ∷ [])
        ≡ 143 ∷ 143 ∷ 144 ∷ 671 ∷ 672 ∷ 672 ∷ 672 ∷ [] }
    ensures pal { map (window_start Pal) (0 ∷ 286 ∷ 287 ∷ 941 ∷ 942 ∷ 943 ∷ 1134 ∷ [])
        ≡ 180 ∷ 180 ∷ 181 ∷ 835 ∷ 836 ∷ 836 ∷ 836 ∷ [] }
{}

/// Lines are levelled whose swing is at least 3 and at most 16 tenths of what white is above black.
pub fn worked_swings()
    ensures limits { map (is_swing 100) (29 ∷ 30 ∷ 160 ∷ 161 ∷ []) ≡ false ∷ true ∷ true ∷ false ∷ [] }
    ensures fraction { map (is_swing 101) (30 ∷ 31 ∷ 161 ∷ 162 ∷ []) ≡ false ∷ true ∷ true ∷ false ∷ [] }
{}

/// Black and white of levelled lines, whose middle is that of the range of samples.
pub fn worked_unit()
    ensures white { levelled_slicing.black + levelled_unit ≡ levelled_slicing.white }
    ensures middle { middle_of levelled_slicing ≡ 32768 }
{}

/// Samples, and means of windows, both a thousand times; and samples that are smoothed, or erased.
pub fn worked_samples()
    ensures mean { levelled_sample 1000 7 7 ≡ 32768 }
    ensures white { levelled_sample 1000 500 0 ≡ 40960 }
    ensures black { levelled_sample 1000 0 500 ≡ 24576 }
    ensures above { levelled_sample 1000 1 0 ≡ 32784 }
    ensures below { levelled_sample 1000 0 1 ≡ 32751 }
    ensures most { map (λ own. levelled_sample 1000 own 0) (1999 ∷ 2000 ∷ 5000 ∷ []) ≡ 65519 ∷ 65535 ∷ 65535 ∷ [] }
    ensures least { map (levelled_sample 1000 0) (1999 ∷ 2000 ∷ 5000 ∷ []) ≡ 16 ∷ 0 ∷ 0 ∷ [] }
    ensures smoothed { smoothed (10 ∷ 20 ∷ 40 ∷ 41 ∷ []) ≡ 12 ∷ 22 ∷ 35 ∷ 40 ∷ [] }
    ensures smoothed_alone { smoothed (7 ∷ []) ≡ 7 ∷ [] }
    ensures filled { filled (slicing_at 100 201) (true ∷ false ∷ true ∷ []) (5 ∷ 6 ∷ 7 ∷ []) ≡ 150 ∷ 6 ∷ 150 ∷ [] }
{}

/// Lines whose samples are low and high in turn, for a number of columns each. The levelled samples go from black to
/// white where each window has as many high columns as low ones, and roughly so where it hasn't; smoothed, those beside
/// an edge go three quarters of the way.
pub fn worked_waves()
    ensures swing { swing_of Ntsc (wave Ntsc 43 30000 42000) ≡ 12000 }
    ensures pal_swing { swing_of Pal (wave Pal 18 30000 42000) ≡ 12117 }
    ensures each { levelled_each Ntsc (wave Ntsc 43 30000 42000) ≡ wave Ntsc 43 24576 40960 }
    ensures levelled { map (slice_index (levelled Ntsc (wave Ntsc 43 30000 42000)))
        (0 ∷ 42 ∷ 43 ∷ 44 ∷ 85 ∷ 86 ∷ 909 ∷ []) ≡ 24576 ∷ 28672 ∷ 36864 ∷ 40960 ∷ 36864 ∷ 28672 ∷ 40960 ∷ [] }
    ensures pal_levelled { map (slice_index (levelled Pal (wave Pal 18 30000 42000)))
        (0 ∷ 18 ∷ 300 ∷ 500 ∷ 1100 ∷ 1134 ∷ []) ≡ 24769 ∷ 36938 ∷ 24540 ∷ 40995 ∷ 40766 ∷ 36709 ∷ [] }

    // A level that climbs by a third of the swing in each window leaves little trace, but at the ends of the line.
    ensures climbing { map (slice_index (levelled Ntsc (climbing Ntsc 43 20000 32000 24)))
        (143 ∷ 230 ∷ 280 ∷ 400 ∷ 450 ∷ 500 ∷ 600 ∷ 700 ∷ 843 ∷ [])
        ≡ 38163 ∷ 40984 ∷ 24584 ∷ 40984 ∷ 24584 ∷ 40984 ∷ 40984 ∷ 24584 ∷ 43772 ∷ [] }
{}

/// A line at another level is levelled to the same samples.
pub fn same_at_any_level()
    ensures swing { (system : System) (samples : List ℕ) (level : ℕ) → length samples ≡ width_of system
        → swing_of system (raised level samples) ≡ swing_of system samples }
    ensures levelled { (system : System) (samples : List ℕ) (level : ℕ)
        → length samples ≡ width_of system
        → levelled system (raised level samples) ≡ levelled system samples }
{}
