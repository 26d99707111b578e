//! Laws of the definitions in `specs/`. A function here does nothing: its contract is a law, which holds of every
//! system, every list of levels, every word and every black and white.
//!
//! First come the laws of one line: it shows at most one word (`one_word`), how long its runs may get (`run_limit`),
//! what is drawn for a word and read from that (`one_drawn_row`, `drawn_shows`), what early, late and blurred changes
//! of level and glitches leave of it (`jitter_shown`, `blur_read`, `glitches_read`), how far apart two words are
//! (`words_apart`), and what smoothing keeps (`one_smooth`, `smooth_keeps`, `glitch_gone`). Then come those of codes
//! and formats. The rows of `worked_..` pin numbers, tables and orders: no proof sees a definition that is wrong, so
//! they were written down by hand from IEC 60857 and IEC 60856, and never from what the code answers. A number of
//! specs/Geometry.antt, Codes.antt or Formats.antt changes only with its rows here and in the crates of tests.

ghost use Rattle.std.specs.Prelude.{◌≡◌, ℕ, suc, ◌≤◌, ◌<◌, ◌+◌, ◌-◌, List, Bool, true, false};
ghost use Rattle.std.specs.Prelude.{[], ◌∷◌, ◌++◌, replicate, length, map, Option, Some, None};
ghost use Rattle.std.specs.List.{All, flat_map, range_with_len};
ghost use Rattle.vbi_words.specs.declared.system.System.{System};
ghost use Rattle.vbi_words.specs.declared.system.System.TheVariants.{Ntsc, Pal};
ghost use Rattle.vbi_words.specs.declared.outcome.Outcome.TheVariants.{Word, Unfinished, Change, Hold};
ghost use Rattle.vbi_words.specs.Levels.{Slicing, is_high_of, levels_of, level_at, samples_of, row_levels};
ghost use Rattle.vbi_words.specs.Words.{IsWord, IsWordOrNone};
ghost use Rattle.vbi_words.specs.Shows.{Shows, ShowsNone, Viable};
ghost use Rattle.vbi_words.specs.Outcomes.{AllLow, IsOutcome, EndsOtherwise, HasRunLimit};
ghost use Rattle.vbi_words.specs.Smooth.{IsSmooth, smooth_of, Glitch};
ghost use Rattle.vbi_words.specs.Readings.{IsReading};
ghost use Rattle.vbi_words.specs.Drawn.{IsDrawnRow, is_drawn_high, drawn_row_of, drawn_line_of, drawn_reading};
ghost use Rattle.vbi_words.specs.Geometry.{line_bytes};
ghost use Rattle.vbi_words.specs.Jitter.{ShowsAmply, IsBlurred, IsJittered, NoneAlone, ReadsWord, HasGlitches};
ghost use Rattle.vbi_words.specs.Jitter.{differences, least_distance};
ghost use Rattle.vbi_words.specs.declared.code.Code.{Code};
ghost use Rattle.vbi_words.specs.declared.code.Code.TheVariants.{Picture, Chapter, Time, ClvPicture, CxOn, CxOff};
ghost use Rattle.vbi_words.specs.declared.code.Code.TheVariants.{Users, LeadIn, LeadOut, PictureStop, ClvMark, Other};
ghost use Rattle.vbi_words.specs.declared.format.Format.{Format};
ghost use Rattle.vbi_words.specs.declared.format.Format.TheVariants.{Cav, Clv, Both, Neither};
ghost use Rattle.vbi_words.specs.Codes.{IsCode, may_stand, code_of};
ghost use Rattle.vbi_words.specs.Formats.{IsFormat, format_of_lines};
ghost use Rattle.vbi_words.specs.WorkedLines.{low, high, ones_ending, zeros_after, little_row, changing, of_three};

/// A list of levels shows at most one word.
pub fn one_word()
    ensures { (system : System) (levels : List Bool) (v w : ℕ)
        → Shows system levels v → Shows system levels w → v ≡ w }
{}

/// A run of equal levels, once begun, may become as long as one half cell, or as two, or of any length, before no list
/// that begins so shows a word.
pub fn run_limit()
    ensures { (system : System) (levels : List Bool) (v : Bool)
        → EndsOtherwise levels v → Viable system (levels ++ v ∷ []) → HasRunLimit system levels v }
{}

/// A word, or none, has exactly one drawn row: white in the columns of its high half cells, black in all others. The
/// bytes drawn are the samples of that row.
pub fn one_drawn_row()
    ensures is { (system : System) (slicing : Slicing) (word : Option ℕ)
        → IsDrawnRow system slicing word (drawn_row_of system slicing word) }
    ensures only { (system : System) (slicing : Slicing) (word : Option ℕ) (samples : List ℕ)
        → IsDrawnRow system slicing word samples → samples ≡ drawn_row_of system slicing word }
    ensures bytes { (system : System) (slicing : Slicing) (word : Option ℕ)
        → (length (drawn_line_of system slicing word) ≡ line_bytes system)
        × (samples_of (drawn_line_of system slicing word) ≡ drawn_row_of system slicing word) }
{}

/// The row drawn for a word shows the word; the row drawn for none has no high level. So the bytes drawn are read as
/// the word in the first pass, or as blank.
pub fn drawn_shows()
    ensures word { (system : System) (slicing : Slicing) (word : ℕ)
        → slicing.black < slicing.white → IsWord word
        → Shows system (levels_of slicing (drawn_row_of system slicing (Some word))) word }
    ensures none { (system : System) (slicing : Slicing)
        → slicing.black < slicing.white → AllLow (levels_of slicing (drawn_row_of system slicing None)) }
    ensures reading { (system : System) (slicing : Slicing) (word : Option ℕ)
        → slicing.black < slicing.white → IsWordOrNone word
        → IsReading system (row_levels slicing (drawn_line_of system slicing word)) (drawn_reading word) }
{}

/// A list whose changes of level lie in their columns, or one before or after, still shows its word: this holds of
/// every list that shows a word with two columns to spare in each half cell, and the row drawn for a word is one.
pub fn jitter_shown()
    ensures any { (system : System) (drawn levels : List Bool) (word : ℕ)
        → ShowsAmply system drawn word → IsJittered drawn levels → Shows system levels word }
    ensures drawn { (system : System) (slicing : Slicing) (word : ℕ) (levels : List Bool)
        → slicing.black < slicing.white → IsWord word
        → IsJittered (levels_of slicing (drawn_row_of system slicing (Some word))) levels → Shows system levels word }
{}

/// If the two columns beside each change of level in such a list, the last before it and the first after it, have
/// any levels, and all others are as they were, the reading is still its word: in the first pass exactly if no
/// column stands alone, else in the second.
pub fn blur_read()
    ensures any { (system : System) (drawn levels : List Bool) (word : ℕ)
        → ShowsAmply system drawn word → IsBlurred drawn levels → ReadsWord system levels word }
    ensures drawn { (system : System) (slicing : Slicing) (word : ℕ) (levels : List Bool)
        → slicing.black < slicing.white → IsWord word
        → IsBlurred (levels_of slicing (drawn_row_of system slicing (Some word))) levels
        → ReadsWord system levels word }
{}

/// If such a blurred list has one glitch or more besides, of up to three columns each and with four equal columns on
/// either side, the reading is still its word, in the second pass. A glitch with five columns on either side that were
/// drawn at one level has four equal ones, whatever the blur.
pub fn glitches_read()
    ensures any { (system : System) (drawn blurred levels : List Bool) (word n : ℕ)
        → ShowsAmply system drawn word → IsBlurred drawn blurred → HasGlitches (suc n) blurred levels
        → IsReading system levels (record { outcome = Word word; pass = 2 }) }
    ensures drawn { (system : System) (slicing : Slicing) (word n : ℕ) (blurred levels : List Bool)
        → slicing.black < slicing.white → IsWord word
        → IsBlurred (levels_of slicing (drawn_row_of system slicing (Some word))) blurred
        → HasGlitches (suc n) blurred levels
        → IsReading system levels (record { outcome = Word word; pass = 2 }) }
    ensures away { (drawn blurred : List Bool) (g m c : ℕ) → IsBlurred drawn blurred → 5 ≤ g
        → ((b : ℕ) → g ≤ b + 5 → b < g + m + 5 → level_at drawn b ≡ level_at drawn g)
        → g ≤ c + 4 → c < g + m + 4 → level_at blurred c ≡ level_at blurred g }
{}

/// Two lists of one length that show different words differ in 4 columns at least (NTSC), or 6 (PAL). So fewer columns
/// turned over, wherever they are, never make another word of one in the first pass. The second pass guards against
/// less.
pub fn words_apart()
    ensures { (system : System) (levels others : List Bool) (v w : ℕ)
        → Shows system levels v → Shows system others w → length levels ≡ length others
        → differences levels others < least_distance system → v ≡ w }
{}

/// A list of levels has exactly one list of smoothed levels.
pub fn one_smooth()
    ensures is { (levels : List Bool) → IsSmooth levels (smooth_of levels) }
    ensures only { (levels smoothed : List Bool) → IsSmooth levels smoothed → smoothed ≡ smooth_of levels }
{}

/// A word that the levels show, with three lows or more after it, is also shown by the smoothed levels, three columns
/// later.
pub fn smooth_keeps()
    ensures { (system : System) (levels : List Bool) (word : ℕ) (cut : Shows system levels word) → 3 ≤ cut.after
        → (smooth_of levels ≡ replicate (cut.before + 3) false ++ (cut.drawn ++ replicate (cut.after - 3) false))
        × Shows system (smooth_of levels) word }
{}

/// One to three columns turned over in such a list, with four equal columns on each side, leave no trace in the
/// smoothed levels: the turned list shows no word, and its reading is the word with pass 2.
pub fn glitch_gone()
    ensures { (system : System) (levels turned : List Bool) (word : ℕ) (cut : Shows system levels word)
        → 3 ≤ cut.after → Glitch levels turned
        → (smooth_of turned ≡ smooth_of levels) × ShowsNone system turned
        × IsReading system turned (record { outcome = Word word; pass = 2 }) }
{}

/// A word has exactly one code: no two patterns of the table have a word in common.
pub fn one_code()
    ensures is { (word : ℕ) → IsCode word (code_of word) }
    ensures only { (word : ℕ) (code : Code) → IsCode word code → code ≡ code_of word }
{}

/// A field has exactly one format.
pub fn one_format()
    ensures is { (lines : List (Option ℕ)) → IsFormat lines (format_of_lines lines) }
    ensures only { (lines : List (Option ℕ)) (format : Format)
        → IsFormat lines format → format ≡ format_of_lines lines }
{}

/// The outcomes of five lines, computed from the definitions alone.
pub fn worked_lines()
    // 20 high columns are more than one half cell and fewer than two, so the change after them is hopeless.
    ensures change { IsOutcome Ntsc (low 14 ++ (high 20 ++ low 876)) (Change 34) }

    // The low run after the first cell is one half cell, of 18 columns at most: the 19th is hopeless.
    ensures hold { IsOutcome Ntsc (low 14 ++ (high 14 ++ low 882)) (Hold 46) }

    // The high run is two half cells, and so may be the low run after it, of 36 columns at most: the 37th is hopeless.
    ensures long { IsOutcome Ntsc (low 14 ++ (high 22 ++ low 874)) (Hold 72) }

    // The last 10 columns are high, and a longer line could still show a word.
    ensures unfinished { IsOutcome Ntsc (low 900 ++ high 10) Unfinished }

    // 24 ones, each half cell of the fewest columns.
    ensures word { IsOutcome Ntsc
        (flat_map (λ (cell : Bool). low 11 ++ high 11) (replicate 24 true) ++ low 382) (Word 16777215) }
{}

/// The fewest and the most columns of a half cell and of two, by lines with one run of so many, or of one less or more:
/// a line with 10 columns shows no word of NTSC, and one with 13 none of PAL.
pub fn worked_runs()
    ensures ntsc_single { IsOutcome Ntsc (ones_ending 11 10) (Change 527)
        × IsOutcome Ntsc (ones_ending 11 11) (Word 16777215)
        × IsOutcome Ntsc (ones_ending 11 18) (Word 16777215)
        × IsOutcome Ntsc (ones_ending 11 19) (Hold 535) }
    ensures ntsc_double { IsOutcome Ntsc (zeros_after 11 21) (Change 32)
        × IsOutcome Ntsc (zeros_after 11 22) (Word 8388608)
        × IsOutcome Ntsc (zeros_after 11 36) (Word 8388608)
        × IsOutcome Ntsc (zeros_after 11 37) (Hold 47) }
    ensures pal_single { IsOutcome Pal (ones_ending 14 13) (Change 671)
        × IsOutcome Pal (ones_ending 14 14) (Word 16777215)
        × IsOutcome Pal (ones_ending 14 22) (Word 16777215)
        × IsOutcome Pal (ones_ending 14 23) (Hold 680) }
    ensures pal_double { IsOutcome Pal (zeros_after 14 27) (Change 41)
        × IsOutcome Pal (zeros_after 14 28) (Word 8388608)
        × IsOutcome Pal (zeros_after 14 44) (Word 8388608)
        × IsOutcome Pal (zeros_after 14 45) (Hold 58) }
{}

/// A row whose first change of level lies a column early, one that is blurred there so that columns stand alone, one
/// whose change lies two columns late and so isn't blurred, a glitch of three columns, four that are none, and a line
/// that shows its word without columns to spare: computed on a few columns.
pub fn worked_tolerance()
    ensures jittered { IsJittered little_row (low 1 ++ (high 4 ++ low 2)) }
    ensures alone { IsBlurred little_row (low 1 ++ (high 1 ++ (low 1 ++ (high 2 ++ low 2))))
        × (NoneAlone (low 1 ++ (high 1 ++ (low 1 ++ (high 2 ++ low 2)))) → ⊥) }
    ensures late { IsBlurred little_row (low 4 ++ (high 1 ++ low 2)) → ⊥ }
    ensures glitch { HasGlitches 1 (low 11) (low 4 ++ (high 3 ++ low 4)) }
    ensures no_glitch { HasGlitches 1 (low 11) (low 4 ++ (high 4 ++ low 3)) → ⊥ }

    // 24 ones, each half cell of 11 columns, and five lows.
    ensures not_amply { ShowsAmply Ntsc
        (flat_map (λ (cell : Bool). low 11 ++ high 11) (replicate 24 true) ++ low 5) 16777215 → ⊥ }
{}

/// The codes of a dozen words of each class, written down by hand from the table of codes: the ends of each pattern,
/// some words within it, and some that miss it by one digit. NTSC and PAL have one table.
#[tactic(auto, unfolding(crate::specs::Codes::code_of))]
pub fn worked_codes()
    ensures single { map code_of (0x88FFFF ∷ 0x80EEEE ∷ 0x82CFFF ∷ 0x87FFFF ∷ [])
        ≡ LeadIn ∷ LeadOut ∷ PictureStop ∷ ClvMark ∷ [] }
    ensures pictures { map code_of (
        0xF00000 ∷ 0xF00001 ∷ 0xF00010 ∷ 0xF00100 ∷ 0xF01000 ∷ 0xF10000 ∷ 0xF12345 ∷ 0xF54321 ∷ 0xF79999 ∷ 0xF80000
        ∷ 0xF92345 ∷ 0xFA0000 ∷ 0xFF9999 ∷ [])
        ≡ map Picture (0 ∷ 1 ∷ 10 ∷ 100 ∷ 1000 ∷ 10000 ∷ 12345 ∷ 54321 ∷ 79999 ∷ 0 ∷ 12345 ∷ 20000 ∷ 79999 ∷ []) }
    ensures chapters { map code_of (
        0x800DDD ∷ 0x801DDD ∷ 0x809DDD ∷ 0x810DDD ∷ 0x812DDD ∷ 0x835DDD ∷ 0x879DDD ∷ 0x880DDD ∷ 0x887DDD ∷ 0x894DDD
        ∷ 0x8A3DDD ∷ 0x8F9DDD ∷ [])
        ≡ map Chapter (0 ∷ 1 ∷ 9 ∷ 10 ∷ 12 ∷ 35 ∷ 79 ∷ 0 ∷ 7 ∷ 14 ∷ 23 ∷ 79 ∷ []) }
    ensures times { map code_of (
        0xF0DD00 ∷ 0xF0DD09 ∷ 0xF0DD59 ∷ 0xF0DD60 ∷ 0xF0DD99 ∷ 0xF1DD23 ∷ 0xF2DD34 ∷ 0xF3DD10 ∷ 0xF5DD45 ∷ 0xF8DD07
        ∷ 0xF9DD59 ∷ 0xF9DD99 ∷ [])
        ≡ Time 0 0 ∷ Time 0 9 ∷ Time 0 59 ∷ Time 0 60 ∷ Time 0 99 ∷ Time 1 23 ∷ Time 2 34 ∷ Time 3 10 ∷ Time 5 45
        ∷ Time 8 7 ∷ Time 9 59 ∷ Time 9 99 ∷ [] }
    ensures clv_pictures { map code_of (
        0x8AE000 ∷ 0x8AE001 ∷ 0x8AE010 ∷ 0x8AE029 ∷ 0x8AE712 ∷ 0x8AE999 ∷ 0x8BE000 ∷ 0x8BE124 ∷ 0x8CE225 ∷ 0x8DE329
        ∷ 0x8EE424 ∷ 0x8FE525 ∷ 0x8FE999 ∷ [])
        ≡ ClvPicture 0 0 ∷ ClvPicture 0 1 ∷ ClvPicture 0 10 ∷ ClvPicture 0 29 ∷ ClvPicture 7 12 ∷ ClvPicture 9 99
        ∷ ClvPicture 10 0 ∷ ClvPicture 11 24 ∷ ClvPicture 22 25 ∷ ClvPicture 33 29 ∷ ClvPicture 44 24 ∷ ClvPicture 55 25
        ∷ ClvPicture 59 99 ∷ [] }
    ensures cx_on { map code_of (
        0x8DC000 ∷ 0x8DC001 ∷ 0x8DC010 ∷ 0x8DC0A1 ∷ 0x8DC100 ∷ 0x8DC123 ∷ 0x8DC7FF ∷ 0x8DC800 ∷ 0x8DCABC ∷ 0x8DCDDD
        ∷ 0x8DCEEE ∷ 0x8DCFFF ∷ [])
        ≡ map CxOn (0 ∷ 1 ∷ 0x10 ∷ 0xA1 ∷ 0x100 ∷ 0x123 ∷ 0x7FF ∷ 0x800 ∷ 0xABC ∷ 0xDDD ∷ 0xEEE ∷ 0xFFF ∷ []) }
    ensures cx_off { map code_of (
        0x8BA000 ∷ 0x8BA001 ∷ 0x8BA010 ∷ 0x8BA0A1 ∷ 0x8BA100 ∷ 0x8BA123 ∷ 0x8BA7FF ∷ 0x8BA800 ∷ 0x8BAABC ∷ 0x8BADDD
        ∷ 0x8BAEEE ∷ 0x8BAFFF ∷ [])
        ≡ map CxOff (0 ∷ 1 ∷ 0x10 ∷ 0xA1 ∷ 0x100 ∷ 0x123 ∷ 0x7FF ∷ 0x800 ∷ 0xABC ∷ 0xDDD ∷ 0xEEE ∷ 0xFFF ∷ []) }
    ensures users { map code_of (
        0x80D000 ∷ 0x80D001 ∷ 0x80DDDD ∷ 0x80DEEE ∷ 0x81D010 ∷ 0x82DFFF ∷ 0x83D0A1 ∷ 0x84D123 ∷ 0x85DABC ∷ 0x86D800
        ∷ 0x87DDDD ∷ 0x87DFFF ∷ [])
        ≡ Users 0 0x000 ∷ Users 0 0x001 ∷ Users 0 0xDDD ∷ Users 0 0xEEE ∷ Users 1 0x010 ∷ Users 2 0xFFF ∷ Users 3 0x0A1
        ∷ Users 4 0x123 ∷ Users 5 0xABC ∷ Users 6 0x800 ∷ Users 7 0xDDD ∷ Users 7 0xFFF ∷ [] }
    ensures no_mark { map code_of (
        0x88FFFE ∷ 0x88EFFF ∷ 0x89FFFF ∷ 0x80EEED ∷ 0x80EEEF ∷ 0x80EEDE ∷ 0x81EEEE ∷ 0x82CFFE ∷ 0x82BFFF ∷ 0x83CFFF
        ∷ 0x86FFFF ∷ 0x87FFFE ∷ 0x87EFFF ∷ []) ≡ replicate 13 Other }
    ensures no_number { map code_of (
        0xE12345 ∷ 0xF1A345 ∷ 0xF12A45 ∷ 0xF123A5 ∷ 0xF1234A ∷ 0xFFFFFF ∷ 0x80ADDD ∷ 0x800CDD ∷ 0x800DDC ∷ 0x800DDE
        ∷ 0x800EDD ∷ 0x900DDD ∷ 0xFADD00 ∷ 0xF0CD00 ∷ 0xF0DE00 ∷ 0xF0DDA0 ∷ 0xF0DD0A ∷ []) ≡ replicate 17 Other }
    ensures no_status { map code_of (
        0x89E000 ∷ 0x8AEA00 ∷ 0x8AE0A0 ∷ 0x8AE00A ∷ 0x8AF000 ∷ 0x9AE000 ∷ 0x8CC000 ∷ 0x8DB000 ∷ 0x8DD000 ∷ 0x8EC000
        ∷ 0x8AA000 ∷ 0x8BB000 ∷ 0x8CA000 ∷ 0x88D000 ∷ 0x88DFFF ∷ 0x80C000 ∷ 0x80E000 ∷ 0x90D000 ∷ [])
        ≡ replicate 18 Other }
{}

/// On which lines a code may stand, row by row.
pub fn worked_standing()
    ensures picture { All (λ line. may_stand Ntsc line (Picture 79999) ≡ true) (17 ∷ 18 ∷ []) }
    ensures not_picture { All (λ line. may_stand Pal line (Picture 1) ≡ false) (15 ∷ 16 ∷ 19 ∷ []) }
    ensures chapter { All (λ line. may_stand Pal line (Chapter 79) ≡ true) (17 ∷ 18 ∷ []) }
    ensures not_chapter { All (λ line. may_stand Ntsc line (Chapter 0) ≡ false) (15 ∷ 16 ∷ 19 ∷ []) }
    ensures lead_in { All (λ line. may_stand Ntsc line LeadIn ≡ true) (17 ∷ 18 ∷ []) }
    ensures not_lead_in { All (λ line. may_stand Ntsc line LeadIn ≡ false) (15 ∷ 16 ∷ 19 ∷ []) }
    ensures lead_out { All (λ line. may_stand Pal line LeadOut ≡ true) (17 ∷ 18 ∷ []) }
    ensures not_lead_out { All (λ line. may_stand Pal line LeadOut ≡ false) (15 ∷ 16 ∷ 19 ∷ []) }
    ensures mark { All (λ line. may_stand Pal line ClvMark ≡ true) (17 ∷ 18 ∷ []) }
    ensures not_mark { All (λ line. may_stand Pal line ClvMark ≡ false) (15 ∷ 16 ∷ 19 ∷ []) }
    ensures time { All (λ line. may_stand Ntsc line (Time 9 59) ≡ true) (17 ∷ 18 ∷ []) }
    ensures not_time { All (λ line. may_stand Ntsc line (Time 0 0) ≡ false) (15 ∷ 16 ∷ 19 ∷ []) }
    ensures late_time { All (λ line. may_stand Pal line (Time 0 60) ≡ false) (16 ∷ 17 ∷ 18 ∷ []) }
    ensures stop { All (λ line. may_stand Ntsc line PictureStop ≡ true) (16 ∷ 17 ∷ 18 ∷ []) }
    ensures not_stop { All (λ line. may_stand Ntsc line PictureStop ≡ false) (15 ∷ 19 ∷ []) }
    ensures clv_picture { (may_stand Ntsc 16 (ClvPicture 59 29) ≡ true) × (may_stand Pal 16 (ClvPicture 0 24) ≡ true) }
    ensures late_picture { (may_stand Ntsc 16 (ClvPicture 0 30) ≡ false)
        × (may_stand Pal 16 (ClvPicture 0 25) ≡ false) }
    ensures not_clv_picture { All (λ line. may_stand Pal line (ClvPicture 0 0) ≡ false) (15 ∷ 17 ∷ 18 ∷ 19 ∷ []) }
    ensures status { All (λ code. may_stand Ntsc 16 code ≡ true) (CxOn 10 ∷ CxOff 4095 ∷ Users 7 0 ∷ []) }
    ensures not_status { All (λ line. All (λ code. may_stand Pal line code ≡ false)
        (CxOn 10 ∷ CxOff 4095 ∷ Users 7 0 ∷ [])) (15 ∷ 17 ∷ 18 ∷ 19 ∷ []) }
    ensures other { All (λ line. may_stand Pal line Other ≡ false) (16 ∷ 17 ∷ 18 ∷ []) }
{}

/// The formats of fields by the words of their lines 16, 17 and 18, written down by hand; 0 stands for no word.
#[tactic(auto, unfolding(crate::specs::Codes::code_of, crate::specs::Formats::format_of_lines))]
pub fn worked_formats()
    ensures cav { map format_of_lines (
        of_three 0x82CFFF 0xF12345 0xF12345 ∷ of_three 0xF00000 0 0 ∷ of_three 0 0xF79999 0 ∷ of_three 0 0 0xF80000
        ∷ of_three 0x82CFFF 0 0 ∷ of_three 0 0x82CFFF 0 ∷ of_three 0 0 0x82CFFF ∷ of_three 0x88FFFF 0xF12345 0x80EEEE
        ∷ of_three 0x800DDD 0xFF9999 0x80D000 ∷ of_three 0x8DC0A1 0x8BA0A1 0x82CFFF ∷ []) ≡ replicate 10 Cav }
    ensures clv { map format_of_lines (
        of_three 0x8AE712 0xF0DD59 0xF0DD59 ∷ of_three 0x87FFFF 0 0 ∷ of_three 0 0x87FFFF 0 ∷ of_three 0 0 0x87FFFF
        ∷ of_three 0xF0DD00 0 0 ∷ of_three 0 0xF9DD99 0 ∷ of_three 0 0 0x8AE000 ∷ of_three 0x88FFFF 0x87FFFF 0x80EEEE
        ∷ of_three 0x800DDD 0x8FE999 0x80D000 ∷ of_three 0x8DC0A1 0x8BA0A1 0xF1DD23 ∷ []) ≡ replicate 10 Clv }
    ensures both { map format_of_lines (
        of_three 0x82CFFF 0x87FFFF 0 ∷ of_three 0xF12345 0 0xF0DD00 ∷ of_three 0 0x8AE712 0xF12345
        ∷ of_three 0x87FFFF 0x82CFFF 0xF12A45 ∷ of_three 0x8FE999 0xFF9999 0x88FFFF
        ∷ of_three 0xF9DD99 0xF00000 0xF00000 ∷ []) ≡ replicate 6 Both }
    ensures neither { map format_of_lines (
        of_three 0 0 0 ∷ of_three 0x88FFFF 0x88FFFF 0x88FFFF ∷ of_three 0x80EEEE 0x80EEEE 0x80EEEE
        ∷ of_three 0x800DDD 0x8F9DDD 0 ∷ of_three 0x8DC000 0x8BAFFF 0 ∷ of_three 0x80D000 0 0x87DFFF
        ∷ of_three 0xF12A45 0xFFFFFF 0x800000 ∷ []) ≡ replicate 7 Neither }
{}

/// The columns in which words are drawn, worked out by hand from the length of a half cell. Each list has the columns
/// at which the level changes, and the width of a line. The level of 24 ones changes at the end of every half cell.
#[tactic(auto, unfolding(crate::specs::Drawn::is_drawn_high, crate::specs::Words::lowest_bits))]
pub fn worked_columns()
    ensures ntsc_ones { map (is_drawn_high Ntsc 0xFFFFFF) (range_with_len 0 910) ≡ changing false 0 (
        164 ∷ 178 ∷ 192 ∷ 207 ∷ 221 ∷ 235 ∷ 250 ∷ 264 ∷ 278 ∷ 293 ∷ 307 ∷ 321 ∷ 336 ∷ 350 ∷ 364 ∷ 379 ∷ 393 ∷ 407 ∷ 422
        ∷ 436 ∷ 450 ∷ 465 ∷ 479 ∷ 493 ∷ 507 ∷ 522 ∷ 536 ∷ 550 ∷ 565 ∷ 579 ∷ 593 ∷ 608 ∷ 622 ∷ 636 ∷ 651 ∷ 665 ∷ 679
        ∷ 694 ∷ 708 ∷ 722 ∷ 737 ∷ 751 ∷ 765 ∷ 780 ∷ 794 ∷ 808 ∷ 822 ∷ 837 ∷ 910 ∷ []) }
    ensures ntsc_stop { map (is_drawn_high Ntsc 0x82CFFF) (range_with_len 0 910) ≡ changing false 0 (
        164 ∷ 192 ∷ 207 ∷ 221 ∷ 235 ∷ 250 ∷ 264 ∷ 278 ∷ 293 ∷ 307 ∷ 336 ∷ 364 ∷ 393 ∷ 407 ∷ 422 ∷ 450 ∷ 465 ∷ 479 ∷ 507
        ∷ 522 ∷ 536 ∷ 550 ∷ 565 ∷ 579 ∷ 593 ∷ 608 ∷ 622 ∷ 636 ∷ 651 ∷ 665 ∷ 679 ∷ 694 ∷ 708 ∷ 722 ∷ 737 ∷ 751 ∷ 765
        ∷ 780 ∷ 794 ∷ 808 ∷ 822 ∷ 837 ∷ 910 ∷ []) }
    ensures pal_ones { map (is_drawn_high Pal 0xFFFFFF) (range_with_len 0 1135) ≡ changing false 0 (
        207 ∷ 225 ∷ 243 ∷ 260 ∷ 278 ∷ 296 ∷ 314 ∷ 331 ∷ 349 ∷ 367 ∷ 385 ∷ 402 ∷ 420 ∷ 438 ∷ 456 ∷ 473 ∷ 491 ∷ 509 ∷ 526
        ∷ 544 ∷ 562 ∷ 580 ∷ 597 ∷ 615 ∷ 633 ∷ 651 ∷ 668 ∷ 686 ∷ 704 ∷ 722 ∷ 739 ∷ 757 ∷ 775 ∷ 792 ∷ 810 ∷ 828 ∷ 846
        ∷ 863 ∷ 881 ∷ 899 ∷ 917 ∷ 934 ∷ 952 ∷ 970 ∷ 988 ∷ 1005 ∷ 1023 ∷ 1041 ∷ 1135 ∷ []) }
    ensures pal_time { map (is_drawn_high Pal 0x8AE012) (range_with_len 0 1135) ≡ changing false 0 (
        207 ∷ 243 ∷ 260 ∷ 278 ∷ 296 ∷ 314 ∷ 349 ∷ 385 ∷ 420 ∷ 456 ∷ 491 ∷ 509 ∷ 526 ∷ 544 ∷ 562 ∷ 597 ∷ 615 ∷ 633 ∷ 651
        ∷ 668 ∷ 686 ∷ 704 ∷ 722 ∷ 739 ∷ 757 ∷ 775 ∷ 792 ∷ 810 ∷ 828 ∷ 846 ∷ 881 ∷ 917 ∷ 934 ∷ 952 ∷ 988 ∷ 1023
        ∷ 1135 ∷ []) }
{}

/// A sample midway between black and white is low, and the next one above is high. A sample's low byte comes first.
pub fn worked_samples()
    ensures ntsc { map (is_high_of (record { black = 16384; white = 51200 })) (0 ∷ 33791 ∷ 33792 ∷ 33793 ∷ 65535 ∷ [])
        ≡ false ∷ false ∷ false ∷ true ∷ true ∷ [] }
    ensures pal { map (is_high_of (record { black = 16384; white = 54016 })) (0 ∷ 35199 ∷ 35200 ∷ 35201 ∷ 65535 ∷ [])
        ≡ false ∷ false ∷ false ∷ true ∷ true ∷ [] }
    ensures bytes { samples_of (0x00 ∷ 0x40 ∷ 0x01 ∷ 0x84 ∷ 0xFF ∷ 0x00 ∷ []) ≡ 16384 ∷ 33793 ∷ 255 ∷ [] }
{}
