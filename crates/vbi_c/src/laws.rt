//! What the numbers of include/ldvbi.h stand for, which line tells what, and which calls are refused with which status,
//! written down by hand. A function here does nothing: its contract holds each of them.

ghost use Rattle.std.specs.Prelude.{◌≡◌, ◌≤◌, ◌*◌, ◌↔◌, ℕ, List, length, [], ◌∷◌, map, take, drop, replicate, Some};
ghost use Rattle.std.specs.Prelude.{None, Result, Ok, Err, Bool, true, false, Option, unwrap_or};
ghost use Rattle.std.specs.List.{All};
ghost use Rattle.vbi_words.specs.Geometry.{width_of, height_of, line_bytes, field_bytes};
ghost use Rattle.vbi_words.specs.{Codes.IsBetween};
ghost use Rattle.vbi_near.specs.{Candidates.Row, PileRule.IsSaidTogether};
ghost use Rattle.vbi_side.specs.{Clocks.IsProper, Worked.field_of};
ghost use Rattle.vbi_seek.specs.{NumberSearch.Numbers, NumberSearch.shown_of};
ghost use Rattle.vbi_seek.specs.{FieldLines.Side, ChapterSearch.chapters_at, StopSearch.HasStop};
ghost use Rattle.vbi_whole.specs.Verdicts.{no_reason};
ghost use Rattle.vbi_c.specs.Completing.{times_of, with_time, TellsTime, completing_of};
ghost use Rattle.vbi_c.specs.Erased.{none_erased, erased_of, with_erased, is_code_line, is_entry, may_follow, is_taken};
ghost use Rattle.vbi_c.specs.FieldCodes.{chapters_in, IsStopOf, IsEndOf};
ghost use Rattle.vbi_c.specs.Judging.{are_as_long, seen_in, IsGiven, judging_of, one_judging_of, shown_by};
ghost use Rattle.vbi_c.specs.Numbers.{clock_given, clock_for_c, clock_as, code_for_c, format_for_c, counted_of};
ghost use Rattle.vbi_c.specs.Numbers.{asked_of, given_of, pace_for_c, sought_pace, system_of, of_system, pace_given};
ghost use Rattle.vbi_c.specs.Numbers.{both_by, both_for_c, may_end_by, word_or_none, three_words, verdict_for_c};
ghost use Rattle.vbi_c.specs.Readings.{field_in, field_reading, fields_reading, rows_reading, outcome_for_c};
ghost use Rattle.vbi_c.specs.Recovering.{HasText, HasWordsOf, code_bytes, reading_at, recovered_reading, AreRecovered};
ghost use Rattle.vbi_c.specs.Worked.{ntsc, pal, judged_as, code_as, reading_as, near_as, lines_read_as, field_read_as};
ghost use Rattle.vbi_c.specs.Worked.{found_near, sided_as, sided_by, rule_as, plain_rule, on_one, on_both, columns_of};
ghost use Rattle.vbi_c.specs.declared.status.Refusal.TheVariants.{System, Length, Counted, Pace, Clock, Levels, Word};
ghost use Rattle.vbi_c.specs.declared.status.Refusal.TheVariants.{Erased, Line, Known};
ghost use Rattle.vbi_c.specs.Setups.{drawing_of, setup_of, line_setup, rows_setup, fields_setup, lines_setup};
ghost use Rattle.vbi_c.specs.{Numbers.reasons_for_c, Piling.IsWordOf, Piling.pile_setup, Recovering.AreAllRecovered};
ghost use Rattle.vbi_c.specs.{Erased.erases, Nearest.near_for_c, Seeking.seek_of, Statuses.refusal_status};
ghost use Rattle.vbi_c.specs.WholeSides.{siding_by, numbering_of, slack_by};
ghost use Rattle.vbi_c.specs.Types as types;
ghost use Rattle.vbi_c.specs.Types.{Picture, Chapter, Time, ClvPicture, CxOn, CxOff, Users, LeadIn, LeadOut};
ghost use Rattle.vbi_c.specs.Types.{PictureStop, ClvMark, Other, Cav, Clv, Both, Neither, Blank, Unfinished, Change};
ghost use Rattle.vbi_c.specs.Types.{Hold, Ntsc, Pal, Plain, DropFrame, OneIn, Pictures, Times, Video, Film, Given};
ghost use Rattle.vbi_c.specs.Types.{Found, Setup, Yes, No, CannotTell, LdvbiFieldReadings, LdvbiRecord, LdvbiClock};
ghost use Rattle.vbi_c.specs.{Types.Refusal, Statuses.status_of, Statuses.fitting};

/// What the numbers that C hands over stand for, and the sizes that it is answered.
pub fn worked_numbers()
    ensures systems { map system_of (0 ∷ 1 ∷ 2 ∷ 3 ∷ 257 ∷ []) ≡ None ∷ Some Ntsc ∷ Some Pal ∷ None ∷ None ∷ [] }
    ensures counted { map counted_of (0 ∷ 1 ∷ 2 ∷ 3 ∷ []) ≡ None ∷ Some Pictures ∷ Some Times ∷ None ∷ [] }
    ensures asked { map asked_of (0 ∷ 1 ∷ 2 ∷ 3 ∷ 4 ∷ [])
        ≡ None ∷ Some (Given Video) ∷ Some (Given Film) ∷ Some Found ∷ None ∷ [] }
    ensures given { map given_of (0 ∷ 1 ∷ 2 ∷ 3 ∷ 4 ∷ [])
        ≡ None ∷ Some (Given Video) ∷ Some (Given Film) ∷ None ∷ None ∷ [] }
    ensures paces { IsGiven (Given Film) Film × (IsGiven (Given Film) Video → ⊥) × IsGiven Found Video
        × IsGiven Found Film }
    ensures samples { map (λ number. of_system width_of (system_of number)) (0 ∷ 1 ∷ 2 ∷ 3 ∷ [])
        ≡ 0 ∷ 910 ∷ 1135 ∷ 0 ∷ [] }
    ensures bytes { map (λ number. of_system line_bytes (system_of number)) (0 ∷ 1 ∷ 2 ∷ 3 ∷ [])
        ≡ 0 ∷ 1820 ∷ 2270 ∷ 0 ∷ [] }
    ensures lines { map (λ number. of_system height_of (system_of number)) (0 ∷ 1 ∷ 2 ∷ 3 ∷ [])
        ≡ 0 ∷ 263 ∷ 313 ∷ 0 ∷ [] }
    ensures field_bytes { map (λ number. of_system field_bytes (system_of number)) (0 ∷ 1 ∷ 2 ∷ 3 ∷ [])
        ≡ 0 ∷ 478660 ∷ 710510 ∷ 0 ∷ [] }
{}

/// The numbers by which C is answered, each at its place.
pub fn worked_answers()
    ensures paces { map pace_for_c (Video ∷ Film ∷ []) ≡ 1 ∷ 2 ∷ [] }
    ensures no_pace { sought_pace None ≡ 0 }
    ensures formats { map format_for_c (Neither ∷ Cav ∷ Clv ∷ Both ∷ []) ≡ 0 ∷ 1 ∷ 2 ∷ 3 ∷ [] }
    ensures words { map (outcome_for_c (types.Word 0xF12345)) (1 ∷ 2 ∷ 3 ∷ [])
        ≡ reading_as 0 1 0 0xF12345 ∷ reading_as 0 2 0 0xF12345 ∷ reading_as 0 3 0 0xF12345 ∷ [] }
    ensures causes { map (λ outcome. outcome_for_c outcome 0) (Blank ∷ Unfinished ∷ Change 34 ∷ Hold 46 ∷ [])
        ≡ reading_as 1 0 0 0 ∷ reading_as 2 0 0 0 ∷ reading_as 3 0 34 0 ∷ reading_as 4 0 46 0 ∷ [] }
    ensures near { near_for_c (found_near (Some 0xF12345) 1 2 3 4 5) ≡ near_as 0xF12345 1 2 3 4 }
    ensures none_near { near_for_c (found_near None 0 2 3 2 2) ≡ near_as 0 0 2 3 2 }
    ensures record_bytes { (written : LdvbiRecord) → HasText (123 ∷ 125 ∷ []) written
        → (written.length ≡ 2) × (written.text ≡ 123 ∷ 125 ∷ replicate 446 0) }
{}

/// The numbers of codes, and what goes with them.
pub fn worked_codes()
    ensures pictures { map code_for_c (Other ∷ Picture 12345 ∷ Chapter 7 ∷ PictureStop ∷ [])
        ≡ code_as 0 0 0 ∷ code_as 1 12345 0 ∷ code_as 2 7 0 ∷ code_as 10 0 0 ∷ [] }
    ensures times { map code_for_c (Time 1 23 ∷ ClvPicture 45 6 ∷ ClvMark ∷ [])
        ≡ code_as 3 1 23 ∷ code_as 4 45 6 ∷ code_as 11 0 0 ∷ [] }
    ensures others { map code_for_c (CxOn 0x123 ∷ CxOff 0x456 ∷ Users 7 0x89A ∷ LeadIn ∷ LeadOut ∷ [])
        ≡ code_as 5 0x123 0 ∷ code_as 6 0x456 0 ∷ code_as 7 7 0x89A ∷ code_as 8 0 0 ∷ code_as 9 0 0 ∷ [] }
{}

/// The rows of a field that are lines 16 to 18, and which line tells what.
#[tactic(auto, unfolding(vbi_words::specs::Codes::code_of))]
pub fn worked_calls()
    ensures lines_ntsc { (field : List ℕ) → field_reading ntsc field ≡ rows_reading ntsc (
        take 1820 (drop 27300 field) ∷ take 1820 (drop 29120 field) ∷ take 1820 (drop 30940 field) ∷ []) }
    ensures lines_pal { (field : List ℕ) → field_reading pal field ≡ rows_reading pal (
        take 2270 (drop 34050 field) ∷ take 2270 (drop 36320 field) ∷ take 2270 (drop 38590 field) ∷ []) }
    ensures all_fields { (side : List ℕ) → fields_reading pal side 2
        ≡ field_reading pal (field_in Pal side 0) ∷ field_reading pal (field_in Pal side 1) ∷ [] }
    ensures pictures { seen_in (judged_as Pal Pictures Found) (field_read_as 0xF00001 0xF12345 0xF12346)
        ≡ field_of 12345 2 12346 2 }
    ensures passes { map (λ line. seen_in (judged_as Ntsc Pictures Found) (record { lines = line ∷ line ∷ line ∷ [] }))
        (reading_as 0 2 0 0xF12345 ∷ reading_as 0 3 0 0xF12345 ∷ [])
        ≡ field_of 12345 1 12345 1 ∷ field_of 12345 1 12345 1 ∷ [] }
    ensures times_ntsc { seen_in (judged_as Ntsc Times Found) (field_read_as 0x8AE501 0xF0DD00 0xF0DD01)
        ≡ field_of 151 2 1951 2 }
    ensures times_pal { seen_in (judged_as Pal Times Found) (field_read_as 0x8AE501 0xF0DD00 0xF0DD01)
        ≡ field_of 126 2 1626 2 }
    ensures chapters { chapters_in (field_read_as 0x801DDD 0x807DDD 0x819DDD) ≡ field_of 7 2 19 2 }
    ensures stop_on_16 { (answer : ℕ) → IsStopOf (lines_read_as 0x82CFFF 0 0) answer → answer ≡ 1 }
    ensures stop_on_17 { (answer : ℕ) → IsStopOf (lines_read_as 0 0x82CFFF 0) answer → answer ≡ 1 }
    ensures none_on_18 { (answer : ℕ) → IsStopOf (lines_read_as 0 0 0x82CFFF) answer → answer ≡ 0 }
{}

/// If no column is erased, a field shows one thing with the nearest words of worn lines. So what a search says of
/// the fields of a side it says of the readings that `ldvbi_recover_fields` makes of them.
pub fn one_recovery()
    ensures field { (setup : Setup) (field : List ℕ) (readings : LdvbiFieldReadings)
        → AreRecovered setup (code_bytes setup.system field) (none_erased setup.system) readings
        ↔ (readings ≡ recovered_reading setup field) }
    ensures side { (numbers : Numbers) (all : List LdvbiFieldReadings) → AreAllRecovered numbers.side.setup
        numbers.side.bytes (λ field. none_erased numbers.side.setup.system) numbers.side.count all
        → length all ≡ numbers.side.count → map (seen_in numbers.judging) all ≡ shown_of numbers }
    ensures chapters { (side : Side) (i : ℕ) → chapters_in (reading_at side i) ≡ chapters_at side i }
    ensures stops { (side : Side) (i : ℕ) → IsStopOf (reading_at side i).lines 1 ↔ HasStop side i }
{}

/// An empty list erases no column, and no call is refused by it.
pub fn none_is_erased()
    ensures taken { (count : ℕ) (asked : Result Setup Refusal) → with_erased count [] asked ≡ asked }
    ensures columns { (system : types.System) (field : ℕ) → erased_of [] system field ≡ none_erased system }
{}

/// The record of a field has the words and passes that `ldvbi_recover_rows` answers of its rows and their
/// erased columns. It has their causes, too, but for a word of pass 3: of this it has the cause of the line as it was
/// read.
pub fn record_is_of_rows()
    ensures { (setup : Setup) (number : ℕ) (rows : List ℕ) (marks : List Bool) (readings : LdvbiFieldReadings)
        → length rows ≡ 3 * line_bytes setup.system → AreRecovered setup rows marks readings
        → HasWordsOf setup number rows marks readings }
{}

/// No line is answered with a recovered picture number of 80,000 or more, in pass 3, and no lines say one together.
pub fn never_beyond_79999()
    ensures lines { (setup : Setup) (rows : List ℕ) (marks : List Bool) (readings : LdvbiFieldReadings)
        → AreRecovered setup rows marks readings
        → All (λ line. line.pass ≡ 3 → IsBetween 0xF80000 0xFF9999 line.word → ⊥) readings.lines }
    ensures pile { (setup : Setup) (line known : ℕ) (rows : List Row) (answer : ℕ)
        → IsWordOf setup line known rows answer → IsBetween 0xF80000 0xFF9999 answer → ⊥ }
{}

/// What a completed field is: line 17 has the word, in the pass of line 16, and the others stay. The times that vote
/// are those of lines 17 and 18, beside line 16.
#[tactic(auto, unfolding(vbi_words::specs::Codes::code_of))]
pub fn worked_completed()
    ensures lines { with_time 0xF0DD02 (reading_as 0 2 0 0x8AE710 ∷ reading_as 1 0 0 0 ∷ reading_as 3 0 77 0 ∷ [])
        ≡ reading_as 0 2 0 0x8AE710 ∷ reading_as 0 2 0 0xF0DD02 ∷ reading_as 3 0 77 0 ∷ [] }
    ensures seen { seen_in (times_of Pal) (field_read_as 0x8AE501 0xF0DD00 0xF0DD01) ≡ field_of 126 2 1626 2 }
    ensures tells { TellsTime Ntsc 3610 (record {
      lines
          = with_time 0xF0DD02 (reading_as 0 2 0 0x8AE010 ∷ reading_as 1 0 0 0 ∷ reading_as 1 0 0 0 ∷ []);
    }) }
{}

/// What is asked of the judge of whole sides, and what it is told of numbers on both fields: the system is looked at
/// first, then the lengths, then what is counted, then the pace, which has to be given.
#[tactic(auto, unfolding(vbi_words::specs::Codes::code_of))]
pub fn worked_sides()
    ensures paces { map pace_given (0 ∷ 1 ∷ 2 ∷ 3 ∷ []) ≡ None ∷ Some Video ∷ Some Film ∷ None ∷ [] }
    ensures taken { (siding_by (plain_rule 1 1 1) true ≡ Ok (sided_as Ntsc Pictures Video))
        × (siding_by (plain_rule 2 2 2) true ≡ Ok (sided_as Pal Times Film)) }
    ensures order { (siding_by (plain_rule 3 0 0) false ≡ Err System)
        × (siding_by (plain_rule 1 0 0) false ≡ Err Length) × (siding_by (plain_rule 1 0 0) true ≡ Err Counted)
        × (siding_by (plain_rule 1 1 3) true ≡ Err Pace) }
    ensures lengths { (are_as_long 5 5 5 ≡ true) × (are_as_long 5 4 5 ≡ false) × (are_as_long 5 5 4 ≡ false) }
    ensures on_one { map (λ both. both_by both on_one) (0 ∷ 1 ∷ 2 ∷ 3 ∷ []) ≡ false ∷ true ∷ true ∷ false ∷ [] }
    ensures on_both { map (λ both. both_by both on_both) (0 ∷ 1 ∷ 2 ∷ 3 ∷ []) ≡ false ∷ true ∷ true ∷ true ∷ [] }
    ensures found { (both_for_c on_one ≡ 0) × (both_for_c on_both ≡ 1) }
    ensures slack { (slack_by Video 1 [] ≡ 1) × (slack_by Video 0 [] ≡ 0) × (slack_by Film 1 [] ≡ 0) }
    ensures may_end { map may_end_by (0 ∷ 1 ∷ 2 ∷ []) ≡ false ∷ true ∷ true ∷ [] }
    ensures lead_outs { (answer : ℕ) → IsEndOf (lines_read_as 0x88FFFF 0x80EEEE 0x80EEEE) answer → answer ≡ 1 }
    ensures lead_ins { (answer : ℕ) → IsEndOf (lines_read_as 0 0x88FFFF 0) answer → answer ≡ 3 }
    ensures none_on_16 { (answer : ℕ) → IsEndOf (lines_read_as 0x80EEEE 0 0) answer → answer ≡ 0 }
{}

/// The numbers of the verdicts and of their reasons, and that reasons that hold together add up.
pub fn worked_reasons()
    ensures verdicts { map verdict_for_c (CannotTell ∷ Yes ∷ No ∷ []) ≡ 0 ∷ 1 ∷ 2 ∷ [] }
    ensures seen { map reasons_for_c (no_reason ∷ record no_reason { is_lost = true }
        ∷ record no_reason { is_held = true } ∷ record no_reason { goes_back = true }
        ∷ record no_reason { is_joined = true } ∷ record no_reason { begins_late = true }
        ∷ record no_reason { is_swapped = true } ∷ record no_reason { is_inserted = true }
        ∷ record no_reason { is_padded = true } ∷ []) ≡ 0 ∷ 1 ∷ 2 ∷ 4 ∷ 8 ∷ 16 ∷ 32 ∷ 4096 ∷ 8192 ∷ [] }
    ensures left_open { map reasons_for_c (record no_reason { is_off = true } ∷ record no_reason { no_numbers = true }
        ∷ record no_reason { end_unseen = true } ∷ record no_reason { begin_unseen = true }
        ∷ record no_reason { many_doubtful = true } ∷ record no_reason { is_open = true }
        ∷ record no_reason { is_blank = true } ∷ []) ≡ 64 ∷ 128 ∷ 256 ∷ 512 ∷ 1024 ∷ 2048 ∷ 16384 ∷ [] }
    ensures both { reasons_for_c (record no_reason { is_lost = true; end_unseen = true }) ≡ 257 }
{}

/// The clocks that C hands over, and those that it is answered. What is answered is taken again. A clock is looked at
/// last.
pub fn worked_clocks()
    ensures given { map clock_given (clock_as 0 0 0 ∷ clock_as 0 7 9 ∷ clock_as 1 0 0 ∷ clock_as 2 1000 999
        ∷ clock_as 2 1 0 ∷ [])
        ≡ Some Plain ∷ Some Plain ∷ Some DropFrame ∷ Some (OneIn 1000 999) ∷ Some (OneIn 1 0) ∷ [] }
    ensures none_given { map clock_given (clock_as 2 1000 1000 ∷ clock_as 2 0 0 ∷ clock_as 3 1000 0 ∷ clock_as 256 0 0
        ∷ []) ≡ None ∷ None ∷ None ∷ None ∷ [] }
    ensures answered { map clock_for_c (Plain ∷ DropFrame ∷ OneIn 1001 7 ∷ [])
        ≡ clock_as 0 0 0 ∷ clock_as 1 0 0 ∷ clock_as 2 1001 7 ∷ [] }
    ensures taken_again { (clock : types.Clock) → IsProper clock → clock_given (clock_for_c clock) ≡ Some clock }
    ensures taken { (siding_by (rule_as 1 2 1 (clock_as 2 1000 399)) true
        ≡ Ok (sided_by Ntsc Times Video (OneIn 1000 399)))
        × (siding_by (rule_as 2 1 2 (clock_as 1 0 0)) true ≡ Ok (sided_by Pal Pictures Film DropFrame)) }
    ensures order { (siding_by (rule_as 1 0 0 (clock_as 3 0 0)) false ≡ Err Length)
        × (siding_by (rule_as 1 0 3 (clock_as 3 0 0)) true ≡ Err Counted)
        × (siding_by (rule_as 1 1 3 (clock_as 3 0 0)) true ≡ Err Pace)
        × (siding_by (rule_as 1 1 1 (clock_as 3 0 0)) true ≡ Err Clock) }
    ensures sought { (clock : LdvbiClock) → (numbering_of (rule_as 1 2 1 clock) ≡ Ok (sided_as Ntsc Times Video))
        × (numbering_of (rule_as 3 0 0 clock) ≡ Err System) × (numbering_of (rule_as 1 0 0 clock) ≡ Err Counted)
        × (numbering_of (rule_as 1 1 3 clock) ≡ Err Pace) }
{}

/// What a refused call is answered, and one that isn't refused.
pub fn worked_statuses()
    ensures refused { map refusal_status
        (System ∷ Levels ∷ Length ∷ Word ∷ Counted ∷ Pace ∷ Erased ∷ Line ∷ Known ∷ Clock ∷ [])
        ≡ 1 ∷ 2 ∷ 3 ∷ 4 ∷ 5 ∷ 6 ∷ 7 ∷ 8 ∷ 9 ∷ 10 ∷ [] }
    ensures calls { map (λ number. status_of (word_or_none number)) (0 ∷ 1 ∷ []) ≡ 0 ∷ 4 ∷ [] }
    ensures lengths { map (λ fit. status_of (fitting fit)) (true ∷ false ∷ []) ≡ 0 ∷ 3 ∷ [] }
{}

/// Which black and white are taken, and how many bytes. The system is looked at first, then the two, then the bytes.
pub fn worked_setups()
    ensures levels { map (λ black. setup_of 1 black 51200) (16384 ∷ 51200 ∷ 51201 ∷ [])
        ≡ Ok ntsc ∷ Err Levels ∷ Err Levels ∷ [] }
    ensures least { setup_of 2 0 1 ≡ Ok (record { system = Pal; levels = record { black = 0; white = 1 } }) }
    ensures greatest { (setup_of 1 65534 65535
        ≡ Ok (record { system = Ntsc; levels = record { black = 65534; white = 65535 } }))
        × (setup_of 1 65534 65536 ≡ Err Levels) × (setup_of 1 65536 65537 ≡ Err Levels) }
    ensures order { (setup_of 3 1 0 ≡ Err System) × (line_setup 3 1 0 7 ≡ Err System)
        × (line_setup 2 1 0 7 ≡ Err Levels) }
    ensures line_ntsc { map (line_setup 1 16384 51200) (0 ∷ 1819 ∷ 1820 ∷ 1821 ∷ 2270 ∷ [])
        ≡ Err Length ∷ Err Length ∷ Ok ntsc ∷ Err Length ∷ Err Length ∷ [] }
    ensures line_pal { map (line_setup 2 16384 54016) (0 ∷ 1820 ∷ 2269 ∷ 2270 ∷ 2271 ∷ [])
        ≡ Err Length ∷ Err Length ∷ Err Length ∷ Ok pal ∷ Err Length ∷ [] }
    ensures rows_ntsc { map (rows_setup 1 16384 51200) (1820 ∷ 5459 ∷ 5460 ∷ 6810 ∷ [])
        ≡ Err Length ∷ Err Length ∷ Ok ntsc ∷ Err Length ∷ [] }
    ensures rows_pal { map (rows_setup 2 16384 54016) (2270 ∷ 5460 ∷ 6810 ∷ 6811 ∷ [])
        ≡ Err Length ∷ Err Length ∷ Ok pal ∷ Err Length ∷ [] }
    ensures fields_ntsc { map (fields_setup 1 16384 51200 957320) (1 ∷ 2 ∷ 3 ∷ [])
        ≡ Err Length ∷ Ok ntsc ∷ Err Length ∷ [] }
    ensures fields_pal { map (fields_setup 2 16384 54016 1421020) (1 ∷ 2 ∷ 3 ∷ [])
        ≡ Err Length ∷ Ok pal ∷ Err Length ∷ [] }
    ensures no_fields { map (fields_setup 1 16384 51200 0) (0 ∷ 1 ∷ []) ≡ Ok ntsc ∷ Err Length ∷ [] }
    ensures lines_ntsc { map (lines_setup 1 16384 51200) (0 ∷ 1820 ∷ 1821 ∷ 50960 ∷ 52780 ∷ [])
        ≡ Err Length ∷ Ok ntsc ∷ Err Length ∷ Ok ntsc ∷ Err Length ∷ [] }
    ensures lines_pal { map (lines_setup 2 16384 54016) (0 ∷ 2270 ∷ 3640 ∷ 63560 ∷ 65830 ∷ [])
        ≡ Err Length ∷ Ok pal ∷ Err Length ∷ Ok pal ∷ Err Length ∷ [] }
{}

/// Which numbers are words, and that a word is looked at after all else.
pub fn worked_words()
    ensures words { map word_or_none (0 ∷ 1 ∷ 0x7FFFFF ∷ 0x800000 ∷ 0xFFFFFF ∷ 0x1000000 ∷ [])
        ≡ Ok None ∷ Err Word ∷ Err Word ∷ Ok (Some 0x800000) ∷ Ok (Some 0xFFFFFF) ∷ Err Word ∷ [] }
    ensures three { three_words 0x8AE501 0 0xF0DD00 ≡ Ok (Some 0x8AE501 ∷ None ∷ Some 0xF0DD00 ∷ []) }
    ensures each_of_three { (three_words 1 0 0 ≡ Err Word) × (three_words 0 1 0 ≡ Err Word)
        × (three_words 0 0 1 ≡ Err Word) }
    ensures shown { map (λ word. (shown_by (reading_as 0 3 0 word)).word)
        (0 ∷ 0x7FFFFF ∷ 0x800000 ∷ 0xFFFFFF ∷ 0x1000000 ∷ [])
        ≡ None ∷ None ∷ Some 0x800000 ∷ Some 0xFFFFFF ∷ None ∷ [] }
    ensures drawn { (drawing_of 1 16384 51200 0xF12345 1820 ≡ Ok (record { setup = ntsc; word = Some 0xF12345 }))
        × (drawing_of 2 16384 54016 0 2270 ≡ Ok (record { setup = pal; word = None })) }
    ensures order { (drawing_of 1 16384 51200 1 1820 ≡ Err Word) × (drawing_of 1 16384 51200 1 1819 ≡ Err Length)
        × (drawing_of 3 16384 51200 1 1819 ≡ Err System) }
{}

/// What is asked of the judge: the system is looked at first, then the lengths, then what is counted, then the pace.
pub fn worked_judging()
    ensures taken { (judging_of 1 1 1 true ≡ Ok (judged_as Ntsc Pictures (Given Video)))
        × (judging_of 2 2 3 true ≡ Ok (judged_as Pal Times Found)) }
    ensures order { (judging_of 3 0 0 false ≡ Err System) × (judging_of 1 0 0 false ≡ Err Length)
        × (judging_of 1 0 0 true ≡ Err Counted) × (judging_of 1 1 0 true ≡ Err Pace)
        × (judging_of 1 1 4 true ≡ Err Pace) }
    ensures part { map (λ count. one_judging_of 2 2 2 count 96) (96 ∷ 97 ∷ 98 ∷ [])
        ≡ Err Length ∷ Ok (judged_as Pal Times (Given Film)) ∷ Err Length ∷ [] }
    ensures part_order { (one_judging_of 3 0 3 98 5 ≡ Err System) × (one_judging_of 1 0 3 98 5 ≡ Err Length)
        × (one_judging_of 1 0 3 5 4 ≡ Err Counted) × (one_judging_of 1 1 3 5 4 ≡ Err Pace) }
    ensures sought { seek_of 2 16384 54016 1 3 ≡ Ok (record { setup = pal; judging = judged_as Pal Pictures Found }) }
    ensures sought_order { (seek_of 3 1 0 0 0 ≡ Err System) × (seek_of 1 1 0 0 0 ≡ Err Levels)
        × (seek_of 1 0 1 0 0 ≡ Err Counted) × (seek_of 1 0 1 1 0 ≡ Err Pace) }
{}

/// What is asked of the completing of times: the system is looked at first, then the lengths.
pub fn worked_completing()
    ensures taken { (completing_of 1 5 5 5 ≡ Ok Ntsc) × (completing_of 2 0 0 0 ≡ Ok Pal) }
    ensures order { (completing_of 3 5 4 4 ≡ Err System) × (completing_of 0 5 5 5 ≡ Err System)
        × (completing_of 1 5 4 5 ≡ Err Length) × (completing_of 1 5 5 4 ≡ Err Length)
        × (completing_of 2 5 6 6 ≡ Err Length) }
{}

/// Which lists of erased columns are taken. A list is looked at after all else.
pub fn worked_lists()
    ensures lines { map is_code_line (15 ∷ 16 ∷ 17 ∷ 18 ∷ 19 ∷ []) ≡ false ∷ true ∷ true ∷ true ∷ false ∷ [] }
    ensures entries { map (is_entry 2) (columns_of 0 16 5 5 ∷ columns_of 1 18 0 9999 ∷ columns_of 2 16 5 5
        ∷ columns_of 0 15 5 5 ∷ columns_of 0 19 5 5 ∷ columns_of 0 16 6 5 ∷ [])
        ≡ true ∷ true ∷ false ∷ false ∷ false ∷ false ∷ [] }
    ensures follows { map (may_follow (columns_of 1 17 5 9)) (columns_of 2 16 0 0 ∷ columns_of 1 18 0 0
        ∷ columns_of 1 17 5 5 ∷ columns_of 1 17 4 9 ∷ columns_of 1 16 6 9 ∷ columns_of 0 18 6 9 ∷ [])
        ≡ true ∷ true ∷ true ∷ false ∷ false ∷ false ∷ [] }
    ensures taken { map (is_taken 2) ([] ∷ (columns_of 0 16 5 9 ∷ columns_of 0 16 5 5 ∷ columns_of 1 16 0 0 ∷ [])
        ∷ (columns_of 0 16 0 0 ∷ columns_of 1 16 0 0 ∷ columns_of 0 18 0 0 ∷ [])
        ∷ (columns_of 0 16 0 0 ∷ columns_of 2 16 0 0 ∷ []) ∷ []) ≡ true ∷ true ∷ false ∷ false ∷ [] }
    ensures order { (with_erased 0 (columns_of 0 16 0 0 ∷ []) (rows_setup 1 16384 51200 5460) ≡ Err Erased)
        × (with_erased 1 (columns_of 0 16 0 0 ∷ []) (rows_setup 1 16384 51200 5460) ≡ Ok ntsc)
        × (with_erased 0 (columns_of 0 16 0 0 ∷ []) (rows_setup 1 16384 51200 5459) ≡ Err Length) }
{}

/// What an entry erases: the columns of its line of its field, from its first to its last. The marks of line 17 follow
/// those of line 16, and those of line 18 come last.
#[tactic(auto, unfolding(crate::specs::Erased::erased_of))]
pub fn worked_marks()
    ensures erases { map (λ column. erases 1 17 column (columns_of 1 17 5 6)) (4 ∷ 5 ∷ 6 ∷ 7 ∷ [])
        ≡ false ∷ true ∷ true ∷ false ∷ [] }
    ensures elsewhere { (erases 0 17 5 (columns_of 1 17 5 6) ≡ false)
        × (erases 1 16 5 (columns_of 1 17 5 6) ≡ false) }
    ensures marks_ntsc { take 3 (drop 910 (erased_of (columns_of 0 17 1 1 ∷ []) Ntsc 0)) ≡ false ∷ true ∷ false ∷ [] }
    ensures marks_pal { take 3 (drop 2270 (erased_of (columns_of 4 18 1 1 ∷ []) Pal 4)) ≡ false ∷ true ∷ false ∷ [] }
{}

/// Which lines of one number are taken: the setup is looked at first, then the number of the line, then whether
/// dropouts are known, then the list, whose entries are of these lines alone.
pub fn worked_piles()
    ensures taken { (pile_setup 1 16384 51200 16 0 3640 (columns_of 1 16 5 5 ∷ []) ≡ Ok ntsc)
        × (pile_setup 2 16384 54016 18 1 4540 (columns_of 1 18 5 5 ∷ []) ≡ Ok pal) }
    ensures order { (pile_setup 1 16384 51200 19 2 0 (columns_of 2 16 5 5 ∷ []) ≡ Err Length)
        × (pile_setup 1 16384 51200 19 2 3640 (columns_of 2 16 5 5 ∷ []) ≡ Err Line)
        × (pile_setup 1 16384 51200 18 2 3640 (columns_of 2 16 5 5 ∷ []) ≡ Err Known) }
    ensures lists { (pile_setup 1 16384 51200 16 1 3640 (columns_of 2 16 5 5 ∷ []) ≡ Err Erased)
        × (pile_setup 1 16384 51200 16 1 3640 (columns_of 1 17 5 5 ∷ []) ≡ Err Erased)
        × (pile_setup 2 16384 54016 16 1 3640 (columns_of 1 16 5 5 ∷ []) ≡ Err Length) }
{}

/// Dropouts are known by 1, and by 0 they aren't.
pub fn known_by_one()
    ensures known { (setup : Setup) (line : ℕ) (rows : List Row) (answer : ℕ) → IsWordOf setup line 1 rows answer
        → (said : Option ℕ) × IsSaidTogether setup.system line setup.levels true rows said
        × (answer ≡ unwrap_or said 0) }
    ensures unknown { (setup : Setup) (line : ℕ) (rows : List Row) (answer : ℕ) → IsWordOf setup line 0 rows answer
        → (said : Option ℕ) × IsSaidTogether setup.system line setup.levels false rows said
        × (answer ≡ unwrap_or said 0) }
{}
