//! Laws of the definitions in `specs/`. A function here does nothing: its contract is a law, which holds of every
//! capture.
//!
//! First what is right: if less than enough was misread around a field, a believed number is the disc's (`sound`,
//! `sound_still`, `due_sound`), and what the disc has is believed if enough supports it (`complete`). Then what there
//! is only one of, what an answer depends on, and the same said of words. The functions `worked_..` are rows written
//! down by hand: each number of a rule is pinned at its edge, so that code and definition can't be wrong alike.
//!
//! The laws of chapters, stops, clocks, votes, gaps and sides stand in files of their own. docs/PROMISES.md says what
//! they promise in plain words: a law that changes changes its row there. The `.._alike` edits of `must-fail` turn a
//! definition with its code, and are refused here.

ghost use Rattle.std.specs.Prelude.{◌≡◌, ◌≢◌, ◌↔◌, ◌⊎◌, ℕ, ◌+◌, ◌<◌, ◌≤◌, true, false, List, [], ◌∷◌, map, Option};
ghost use Rattle.std.specs.Prelude.{Some, None, slice_get};
ghost use Rattle.vbi_side.specs.Types.{Ntsc, Pal, Picture, Time, ClvPicture, Chapter, LeadIn, LeadOut, ClvMark};
ghost use Rattle.vbi_side.specs.Types.{Pictures, Times, System, Counted, Shown, Number, Sightings, Pace, Video, Film};
ghost use Rattle.vbi_side.specs.Lines.{number_from, code_in, sightings_of, pass_weight, number_weight, is_instead};
ghost use Rattle.vbi_side.specs.Beliefs.{reach, enough, field_most, support_of, Believed};
ghost use Rattle.vbi_side.specs.Truth.{IsNear, AreEven, RunsOn, IsRegular, IsSound, IsSoundStill, wrong_weight};
ghost use Rattle.vbi_side.specs.Misread.{Capture, sightings_in, misread_weight, AreTold, IsRead};
ghost use Rattle.vbi_side.specs.Worked.{wrong_by_9, wrong_by_10, apart_by, still_of, film_side, field_of, instead_of};
ghost use Rattle.vbi_side.specs.{Sightings.Shows, Paces.spot, Paces.fits, Paces.stays, Paces.nearly};
ghost use Rattle.vbi_side.specs.{DueNumbers.slack_of, DueNumbers.Due, PaceSearch.pace_by, PaceSearch.IsFound};
ghost use Rattle.vbi_side.specs.{Numbers.IsAnswer, Numbers.IsKnown, Parts.IsPart, Truth.StandsStill, Truth.video_disc};
ghost use Rattle.vbi_side.specs.{Truth.film_disc, Whole.IsWhole, Whole.TakesTurns, Worked.shown_in, Worked.told_by};

/// If the disc ran on around a field that has a number and what was misread there weighs less than enough, a
/// believed number is that number.
#[tactic(auto, using(crate::proofs::Truth::sound))]
pub fn sound()
    ensures { (pace : Pace) (recorded : ℕ → Option ℕ) (fields : List Sightings) (i m n : ℕ)
        → IsSound pace recorded fields i m → Believed pace fields i n → n ≡ m }
{}

/// If the disc ran on around a field and what was misread there weighs less than enough, a number that is believed
/// of the field fits one that was recorded within reach of it and read, whether the field has a number on the disc or
/// not. Of video it fits each that was recorded in a field an even number of fields away, so it is the one that the
/// disc counts there.
#[tactic(auto, using(crate::proofs::Truth::on_the_disc, crate::proofs::Truth::on_the_video))]
pub fn on_the_disc()
    ensures one { (pace : Pace) (recorded : ℕ → Option ℕ) (fields : List Sightings) (i n : ℕ)
        → RunsOn pace recorded i → wrong_weight recorded fields i < enough → Believed pace fields i n
        → (j m : ℕ) × IsNear i j × (recorded j ≡ Some m) × Shows (slice_get fields j) m
        × (fits pace i n j m ≡ true) }
    ensures each { (recorded : ℕ → Option ℕ) (fields : List Sightings) (i n : ℕ)
        → RunsOn Video recorded i → wrong_weight recorded fields i < enough → Believed Video fields i n
        → (j m : ℕ) → IsNear i j → AreEven i j → recorded j ≡ Some m → fits Video i n j m ≡ true }
{}

/// If the player stood still around a field and what was misread there weighs 4 less than enough, a number believed
/// at the pace of video is that of the still.
pub fn sound_still()
    ensures { (recorded : ℕ → Option ℕ) (fields : List Sightings) (i m n : ℕ)
        → IsSoundStill recorded fields i m → Believed Video fields i n → n ≡ m }
{}

/// If the disc is regular around a field and the numbers believed within reach of it are those recorded, the field
/// has the number that is due in it.
#[tactic(auto, using(crate::proofs::DueLemmas::due_sound))]
pub fn due_sound()
    ensures { (pace : Pace) (recorded : ℕ → Option ℕ) (fields : List Sightings) (i n : ℕ)
        → IsRegular pace recorded i
        → ((j k : ℕ) → IsNear i j → Believed pace fields j k → recorded j ≡ Some k)
        → Due pace fields i n → recorded i ≡ Some n }
{}

/// If the disc ran on around a field that shows the number that it has, and what fits that weighs enough and more
/// than all that was misread there, it is believed.
#[tactic(auto, using(crate::proofs::Truth::complete))]
pub fn complete()
    ensures { (pace : Pace) (recorded : ℕ → Option ℕ) (fields : List Sightings) (i m : ℕ)
        → RunsOn pace recorded i → recorded i ≡ Some m → Shows (slice_get fields i) m
        → enough ≤ support_of pace fields i m → wrong_weight recorded fields i < support_of pace fields i m
        → Believed pace fields i m }
{}

/// There are discs that run on and are regular, at either pace, with a number in the first field of each picture.
#[tactic(auto, using(crate::proofs::Discs::regular_discs))]
pub fn discs_run()
    ensures video { (i : ℕ) → RunsOn Video video_disc i }
    ensures video_regular { (i : ℕ) → IsRegular Video video_disc i }
    ensures film { (i : ℕ) → RunsOn Film film_disc i }
    ensures film_regular { (i : ℕ) → IsRegular Film film_disc i }
    ensures film_turns { TakesTurns film_disc }
{}

/// A capture of film that is read whole: three pictures with their numbers on both lines.
#[tactic(auto, using(crate::proofs::Worked::whole_film))]
pub fn worked_capture()
    ensures { IsWhole Film film_disc film_side }
{}

/// The premise of `sound` can be met, and it is sharp. With wrong readings of weight 9 around a field its number is
/// believed. With wrong ones of weight 10 a wrong number is believed if the right one wasn't read.
#[tactic(auto, using(crate::proofs::Worked::sides))]
pub fn worked_sides()
    ensures sound { IsSound Video video_disc wrong_by_9 4 2 }
    ensures nine { wrong_weight video_disc wrong_by_9 4 ≡ 9 }
    ensures right { Believed Video wrong_by_9 4 2 }
    ensures ten { wrong_weight video_disc wrong_by_10 4 ≡ 10 }
    ensures wrong { Believed Video wrong_by_10 4 102 }
{}

/// Of a field at most one number is believed, at most one is due, and there is one answer. Of a capture one pace is
/// found.
#[tactic(auto, using(crate::proofs::Ahead::one_believed, crate::proofs::DueLemmas::one_due))]
pub fn one_of_each()
    ensures believed { (pace : Pace) (fields : List Sightings) (i m n : ℕ)
        → Believed pace fields i m → Believed pace fields i n → m ≡ n }
    ensures due { (pace : Pace) (fields : List Sightings) (i m n : ℕ)
        → Due pace fields i m → Due pace fields i n → m ≡ n }
    ensures answer { (pace : Pace) (fields : List Sightings) (i : ℕ) (one other : Number)
        → IsAnswer pace fields i one → IsAnswer pace fields i other → one ≡ other }
    ensures pace { (system : System) (counted : Counted) (fields : List Sightings) (one other : Pace)
        → IsFound system counted fields one → IsFound system counted fields other → one ≡ other }
{}

/// A field is known to have just the number that is believed of it or due in it, so that a search finds no other.
pub fn known_numbers()
    ensures { (pace : Pace) (fields : List Sightings) (i n : ℕ) (answer : Number) → IsAnswer pace fields i answer
        → IsKnown answer n ↔ (Believed pace fields i n ⊎ Due pace fields i n) }
{}

/// The pace of a disc that runs on and is read whole is found, if enough supports each number at that pace; of film,
/// if its pictures take turns and one number is shown. In a few fields too little supports a number: six fields of
/// video with a number on each are taken for film.
pub fn whole_found()
    ensures video { (system : System) (counted : Counted) (recorded : ℕ → Option ℕ) (fields : List Sightings)
        (pace : Pace) → IsWhole Video recorded fields → IsFound system counted fields pace → pace ≡ Video }
    ensures film { (recorded : ℕ → Option ℕ) (fields : List Sightings) (i n : ℕ) (pace : Pace)
        → IsWhole Film recorded fields → TakesTurns recorded → Shows (slice_get fields i) n
        → IsFound Ntsc Pictures fields pace → pace ≡ Film }
{}

/// When film is found, by the numbers that are believed at either pace.
pub fn worked_paces()
    ensures equal { map (pace_by 10) (0 ∷ 10 ∷ 11 ∷ 12 ∷ []) ≡ Video ∷ Video ∷ Video ∷ Film ∷ [] }
    ensures many { map (pace_by 1000) (1000 ∷ 1100 ∷ 1101 ∷ 2000 ∷ []) ≡ Video ∷ Video ∷ Film ∷ Film ∷ [] }
    ensures none { map (pace_by 0) (0 ∷ 1 ∷ []) ≡ Video ∷ Film ∷ [] }
{}

/// A number is never believed for its own field alone: another field within reach shows one that fits it, or that is of
/// one still with it.
#[tactic(auto, using(crate::proofs::Truth::never_alone))]
pub fn never_alone()
    ensures { (pace : Pace) (fields : List Sightings) (i n : ℕ) → Believed pace fields i n
        → (j m : ℕ) × (j ≢ i) × IsNear i j × Shows (slice_get fields j) m
        × ((fits pace i n j m ≡ true) ⊎ (stays i n j m ≡ true)) }
{}

/// Two captures that agree on the fields within reach of one believe the same of it. If they agree on those within
/// twice that, the same is due in it. So a capture that goes on changes no more than its last 24 fields, and 48.
#[tactic(auto, using(crate::proofs::Truth::only_near, crate::proofs::DueLemmas::due_near))]
pub fn only_near()
    ensures believed { (pace : Pace) (fields others : List Sightings) (i n : ℕ)
        → ((j : ℕ) → IsNear i j → slice_get fields j ≡ slice_get others j)
        → Believed pace fields i n → Believed pace others i n }
    ensures due { (pace : Pace) (fields others : List Sightings) (i n : ℕ)
        → ((j : ℕ) → i ≤ j + 48 → j ≤ i + 48 → slice_get fields j ≡ slice_get others j)
        → Due pace fields i n → Due pace others i n }
{}

/// What is answered of a field is the same from a part of its capture that has the 48 fields before it and the 48
/// after it, or all that the capture has there.
pub fn same_in_part()
    ensures { (pace : Pace) (whole part : List Sightings) (first i : ℕ) (answer : Number)
        → IsPart Sightings whole part first i → IsAnswer pace part i answer ↔ IsAnswer pace whole (first + i) answer }
{}

/// The number that a line shows is that of the words on it and on line 16: if it is another than what was recorded,
/// one of these two words is another.
#[tactic(auto, using(crate::proofs::SameWords::same_words))]
pub fn same_words()
    ensures { (system : System) (counted : Counted) (line_16 line recorded_16 recorded : Shown)
        → line_16.word ≡ recorded_16.word → line.word ≡ recorded.word
        → number_from system counted (code_in line_16) (code_in line)
        ≡ number_from system counted (code_in recorded_16) (code_in recorded) }
{}

/// What was misread around a field weighs in numbers no more than in words, line 16 of a time counting for both lines
/// beside it. So if the disc ran on around a field and the misread words of lines 16, 17 and 18 weigh less than
/// enough, a believed number is the one that the words on the disc tell; in a field without one it fits one that was
/// recorded near it and read; and so of a still, if they weigh 4 less.
pub fn misread_words()
    ensures weight { (capture : Capture) (i : ℕ) → AreTold capture
        → wrong_weight capture.recorded (sightings_in capture) i
        ≤ misread_weight capture.counted capture.lines capture.disc i }
    ensures sound { (pace : Pace) (capture : Capture) (i m n : ℕ) → IsRead pace capture i m
        → Believed pace (sightings_in capture) i n → n ≡ m }
    ensures near { (pace : Pace) (capture : Capture) (i n : ℕ) → AreTold capture → RunsOn pace capture.recorded i
        → misread_weight capture.counted capture.lines capture.disc i < enough
        → Believed pace (sightings_in capture) i n
        → (j m : ℕ) × IsNear i j × (capture.recorded j ≡ Some m) × Shows (slice_get (sightings_in capture) j) m
        × (fits pace i n j m ≡ true) }
    ensures still { (capture : Capture) (i m n : ℕ) → AreTold capture → StandsStill capture.recorded i m
        → misread_weight capture.counted capture.lines capture.disc i + field_most < enough
        → Believed Video (sightings_in capture) i n → n ≡ m }
{}

/// The numbers that fields show by the words of their lines 16, 17 and 18, written down by hand; 0 stands for no word.
#[tactic(auto, unfolding(vbi_words::specs::Codes::code_of))]
pub fn worked_numbers()
    ensures cav { told_by Ntsc Pictures 0 0xF12345 0xF12345 ∷ told_by Pal Pictures 0 0xF00001 0
        ∷ told_by Pal Pictures 0x8AE712 0 0xFF9999 ∷ told_by Ntsc Pictures 0xF12345 0x82CFFF 0
        ∷ told_by Pal Pictures 0 0xF12345 0x835DDD ∷ told_by Ntsc Pictures 0 0x88FFFF 0x88FFFF
        ∷ told_by Pal Pictures 0 0 0x80EEEE ∷ told_by Ntsc Pictures 0x8AE712 0xF0DD59 0
        ∷ told_by Ntsc Pictures 0 0xF12345 0x800DDD ∷ told_by Pal Pictures 0 0xF00000 0x801DDD
        ∷ told_by Ntsc Pictures 0 0x8AE712 0xF12345 ∷ told_by Pal Pictures 0x8AE712 0x8AE712 0xF12345 ∷ []
        ≡ field_of 12345 2 12345 2 ∷ field_of 1 2 0 0
        ∷ field_of 0 0 79999 2 ∷ field_of 0 0 0 0
        ∷ instead_of 12345 2 0 0 ∷ instead_of 0 0 0 0
        ∷ instead_of 0 0 0 0 ∷ instead_of 0 0 0 0
        ∷ instead_of 12345 2 0 0 ∷ instead_of 0 2 0 0
        ∷ field_of 0 0 12345 2 ∷ field_of 0 0 12345 2 ∷ [] }
    ensures clv_ntsc { map (told_by Ntsc Times 0x8AE712 0xF0DD59) (0xF0DD59 ∷ 0 ∷ 0x835DDD ∷ 0xF12345 ∷ [])
        ≡ field_of 106422 2 106422 2 ∷ field_of 106422 2 0 0 ∷ instead_of 106422 2 0 0 ∷ instead_of 106422 2 0 0 ∷ [] }
    ensures ntsc_counts { map (λ line_16. told_by Ntsc Times line_16 0xF1DD23 0)
        (0x8AE000 ∷ 0x8AE024 ∷ 0x8AE025 ∷ 0x8AE029 ∷ 0x8AE030 ∷ 0x8EE524 ∷ 0x8FE929 ∷ 0 ∷ 0xF1DD23 ∷ [])
        ≡ field_of 149400 2 0 0 ∷ field_of 149424 2 0 0 ∷ field_of 149425 2 0 0 ∷ field_of 149429 2 0 0
        ∷ field_of 0 0 0 0 ∷ field_of 150774 2 0 0 ∷ field_of 151199 2 0 0 ∷ field_of 0 0 0 0 ∷ field_of 0 0 0 0 ∷ [] }
    ensures pal_counts { map (λ line_16. told_by Pal Times line_16 0xF1DD23 0)
        (0x8AE000 ∷ 0x8AE024 ∷ 0x8AE025 ∷ 0x8AE029 ∷ 0x8AE030 ∷ 0x8EE524 ∷ 0x8FE924 ∷ [])
        ≡ field_of 124500 2 0 0 ∷ field_of 124524 2 0 0 ∷ field_of 0 0 0 0 ∷ field_of 0 0 0 0 ∷ field_of 0 0 0 0
        ∷ field_of 125649 2 0 0 ∷ field_of 125999 2 0 0 ∷ [] }
    ensures minutes { map (λ line_17. told_by Pal Times 0x8FE924 line_17 0)
        (0xF0DD00 ∷ 0xF0DD59 ∷ 0xF0DD60 ∷ 0xF1DD00 ∷ 0xF9DD59 ∷ 0xF9DD60 ∷ [])
        ≡ field_of 1499 2 0 0 ∷ field_of 89999 2 0 0 ∷ field_of 0 0 0 0 ∷ field_of 91499 2 0 0 ∷ field_of 899999 2 0 0
        ∷ field_of 0 0 0 0 ∷ [] }
    ensures passes { sightings_of Ntsc Pictures (shown_in 2 0) (shown_in 2 0xF12345) (shown_in 1 0xF12345)
        ∷ sightings_of Ntsc Times (shown_in 1 0x8AE712) (shown_in 2 0xF0DD59) (shown_in 1 0xF0DD59)
        ∷ sightings_of Ntsc Times (shown_in 2 0x8AE712) (shown_in 1 0xF0DD59) (shown_in 1 0xF0DD59)
        ∷ sightings_of Pal Pictures (shown_in 1 0) (shown_in 3 0xF12345) (shown_in 4 0xF12345)
        ∷ sightings_of Pal Times (shown_in 3 0x8AE712) (shown_in 3 0xF0DD59) (shown_in 2 0xF0DD59) ∷ []
        ≡ field_of 12345 1 12345 2 ∷ field_of 106422 1 106422 2 ∷ field_of 106422 1 106422 1
        ∷ field_of 12345 1 12345 2 ∷ field_of 88687 1 88687 1 ∷ [] }
{}

/// The numbers that codes of times tell at either system's rate: also those of the last pictures of hours 0 and 9, and
/// of a minute 60, which is none.
pub fn worked_times()
    ensures ntsc { map (λ line_16. number_from Ntsc Times line_16 (Some (Time 1 23)))
        (Some (ClvPicture 0 0) ∷ Some (ClvPicture 0 29) ∷ Some (ClvPicture 0 30) ∷ Some (ClvPicture 59 29) ∷ None ∷ [])
        ≡ Some 149400 ∷ Some 149429 ∷ None ∷ Some 151199 ∷ None ∷ [] }
    ensures pal { map (λ line_16. number_from Pal Times line_16 (Some (Time 1 23)))
        (Some (ClvPicture 0 0) ∷ Some (ClvPicture 0 24) ∷ Some (ClvPicture 0 25) ∷ Some (ClvPicture 59 24) ∷ None ∷ [])
        ≡ Some 124500 ∷ Some 124524 ∷ None ∷ Some 125999 ∷ None ∷ [] }
    ensures minutes { map (number_from Pal Times (Some (ClvPicture 59 24)))
        (Some (Time 0 59) ∷ Some (Time 0 60) ∷ Some (Time 9 59) ∷ None ∷ [])
        ≡ Some 89999 ∷ None ∷ Some 899999 ∷ None ∷ [] }
{}

/// What a number weighs by the passes of its lines: of a time by the lighter one.
pub fn worked_weights()
    ensures weights { map pass_weight (0 ∷ 1 ∷ 2 ∷ 3 ∷ 4 ∷ []) ≡ 2 ∷ 2 ∷ 1 ∷ 1 ∷ 2 ∷ [] }
    ensures lighter { map (λ pass. number_weight Times (shown_in pass 0) (shown_in 1 0)) (1 ∷ 2 ∷ []) ≡ 2 ∷ 1 ∷ [] }
    ensures lighter_line { map (λ pass. number_weight Times (shown_in 1 0) (shown_in pass 0)) (1 ∷ 2 ∷ [])
        ≡ 2 ∷ 1 ∷ [] }
    ensures own { map (λ pass. number_weight Pictures (shown_in 2 0) (shown_in pass 0)) (1 ∷ 2 ∷ []) ≡ 2 ∷ 1 ∷ [] }
{}

/// The codes that stand in place of a number.
pub fn worked_instead()
    ensures instead { map (is_instead Pictures)
        (Some (Chapter 0) ∷ Some LeadIn ∷ Some LeadOut ∷ Some (Time 0 0) ∷ Some (Picture 0) ∷ Some ClvMark ∷ None ∷ [])
        ≡ true ∷ true ∷ true ∷ true ∷ false ∷ false ∷ false ∷ [] }
    ensures instead_of_times { map (is_instead Times)
        (Some (Chapter 0) ∷ Some LeadIn ∷ Some LeadOut ∷ Some (Time 0 0) ∷ Some (Picture 0) ∷ Some ClvMark ∷ None ∷ [])
        ≡ true ∷ true ∷ true ∷ false ∷ true ∷ false ∷ false ∷ [] }
{}

/// When two numbers fit, at each edge: number 100 in field 10, and the fields in which another one fits it.
pub fn worked_fits()
    ensures video { map (λ j. fits Video 10 100 j 101) (11 ∷ 12 ∷ 13 ∷ []) ≡ false ∷ true ∷ false ∷ [] }
    ensures video_back { map (λ j. fits Video 10 100 j 96) (1 ∷ 2 ∷ 3 ∷ []) ≡ false ∷ true ∷ false ∷ [] }
    ensures film { map (λ j. fits Film 10 100 j 101) (11 ∷ 12 ∷ 13 ∷ 14 ∷ []) ≡ false ∷ true ∷ true ∷ false ∷ [] }
    ensures film_two { map (λ j. fits Film 10 100 j 102) (13 ∷ 14 ∷ 15 ∷ 16 ∷ 17 ∷ [])
        ≡ false ∷ true ∷ true ∷ true ∷ false ∷ [] }
    ensures film_back { map (λ j. fits Film 10 100 j 97) (1 ∷ 2 ∷ 3 ∷ 4 ∷ []) ≡ false ∷ true ∷ true ∷ false ∷ [] }
    ensures nearly { map (λ j. nearly Video 1 (spot 10 100) (spot j 101)) (10 ∷ 11 ∷ 12 ∷ 13 ∷ 14 ∷ [])
        ≡ false ∷ true ∷ true ∷ true ∷ false ∷ [] }
{}

/// When two numbers are of one still: number 100 in field 10, and again an even number of fields away. A still loses 4
/// of its weight.
pub fn worked_stills()
    ensures still { map (λ j. stays 10 100 j 100) (8 ∷ 9 ∷ 10 ∷ 11 ∷ 34 ∷ [])
        ≡ true ∷ false ∷ true ∷ false ∷ true ∷ [] }
    ensures still_of_one { map (stays 10 100 12) (99 ∷ 100 ∷ 101 ∷ []) ≡ false ∷ true ∷ false ∷ [] }
    ensures most { field_most ≡ 4 }
{}

/// Others count within 24 fields, and a weight of 10 is enough. Between numbers at most 8 fields apart others may be a
/// field off.
pub fn worked_bounds()
    ensures reach { reach ≡ 24 }
    ensures enough { enough ≡ 10 }
    ensures slack { map (slack_of 0) (2 ∷ 8 ∷ 9 ∷ 48 ∷ []) ≡ 1 ∷ 1 ∷ 0 ∷ 0 ∷ [] }
{}

/// What supports a number: others within 24 fields, on either side, and not further; of a still all but the weight of
/// one field.
#[tactic(auto, unfolding(crate::specs::Beliefs::weight_below))]
pub fn worked_support()
    ensures reach { (support_of Film (apart_by 24) 0 0 ≡ 4) × (support_of Film (apart_by 24) 24 10 ≡ 4)
        × (support_of Film (apart_by 25) 0 0 ≡ 2) × (support_of Film (apart_by 25) 25 10 ≡ 2) }
    ensures stood { map (λ pictures. support_of Video (still_of pictures) 0 5) (2 ∷ 3 ∷ 6 ∷ 7 ∷ [])
        ≡ 2 ∷ 2 ∷ 8 ∷ 10 ∷ [] }
{}
