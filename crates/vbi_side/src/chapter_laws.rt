//! Laws of the definitions of `specs/Chapters.antt`. A function here does nothing: its contract is a law, which holds
//! of every capture.

ghost use Rattle.std.specs.Prelude.{◌≡◌, ℕ, ◌<◌, ◌≤◌, List, [], ◌∷◌, map, Option, Some, slice_get};
ghost use Rattle.vbi_side.specs.Chapters.{chapter_of, said_weight, BelievedChapter, IsChapter, IsSoundChapter};
ghost use Rattle.vbi_side.specs.WorkedChapters.{said_by_10, said_by_9, said_to_24, said_to_25, said_from_24};
ghost use Rattle.vbi_side.specs.WorkedChapters.{said_from_25, opposed_by_9, opposed_before_by_9, falling, rising};
ghost use Rattle.vbi_side.specs.WorkedChapters.{opposed_in_its_field, rising_at_both, rising_to_8, IsDoubted, line_of};
ghost use Rattle.vbi_side.specs.{Types.Number, Types.Sightings, Sightings.Shows, Beliefs.enough, Truth.IsNear};
ghost use Rattle.vbi_side.specs.{Truth.wrong_weight, Chapters.NeverFalls, WorkedChapters.said};

/// If the chapters misread around a field weigh less than enough, a believed one stands on the disc near the field;
/// and if enough codes before a field and after it say one chapter, no other is believed.
#[tactic(auto, using(crate::proofs::ChapterTruth::sound))]
pub fn chapters_sound()
    ensures { (recorded : ℕ → Option ℕ) (fields : List Sightings) (i n : ℕ)
        → BelievedChapter fields i n → IsSoundChapter recorded fields i n }
{}

/// If the chapters of a disc never fall around a field, what was misread there weighs less than enough, and enough
/// codes say the field's own chapter, it is believed wherever the field shows it, unless as many say another one that
/// the field shows.
#[tactic(auto, using(crate::proofs::ChapterTruth::complete))]
pub fn chapters_complete()
    ensures { (recorded : ℕ → Option ℕ) (fields : List Sightings) (i m : ℕ)
        → NeverFalls recorded i → recorded i ≡ Some m → wrong_weight recorded fields i < enough
        → Shows (slice_get fields i) m → enough ≤ said_weight fields i m
        → ((k : ℕ) → Shows (slice_get fields i) k → (k ≡ m → ⊥) → said_weight fields i k < said_weight fields i m)
        → BelievedChapter fields i m }
{}

/// At most one chapter is believed of a field, and there is one answer of it about its chapter.
#[tactic(auto, using(crate::proofs::ChapterAnswers::one_chapter, crate::proofs::ChapterAnswers::one_answer))]
pub fn one_chapter()
    ensures believed { (fields : List Sightings) (i m n : ℕ)
        → BelievedChapter fields i m → BelievedChapter fields i n → m ≡ n }
    ensures answer { (fields : List Sightings) (i : ℕ) (one other : Number)
        → IsChapter fields i one → IsChapter fields i other → one ≡ other }
{}

/// Two captures that agree on the fields within reach of one believe the same chapter of it.
#[tactic(auto, using(crate::proofs::ChapterTruth::only_near))]
pub fn chapters_only_near()
    ensures { (fields others : List Sightings) (i n : ℕ)
        → ((j : ℕ) → IsNear i j → slice_get fields j ≡ slice_get others j)
        → BelievedChapter fields i n → BelievedChapter others i n }
{}

/// What words say: chapters from 0 to 79, which weigh half in passes 2 and 3; no other code is one.
#[tactic(auto, unfolding(vbi_words::specs::Codes::code_of))]
pub fn worked_codes()
    ensures chapters { map chapter_of (
        line_of 0x800DDD 1 ∷ line_of 0x807DDD 1 ∷ line_of 0x819DDD 1 ∷ line_of 0x879DDD 1 ∷ line_of 0x887DDD 1 ∷ [])
        ≡ said 0 2 ∷ said 7 2 ∷ said 19 2 ∷ said 79 2 ∷ said 7 2 ∷ [] }
    ensures passes { map chapter_of (line_of 0x807DDD 2 ∷ line_of 0x807DDD 3 ∷ []) ≡ said 7 1 ∷ said 7 1 ∷ [] }
    ensures others { map chapter_of (
        line_of 0x82CFFF 1 ∷ line_of 0x87FFFF 1 ∷ line_of 0x88FFFF 1 ∷ line_of 0xF00007 1 ∷ line_of 0xF0DD07 1 ∷ [])
        ≡ said 0 0 ∷ said 0 0 ∷ said 0 0 ∷ said 0 0 ∷ said 0 0 ∷ [] }
{}

/// The edges of the rule: what weighs 10 is enough, and 9 isn't; 24 fields are within reach, and 25 aren't; a chapter
/// may have 9 against it, and not 10; if chapters rise, the first field of one is believed; and of two chapters of a
/// field the one that more codes say.
pub fn worked_chapters()
    ensures enough { BelievedChapter said_by_10 0 7 × IsDoubted said_by_9 0 }
    ensures after { BelievedChapter said_to_24 0 7 × IsDoubted said_to_25 0 }
    ensures before { BelievedChapter said_from_24 24 7 × IsDoubted said_from_25 25 }
    ensures opposed { BelievedChapter opposed_by_9 4 7 × BelievedChapter opposed_before_by_9 5 3 }
    ensures falls { IsDoubted falling 4 × IsDoubted falling 5 }
    ensures in_field { IsDoubted opposed_in_its_field 0 }
    ensures rises { BelievedChapter rising 4 7 × BelievedChapter rising 5 8 }
    ensures both { IsDoubted rising_at_both 5 × BelievedChapter rising_to_8 5 8 }
{}

/// The premise of `chapters_sound` can be met, and it is sharp: with misread codes of weight 9 the disc's chapter is
/// believed, and with those of weight 10 one that the disc hasn't.
pub fn worked_misread()
    ensures nine { wrong_weight (λ j. Some 7) opposed_by_9 4 ≡ 9 }
    ensures right { BelievedChapter opposed_by_9 4 7 }
    ensures ten { wrong_weight (λ j. Some 3) said_by_10 0 ≡ 10 }
    ensures wrong { BelievedChapter said_by_10 0 7 }
{}
