//! Laws of the votes. A function here does nothing: its contract is a law, which holds of every capture.

ghost use Rattle.std.specs.Prelude.{◌≡◌, ℕ, ◌/◌, ◌%◌, ◌<◌, List, [], ◌∷◌, map, Option, Some, None, slice_get};
ghost use Rattle.vbi_side.specs.Types.{System, Ntsc, Pal, Time, Times, Shown, Sightings};
ghost use Rattle.vbi_side.specs.Votes.{minute_of, part_of, votes_cast, votes_for, IsElected, time_word, Election};
ghost use Rattle.vbi_side.specs.Votes.{IsCompletedBy, IsCompleted, IsVotedSoundly, IsVotedRightly};
ghost use Rattle.vbi_side.specs.WorkedVotes.{two_to_one, two_to_two, light_to_heavy, alone, light_alone, three_to_one};
ghost use Rattle.vbi_side.specs.WorkedVotes.{in_field_4, alone_before, alone_after};
ghost use Rattle.vbi_side.specs.{Sightings.Shows, Lines.pass_weight, Lines.sighting_of, Worked.shown_in};
ghost use Rattle.vbi_words.specs.{Words.IsWord, Codes.code_of};

/// If the disc ran on within 240 fields of one, or counted by a clock and the part is right, no other number is elected
/// than the one that it counts there, if of the times that go on with the field's second and picture less weight was
/// read wrongly than rightly, or less than 4. That number is elected if less was read wrongly than rightly, and 4 or
/// more rightly.
pub fn elected_is_right()
    ensures sound { (recorded : ℕ → Option ℕ) (election : Election) (fields : List Sightings) (m n : ℕ)
        → IsVotedSoundly recorded election fields m → IsElected election fields n → n ≡ m }
    ensures complete { (recorded : ℕ → Option ℕ) (election : Election) (fields : List Sightings) (m : ℕ)
        → IsVotedRightly recorded election fields m → IsElected election fields m }
{}

/// In a field at most one number is elected.
#[tactic(auto, using(crate::proofs::RightVotes::one_elected))]
pub fn one_elected()
    ensures { (election : Election) (fields : List Sightings) (m n : ℕ)
        → IsElected election fields m → IsElected election fields n → m ≡ n }
{}

/// With the word that completes a field the line shows the number that is elected, by the weight of line 16, if it is
/// read in the pass of line 16. The word tells the hours and the minutes of its minute.
#[tactic(auto, using(crate::proofs::ToldTimes::told))]
pub fn completed_is_told()
    ensures told { (system : System) (line_16 : Shown) (fields : List Sightings) (i part m word : ℕ)
        → part_of system line_16 ≡ Some part
        → IsCompletedBy (record { minute = minute_of system; field = i; part = part }) fields m word
        → sighting_of system Times line_16 (record { word = Some word; pass = line_16.pass })
        ≡ record { number = m; weight = pass_weight line_16.pass } }
    ensures code { (minute : ℕ) → minute < 600 → code_of (time_word minute) ≡ Time (minute / 60) (minute % 60) }
    ensures word { (minute : ℕ) → minute < 600 → IsWord (time_word minute) }
{}

/// If the disc ran on within 240 fields of one, or counted by a clock and line 16 is right, a word that completes it
/// tells the number that the disc counts
/// there, if of the times that go on with its second and picture less weight was read wrongly than rightly, or less
/// than 4. If less was read wrongly than rightly, and 4 or more rightly, line 16 has the disc's second and picture, and
/// the field shows no time, it is completed by the word of the disc's minute, if that has an hour of one digit.
pub fn completed_is_right()
    ensures sound { (recorded : ℕ → Option ℕ) (system : System) (line_16 : Shown) (fields : List Sightings)
        (i part m word : ℕ) → part_of system line_16 ≡ Some part
        → IsVotedSoundly recorded (record { minute = minute_of system; field = i; part = part }) fields m
        → IsCompleted system line_16 fields i word
        → sighting_of system Times line_16 (record { word = Some word; pass = line_16.pass })
        ≡ record { number = m; weight = pass_weight line_16.pass } }
    ensures complete { (recorded : ℕ → Option ℕ) (system : System) (line_16 : Shown) (fields : List Sightings)
        (i part m : ℕ) → part_of system line_16 ≡ Some part
        → IsVotedRightly recorded (record { minute = minute_of system; field = i; part = part }) fields m
        → ((n : ℕ) → Shows (slice_get fields i) n → ⊥) → m / minute_of system < 600
        → IsCompleted system line_16 fields i (time_word (m / minute_of system)) }
{}

/// Which part of a minute line 16 shows: of NTSC 30 pictures a second, of PAL 25. The word of a minute.
#[tactic(auto, unfolding(vbi_words::specs::Codes::code_of))]
pub fn worked_parts()
    ensures ntsc { map (λ word. part_of Ntsc (shown_in 1 word))
        (0x8AE000 ∷ 0x8AE710 ∷ 0x8FE929 ∷ 0x8AE030 ∷ 0xF0DD00 ∷ 0 ∷ [])
        ≡ Some 0 ∷ Some 220 ∷ Some 1799 ∷ None ∷ None ∷ None ∷ [] }
    ensures pal { map (λ word. part_of Pal (shown_in 2 word)) (0x8AE000 ∷ 0x8AE710 ∷ 0x8FE924 ∷ 0x8AE025 ∷ [])
        ≡ Some 0 ∷ Some 185 ∷ Some 1499 ∷ None ∷ [] }
    ensures words { map time_word (0 ∷ 9 ∷ 59 ∷ 60 ∷ 83 ∷ 599 ∷ [])
        ≡ 0xF0DD00 ∷ 0xF0DD09 ∷ 0xF0DD59 ∷ 0xF1DD00 ∷ 0xF1DD23 ∷ 0xF9DD59 ∷ [] }
{}

/// Votes counted by hand: two right minutes against one wrong, two against two, four in pass 2 against two in pass 1,
/// both lines of one field with no others, in pass 1 or one in pass 2, and 3 against 1. A time 240 fields away votes,
/// one 242 fields away doesn't. PAL has another minute.
#[tactic(auto, unfolding(crate::specs::Votes::weight_of_first))]
pub fn worked_votes()
    ensures two_to_one { (votes_cast in_field_4 two_to_one ≡ 6)
        × (votes_for in_field_4 two_to_one 4300 ≡ 4)
        × (votes_for in_field_4 two_to_one 6100 ≡ 2) }
    ensures two_to_two { (votes_cast in_field_4 two_to_two ≡ 8)
        × (votes_for in_field_4 two_to_two 4300 ≡ 4) }
    ensures light { (votes_cast in_field_4 light_to_heavy ≡ 8)
        × (votes_for in_field_4 light_to_heavy 4300 ≡ 4) }
    ensures alone { (votes_cast in_field_4 alone ≡ 4) × (votes_for in_field_4 alone 4300 ≡ 4) }
    ensures light_alone { (votes_cast in_field_4 light_alone ≡ 3)
        × (votes_for in_field_4 light_alone 4300 ≡ 3) }
    ensures three_to_one { (votes_cast in_field_4 three_to_one ≡ 4)
        × (votes_for in_field_4 three_to_one 4300 ≡ 3) }
    ensures pal { votes_cast (record { minute = minute_of Pal; field = 4; part = 700 }) two_to_one ≡ 0 }
    ensures before { (votes_cast (record { minute = minute_of Ntsc; field = 240; part = 820 }) (alone_before 240) ≡ 2)
        × (votes_cast (record { minute = minute_of Ntsc; field = 242; part = 821 }) (alone_before 242) ≡ 0) }
    ensures after { (votes_cast (record { minute = minute_of Ntsc; field = 0; part = 580 }) (alone_after 240) ≡ 2)
        × (votes_cast (record { minute = minute_of Ntsc; field = 0; part = 579 }) (alone_after 242) ≡ 0) }
{}

/// Whom these votes elect: two right minutes are more than half against one wrong, two against two aren't, nor are four
/// in pass 2 against two in pass 1. Two lines of one field are enough by themselves, but not if one of them is of
/// pass 2, and a weight of 3 isn't enough against 1 either.
#[tactic(auto, using(crate::proofs::WorkedElections::elections))]
pub fn worked_elections()
    ensures two { IsElected in_field_4 two_to_one 4300 }
    ensures none { (m : ℕ) → IsElected in_field_4 two_to_two m → ⊥ }
    ensures light { (m : ℕ) → IsElected in_field_4 light_to_heavy m → ⊥ }
    ensures alone { IsElected in_field_4 alone 4300 }
    ensures light_alone { (m : ℕ) → IsElected in_field_4 light_alone m → ⊥ }
    ensures three { (m : ℕ) → IsElected in_field_4 three_to_one m → ⊥ }
{}
