//! Laws of the definitions of `specs/Stops.antt`. A function here does nothing: its contract is a law, which holds of
//! every field.

ghost use Rattle.std.specs.Prelude.{◌≡◌, ◌↔◌, ℕ, List, [], ◌∷◌, map, Option};
ghost use Rattle.vbi_side.specs.Stops.{stop_weight, BelievedStop, DoubtfulStop, NoStop, ShowsStop, IsSure};
ghost use Rattle.vbi_side.specs.Stops.{IsToldSurely, IsStopWord, IsSoundStop, IsJudgedStop};
ghost use Rattle.vbi_side.specs.{Types.Shown, Worked.shown_in};

/// A stop is believed exactly if line 16 or 17 shows it in pass 1, or both show it.
pub fn stops_in_words()
    ensures { (line_16 line_17 : Shown) → BelievedStop line_16 line_17 ↔ IsToldSurely line_16 line_17 }
{}

/// If the disc has no stop in a field, and one is believed of it, a word of pass 1 was misread there, or two words
/// were.
pub fn stops_sound()
    ensures { (line_16 line_17 : Shown) → BelievedStop line_16 line_17 → IsSoundStop line_16 line_17 }
{}

/// A stop that the disc has is believed if one of its lines was read as it is in pass 1, whatever the other one
/// shows, or both were read as they are.
pub fn stops_complete()
    ensures first { (line_16 line_17 : Shown) → IsStopWord line_16.word → IsSure line_16
        → BelievedStop line_16 line_17 }
    ensures second { (line_16 line_17 : Shown) → IsStopWord line_17.word → IsSure line_17
        → BelievedStop line_16 line_17 }
    ensures both { (line_16 line_17 : Shown) → IsStopWord line_16.word → IsStopWord line_17.word
        → BelievedStop line_16 line_17 }
{}

/// One line of pass 2 or 3 alone never makes a stop.
pub fn stops_never_alone()
    ensures first { (line_16 line_17 : Shown) → BelievedStop line_16 line_17 → (ShowsStop line_17 → ⊥)
        → IsSure line_16 }
    ensures second { (line_16 line_17 : Shown) → BelievedStop line_16 line_17 → (ShowsStop line_16 → ⊥)
        → IsSure line_17 }
{}

/// There is one answer of a field about its picture stop.
pub fn one_stop_answer()
    ensures { (line_16 line_17 : Shown) (one other : ℕ) → IsJudgedStop line_16 line_17 one
        → IsJudgedStop line_16 line_17 other → one ≡ other }
{}

/// What words weigh as stops: 82CFFF alone is one, and weighs half in passes 2 and 3.
#[tactic(auto, unfolding(vbi_words::specs::Codes::code_of))]
pub fn worked_stop_words()
    ensures passes { map (λ pass. stop_weight (shown_in pass 0x82CFFF)) (1 ∷ 2 ∷ 3 ∷ []) ≡ 2 ∷ 1 ∷ 1 ∷ [] }
    ensures others { map (λ word. stop_weight (shown_in 1 word))
        (0 ∷ 0x82CFFE ∷ 0x83CFFF ∷ 0x87FFFF ∷ 0x88FFFF ∷ 0x807DDD ∷ 0xF00007 ∷ []) ≡ 0 ∷ 0 ∷ 0 ∷ 0 ∷ 0 ∷ 0 ∷ 0 ∷ [] }
{}

/// The edges of the rule, by lines 16 and 17: one line of pass 1 is enough on either, one of pass 2 or 3 is not, and
/// two of these are.
#[tactic(auto, unfolding(vbi_words::specs::Codes::code_of))]
pub fn worked_stops()
    ensures first { BelievedStop (shown_in 1 0x82CFFF) (shown_in 1 0) }
    ensures second { BelievedStop (shown_in 1 0) (shown_in 1 0x82CFFF) }
    ensures alone_16 { DoubtfulStop (shown_in 2 0x82CFFF) (shown_in 1 0) × DoubtfulStop (shown_in 3 0x82CFFF)
        (shown_in 1 0xF00007) }
    ensures alone_17 { DoubtfulStop (shown_in 1 0) (shown_in 2 0x82CFFF) × DoubtfulStop (shown_in 1 0x8BA0A1)
        (shown_in 3 0x82CFFF) }
    ensures both { BelievedStop (shown_in 2 0x82CFFF) (shown_in 2 0x82CFFF) × BelievedStop (shown_in 2 0x82CFFF)
        (shown_in 3 0x82CFFF) × BelievedStop (shown_in 3 0x82CFFF) (shown_in 3 0x82CFFF) }
    ensures none { NoStop (shown_in 1 0) (shown_in 1 0) × NoStop (shown_in 1 0x87FFFF) (shown_in 1 0x88FFFF) }
{}
