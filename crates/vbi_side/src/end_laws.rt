//! Laws of the definitions of `specs/Ends.antt`. A function here does nothing: its contract is a law, which holds of
//! every field.

ghost use Rattle.std.specs.Prelude.{◌≡◌, ◌↔◌, [], ◌∷◌, map};
ghost use Rattle.vbi_side.specs.Ends.{end_of, in_weight, lead_in, lead_out, out_weight};
ghost use Rattle.vbi_side.specs.{Types.LeadIn, Types.LeadOut, Types.Shown, SoundEnds.IsCodeToldSurely};
ghost use Rattle.vbi_side.specs.{SoundEnds.IsSoundCode, Worked.shown_in};

/// A field is answered to be of lead-out exactly if line 17 or 18 shows that in pass 1, or both show it; and of lead-in
/// exactly if this holds of lead-in, and not of lead-out. If the disc has it on neither line, a word of pass 1 was
/// misread there, or two words were.
pub fn ends_sound()
    ensures outs_told { (line_17 line_18 : Shown)
        → (end_of line_17 line_18 ≡ lead_out) ↔ IsCodeToldSurely LeadOut line_17 line_18 }
    ensures ins_told { (line_17 line_18 : Shown) → (end_of line_17 line_18 ≡ lead_in)
        ↔ (IsCodeToldSurely LeadIn line_17 line_18 × (IsCodeToldSurely LeadOut line_17 line_18 → ⊥)) }
    ensures outs { (line_17 line_18 : Shown) → end_of line_17 line_18 ≡ lead_out
        → IsSoundCode LeadOut line_17 line_18 }
    ensures ins { (line_17 line_18 : Shown) → end_of line_17 line_18 ≡ lead_in
        → IsSoundCode LeadIn line_17 line_18 }
{}

/// What a code of lead-out and of lead-in weighs by the pass in which it was read.
#[tactic(auto, unfolding(vbi_words::specs::Codes::code_of))]
pub fn worked_leads()
    ensures outs { map (λ pass. out_weight (shown_in pass 0x80EEEE)) (1 ∷ 2 ∷ 3 ∷ []) ≡ 2 ∷ 1 ∷ 1 ∷ [] }
    ensures ins { map (λ pass. in_weight (shown_in pass 0x88FFFF)) (1 ∷ 2 ∷ 3 ∷ []) ≡ 2 ∷ 1 ∷ 1 ∷ [] }
{}
