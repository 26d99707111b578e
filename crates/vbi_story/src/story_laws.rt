//! Laws of stories: each function here has an empty body, and its contract is a theorem.

ghost use Rattle.std.specs.Prelude.{◌≡◌, ◌≢◌, ℕ, ◌+◌, ◌*◌, ◌<◌, ◌≤◌, List, [], ◌∷◌, ◌++◌, Bool, true, false, length};
ghost use Rattle.std.specs.Prelude.{slice_index};
ghost use Rattle.vbi_story.specs.declared.reading.NumberReading.{NumberReading};
ghost use Rattle.vbi_story.specs.Story.{Each, IsAmong, IsStory, IsBest, weight, price, near, far, is_near, row_price};
ghost use Rattle.vbi_story.specs.Story.{Ascends, reading_at};
ghost use Rattle.vbi_story.specs.Rivals.{AreBounds};
ghost use Rattle.vbi_story.specs.Beliefs.{IsBelieved, IsFarBehind, group_enough};
ghost use Rattle.vbi_story.specs.Stretches.{reading, IsOn, IsOff, between, RanOn, AreLighter, AreFarOff, IsHeard};
ghost use Rattle.vbi_story.specs.Stretches.{AreOfVideo, RunsOn};

/// Let readings be right or wrong by any test. If whatever is wrong between two right readings of a stretch is outdone
/// by right ones, all that the best story tells between two right readings of the stretch is right.
pub fn sound_of()
    ensures { (is_right : NumberReading → Bool) (readings before middle after : List NumberReading)
        (a b : NumberReading) (from to : ℕ)
        → IsHeard is_right readings from to → IsBest readings (before ++ a ∷ (middle ++ b ∷ after))
        → is_right a ≡ true → is_right b ≡ true → from ≤ a.field → b.field ≤ to
        → Each (λ r. is_right r ≡ true) middle }
{}

/// If what is misread in a stretch is outweighed, whatever the best story tells between two true readings of it is
/// true.
pub fn sound()
    ensures { (readings before middle after : List NumberReading) (a b : NumberReading) (row from to : ℕ)
        → RanOn readings row from to → IsBest readings (before ++ a ∷ (middle ++ b ∷ after))
        → IsOn row a → IsOn row b → from ≤ a.field → b.field ≤ to → Each (IsOn row) middle }
{}

/// In a stretch what is misread is outweighed if no story of misread readings there weighs as much as two near steps,
/// or, where all of them are far off, as two far ones.
pub fn few_misread()
    ensures near { (readings : List NumberReading) (row from to : ℕ) → AreLighter readings row from to (2 * near)
        → RanOn readings row from to }
    ensures far { (readings : List NumberReading) (row from to : ℕ) → AreLighter readings row from to (2 * far)
        → AreFarOff readings row from to → RanOn readings row from to }
{}

/// On a disc of video that ran on in a stretch whose misread readings are outweighed, each number that the best story
/// tells between two of the disc's own is the one that the disc has in its field.
pub fn sound_numbers()
    ensures { (readings before middle after : List NumberReading) (a b : NumberReading) (row from to big : ℕ)
        (recorded : ℕ → ℕ)
        → AreOfVideo big readings → RunsOn big recorded row from to → RanOn readings row from to
        → IsBest readings (before ++ a ∷ (middle ++ b ∷ after)) → from ≤ a.field → b.field ≤ to
        → a.number ≡ recorded a.field → b.number ≡ recorded b.field
        → Each (λ r. r.number ≡ recorded r.field) middle }
{}

/// If the best story tells two readings of one row, one after the other, no reading of that row between their fields
/// weighs anything: none is left out.
pub fn complete()
    ensures { (readings before after : List NumberReading) (a b r : NumberReading) (row : ℕ)
        → IsBest readings (before ++ a ∷ b ∷ after) → IsOn row a → IsOn row b → IsOn row r → IsAmong readings r
        → a.field < r.field → r.field < b.field → r.weight ≡ 0 }
{}

/// What the best story tells in the place of readings of one row weighs at most two far steps less than these. So of
/// a run that outweighs by more what is misread there, some reading is told.
pub fn heard()
    ensures { (readings before middle after right : List NumberReading) (row : ℕ)
        → IsBest readings (before ++ (middle ++ after)) → IsStory readings (before ++ (right ++ after))
        → Each (IsOn row) right → weight right ≤ weight middle + 2 * far }
{}

/// What it costs to leave a row and to come back: two steps to a near row at least, and two far ones if nothing of
/// what is told there is near.
pub fn leaving()
    ensures near { (row : ℕ) (a b : NumberReading) (wrong : List NumberReading) → IsOn row a → IsOn row b
        → Each (IsOff row) wrong → wrong ≢ [] → 2 * near ≤ price (between a wrong b) }
    ensures far { (row : ℕ) (a b : NumberReading) (wrong : List NumberReading) → IsOn row a → IsOn row b
        → Each (IsOff row) wrong → Each (λ r. is_near r.row row ≡ false) wrong → wrong ≢ []
        → 2 * far ≤ price (between a wrong b) }
{}

/// Two stories that are each the best are worth the same.
pub fn one_worth()
    ensures { (readings one other : List NumberReading) → IsBest readings one → IsBest readings other
        → weight one + price other ≡ weight other + price one }
{}

/// If the stories through a reading are worth less than a best one, no best story tells it. So where all rivals of a
/// field are worth less, it has one number in all best stories, or none.
pub fn sure()
    ensures { (readings told before after : List NumberReading) (bounds : List ℕ) (i : ℕ) → IsBest readings told
        → AreBounds readings bounds → i < length readings → slice_index bounds i + price told < weight told
        → IsBest readings (before ++ reading_at readings i ∷ after) → ⊥ }
{}

/// Nothing false is believed between two true readings that are told, unless what is misread there weighs more than
/// 10: as much as two near steps cost, and the margin. Where all of it is far off, it has to weigh 23.
pub fn believed_is_true()
    ensures near { (readings told : List NumberReading) (row from to i j k : ℕ)
        → IsBest readings told → i < j → j < k → k < length told
        → IsOn row (reading_at told i) → IsOn row (reading_at told k)
        → from ≤ (reading_at told i).field → (reading_at told k).field ≤ to
        → AreLighter readings row from to 11 → IsBelieved readings told j → IsOn row (reading_at told j) }
    ensures far { (readings told : List NumberReading) (row from to i j k : ℕ)
        → IsBest readings told → i < j → j < k → k < length told
        → IsOn row (reading_at told i) → IsOn row (reading_at told k)
        → from ≤ (reading_at told i).field → (reading_at told k).field ≤ to
        → AreLighter readings row from to 23 → AreFarOff readings row from to
        → IsBelieved readings told j → IsOn row (reading_at told j) }
{}

/// Where two stories are both the best, a number that is believed in the one has no rival in the other: of two misread
/// numbers of a field of which the stories are worth the same, neither is believed.
pub fn believed_is_sure()
    ensures { (readings told before after : List NumberReading) (q : NumberReading) (j : ℕ)
        → IsStory readings told → IsBest readings (before ++ q ∷ after) → IsBelieved readings told j
        → q.field ≡ (reading_at told j).field → q.number ≡ (reading_at told j).number }
{}

/// Prices at their edges, and a story written down by hand: two readings of a row, one three rows off, one far off.
pub fn worked()
    ensures stays { row_price 100 100 ≡ 0 }
    ensures near { (row_price 100 101 ≡ 3) × (row_price 100 106 ≡ 3) × (row_price 106 100 ≡ 3) }
    ensures far { (row_price 100 107 ≡ 10) × (row_price 107 100 ≡ 10) }
    ensures story { let told = reading 0 50 4 ∷ reading 2 50 2 ∷ reading 4 53 4 ∷ reading 6 900 1 ∷ [] in
        (weight told ≡ 11) × (price told ≡ 13) }
    ensures order { Ascends (reading 0 50 4 ∷ reading 2 50 2 ∷ []) }
    ensures one_of_a_field { Ascends (reading 2 50 4 ∷ reading 2 50 2 ∷ []) → ⊥ }
{}

/// The weight of a group and the margin at their edges.
pub fn worked_beliefs()
    ensures enough { group_enough ≡ 10 }
    ensures behind { let told = reading 0 50 4 ∷ reading 2 50 2 ∷ [] in
        IsFarBehind (reading 5 70 1 ∷ []) told × (IsFarBehind (reading 5 70 2 ∷ []) told → ⊥) }
{}
