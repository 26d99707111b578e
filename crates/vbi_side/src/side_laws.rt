//! Laws of the definitions of `specs/Side.antt`. A function here does nothing: its contract is a law, which holds of
//! every capture of video whose fields stand in the disc's order.

ghost use Rattle.std.specs.Prelude.{◌≡◌, ℕ, ◌+◌, ◌*◌, ◌-◌, ◌≤◌, true, List, Option, Some, ◌/◌, nat_le, if◌then◌else◌};
ghost use Rattle.vbi_side.specs.Side.{DiscRuns, DiscCounts, Rises, captured, Lacks, NoneLost, AreLost, IsAnchor};
ghost use Rattle.vbi_side.specs.{Types.Number, Types.Sightings, Types.Video, Types.Film, Numbers.AreAnswers};
ghost use Rattle.vbi_side.specs.{Beliefs.reach, Paces.fits, Truth.IsNear, Truth.video_disc, Side.IsLost};

/// If two believed numbers at least 48 fields apart count to each other, no field of the disc is lost between them,
/// but maybe within 24 fields of either: the capture lacks none, nor a picture that the disc has there.
pub fn none_lost()
    ensures in_order { (disc : ℕ → Option ℕ) (place : ℕ → ℕ) (fields : List Sightings) (i m j n : ℕ)
        → DiscRuns Video disc → Rises place → IsAnchor Video (captured disc place) fields i m
        → IsAnchor Video (captured disc place) fields j n → i + 2 * reach ≤ j → j + 2 * m ≡ i + 2 * n
        → NoneLost place (i + reach) (j - reach) }
    ensures lacks { (place : ℕ → ℕ) (i j d : ℕ) → NoneLost place i j → i ≤ j → place i ≤ d → d ≤ place j
        → Lacks place d → ⊥ }
    ensures pictures { (disc : ℕ → Option ℕ) (place : ℕ → ℕ) (i j d n : ℕ) → NoneLost place i j → i ≤ j → place i ≤ d
        → d ≤ place j → disc d ≡ Some n → IsLost disc place n → ⊥ }
{}

/// If two believed numbers count to this many fields more than lie between them, this many of the disc's fields are
/// lost between two fields of which one is within 24 fields of each.
pub fn some_lost()
    ensures { (disc : ℕ → Option ℕ) (place : ℕ → ℕ) (fields : List Sightings) (i m j n lost : ℕ)
        → DiscRuns Video disc → Rises place → IsAnchor Video (captured disc place) fields i m
        → IsAnchor Video (captured disc place) fields j n → i + 2 * reach ≤ j → j + 2 * m + lost ≡ i + 2 * n
        → (p q : ℕ) × IsNear i p × IsNear j q × AreLost place p q lost }
{}

/// On a disc that may have a number on both fields of its picture as many are lost, to within one field.
pub fn nearly_lost()
    ensures { (disc : ℕ → Option ℕ) (place : ℕ → ℕ) (fields : List Sightings) (slack i m j n more : ℕ) → slack ≤ 1
        → DiscCounts slack disc → Rises place → IsAnchor Video (captured disc place) fields i m
        → IsAnchor Video (captured disc place) fields j n → i + 2 * reach ≤ j → j + 2 * m + more ≡ i + 2 * n
        → (p q lost : ℕ) × IsNear i p × IsNear j q × AreLost place p q lost × (lost ≤ more + slack)
        × (more ≤ lost + slack) }
{}

/// Film fits to within a field: between two believed numbers that fit at most 4 fields are lost.
#[tactic(auto, using(crate::proofs::Sides::film))]
pub fn few_lost_of_film()
    ensures { (disc : ℕ → Option ℕ) (place : ℕ → ℕ) (fields : List Sightings) (i m j n : ℕ)
        → DiscRuns Film disc → Rises place → IsAnchor Film (captured disc place) fields i m
        → IsAnchor Film (captured disc place) fields j n → i + 2 * reach ≤ j → fits Film i m j n ≡ true
        → (p q lost : ℕ) × IsNear i p × IsNear j q × AreLost place p q lost × (lost ≤ 4) }
{}

/// There are discs that count so, with a number in the first field of each picture or in both, and captures that lack a
/// field.
#[tactic(auto, using(crate::proofs::Anchors::discs))]
pub fn sides_are()
    ensures video { DiscRuns Video video_disc }
    ensures both { DiscCounts 1 (λ j. Some (j / 2)) }
    ensures skips { Rises (λ i. if nat_le 100 i then i + 1 else i) }
{}
