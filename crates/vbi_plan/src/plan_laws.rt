//! Laws of plans. A function here does nothing: its contract is a law.
//!
//! `specs/Plans.antt` says stretch by stretch what makes a plan done. These laws say what that comes to: which fields
//! the file has, that each number has one stretch, that no field is taken twice, and that the file of a disc of video
//! is that disc.

ghost use Rattle.std.specs.Prelude.{◌≡◌, ◌≢◌, ℕ, ◌+◌, ◌<◌, ◌≤◌, List, length, Option, Some, None, slice_get};
ghost use Rattle.vbi_plan.specs.declared.plan.Stretch.{Stretch};
ghost use Rattle.vbi_side.specs.declared.sighting.Sightings.{Sightings};
ghost use Rattle.vbi_plan.specs.Plans.{IsDone, IsOfDisc, Plan, RiseFrom, Shows, StandsFor, Takes};
ghost use Rattle.vbi_plan.specs.Plans.{out_at, place_of, rank_at, shown};

/// The file that a plan makes has as many fields as its stretches. Each field that isn't padding shows what the field
/// of the capture shows from which it is taken, and padding shows nothing.
pub fn file_shows()
    ensures fields { (fields : List Sightings) (stretches : List Stretch)
        → length (shown fields stretches) ≡ out_at stretches (length stretches) }
    ensures taken { (fields : List Sightings) (stretches : List Stretch) (i j f : ℕ) → Takes stretches i j f
        → slice_get (shown fields stretches) (out_at stretches i + j) ≡ Some (slice_get fields f) }
    ensures padding { (fields : List Sightings) (stretches : List Stretch) (i j : ℕ) (stretch : Stretch)
        → slice_get stretches i ≡ Some stretch → stretch.padding ≢ 0 → j < stretch.fields
        → slice_get (shown fields stretches) (out_at stretches i + j) ≡ Some None }
{}

/// If a plan is done, each number from its first to its last stands in just one of its stretches, and the later one in
/// no earlier stretch. If a capture has the number, that stretch is none of padding.
pub fn stands_once()
    ensures stands { (plan : Plan) (r : ℕ) → IsDone plan → rank_at plan 0 ≤ r
        → r < rank_at plan (length plan.stretches) → (i : ℕ) × (i < length plan.stretches) × StandsFor plan i r }
    ensures in_order { (plan : Plan) (i k r s : ℕ) → IsDone plan → i < length plan.stretches
        → k < length plan.stretches → StandsFor plan i r → StandsFor plan k s → r ≤ s → i ≤ k }
{}

/// If a plan is done, no field of a capture stands twice in the file.
pub fn taken_once()
    ensures { (plan : Plan) (i j k h f : ℕ) → IsDone plan → Takes plan.stretches i j f → Takes plan.stretches k h f
        → (i ≡ k) × (j ≡ h) }
{}

/// A plan is done of captures of one disc of video, whose believed numbers are right. Then each field of the file that
/// shows a number is the disc's field in its place: as many fields after that of the first number. So is each field
/// between two such fields of a stretch, if its capture's fields stand in the disc's order.
pub fn is_the_disc()
    ensures shown { (plan : Plan) (disc : ℕ → Option ℕ) (place : ℕ → ℕ) (d i j n f : ℕ) → IsDone plan
        → IsOfDisc plan disc place d → Shows plan i j n → Takes plan.stretches i j f
        → place f + plan.layout.begin ≡ d + place_of plan i j }
    ensures between { (plan : Plan) (disc : ℕ → Option ℕ) (place : ℕ → ℕ) (d i h j k m n e f g : ℕ) → IsDone plan
        → IsOfDisc plan disc place d → Shows plan i h m → Takes plan.stretches i h e → Shows plan i k n
        → Takes plan.stretches i k g → RiseFrom place e g → h ≤ j → j ≤ k → Takes plan.stretches i j f
        → place f + plan.layout.begin ≡ d + place_of plan i j }
{}
