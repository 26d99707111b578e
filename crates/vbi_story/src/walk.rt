//! The way back along the origins, on which each place is marked.

ghost use Rattle.std.specs.Prelude.{◌≡◌, ◌≢◌, ◌↔◌, ℕ, ◌<◌, List, length, true, Some, Option};
ghost use Rattle.vbi_story.specs.declared.reading.NumberReading.{NumberReading};
ghost use Rattle.vbi_story.specs.Story.{picked};
ghost use Rattle.vbi_story.specs.Working.{AreJudged, IsWalked, value_of};

use crate::place::place_in;

/// Whether this is the place.
fn is_here(at: Option<usize>, place: usize) -> bool
    ensures { (result ≡ true) ↔ (at ≡ Some place) }
{
    match at {
        Some(other) => other == place,
        None => false,
    }
}

/// The place to go to, past this one.
fn past(here: bool, at: Option<usize>, origin: Option<usize>) -> Option<usize>
    ensures here { here ≡ true → result ≡ origin }
    ensures other { here ≢ true → result ≡ at }
{
    if here { origin } else { at }
}

/// Marks the way back from this place.
pub(crate) fn walk_back(origins: &[u32], last: Option<usize>, marks: &mut [bool])
    requires inside { (k : ℕ) → last ≡ Some k → k < length origins.now }
    requires marks_are { length marks.old ≡ length origins.now }
    ensures { (readings : List NumberReading) (values : List ℕ) → length readings ≡ length origins.now
        → AreJudged readings values origins.now (length readings)
        → IsWalked (value_of values last) (picked readings marks.new) }
{
    let mut at = last;
    let mut place = origins.len();
    while place > 0 {
        place -= 1;
        let here = is_here(at, place);
        marks[place] = here;
        at = past(here, at, place_in(origins[place]));
    }
}
