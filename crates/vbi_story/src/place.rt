//! Places of readings as words of 4 bytes, since a side has many rows and readings, and one is kept for each.

ghost use Rattle.std.specs.Prelude.{◌≡◌, ℕ, ◌<◌, ◌^◌, Some};
ghost use Rattle.vbi_story.specs.Working.{place_in};

/// The word that keeps no place.
pub(crate) const NO_PLACE: u32 = 0;

/// Returns the place that a word keeps: there places count from 1.
pub(crate) fn place_in(word: u32) -> Option<usize>
    ensures { result ≡ place_in word }
{
    if word == NO_PLACE {
        None
    } else {
        Some(word as usize - 1)
    }
}

/// Returns the word that keeps a place, or none.
pub(crate) fn word_of(place: Option<usize>) -> u32
    requires { (k : ℕ) → place ≡ Some k → k < 2 ^ 31 }
    ensures { place_in result ≡ place }
{
    match place {
        Some(place) => place as u32 + 1,
        None => NO_PLACE,
    }
}
