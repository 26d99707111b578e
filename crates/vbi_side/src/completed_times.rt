//! The word of lines 17 and 18 that is elected beside line 16.

ghost use Rattle.std.specs.Prelude.{◌≡◌, ◌↔◌, ◌⊎◌, ℕ, ◌/◌, ◌≤◌, ◌<◌, length, Some, None, true};
ghost use Rattle.vbi_side.specs.{Sightings.IsSeen, Votes.minute_of, Votes.part_of, Votes.time_word, Votes.IsCompleted};

use crate::lines::{Shown, rate};
use crate::sighting::Sightings;
use crate::votes::{elected, minute};
use vbi_words::{Code, System, Word24};

/// The minutes that hours of one digit have.
const MINUTES: u64 = 600;

/// The second and picture that line 16 shows, as pictures from the beginning of their minute.
fn part(system: System, line_16: &Shown) -> Option<u32>
    ensures { result ≡ part_of system line_16.now }
{
    match line_16.code() {
        Some(Code::ClvPicture { seconds, picture }) if u32::from(picture) < rate(system) => {
            Some(u32::from(seconds) * rate(system) + u32::from(picture))
        }
        _ => None,
    }
}

/// The word by which lines 17 and 18 tell this minute.
fn time_word(minute: u32) -> Option<Word24>
    requires { minute < 600 }
    ensures { result ≡ Some (time_word minute) }
{
    let (hours, minutes) = (minute / 60, minute % 60);
    Word24::new(0xF0DD00 + hours * 65536 + minutes / 10 * 16 + minutes % 10).ok()
}

/// The word by which lines 17 and 18 tell the minute of this number.
fn word_of(system: System, number: u64) -> Option<Word24>
    ensures value { number / minute_of system < 600 → result ≡ Some (time_word (number / minute_of system)) }
    ensures late { 600 ≤ number / minute_of system → result ≡ None }
{
    let minutes = number / minute(system);
    if minutes < MINUTES {
        time_word(minutes as u32)
    } else {
        None
    }
}

/// Whether a field shows a time on line 17 or 18.
fn shows_any(seen: &Sightings) -> bool
    ensures { (result ≡ true) ↔ (IsSeen seen.now.line_17 ⊎ IsSeen seen.now.line_18) }
{
    seen.line_17.is_seen() || seen.line_18.is_seen()
}

/// The word of line 17 or 18 that completes the time of line 16 in a field: if neither line shows a time, that of
/// the elected number, if it has an hour of one digit.
pub fn completed_time(
    system: System,
    line_16: &Shown,
    fields: &[Sightings],
    field: usize,
) -> Option<Word24>
    requires { field < length fields.now }
    ensures { (word : ℕ) → (result ≡ Some word) ↔ IsCompleted system line_16.now fields.now field word }
{
    if shows_any(&fields[field]) {
        return None;
    }
    let part = part(system, line_16)?;
    let number = elected(system, fields, field, part)?;
    word_of(system, number)
}
