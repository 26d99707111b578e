//! Which chapters are believed.
//!
//! A misread code says a chapter like any other. So the codes of the 49 fields around one (24 before it, itself, 24
//! after) are weighed as numbers are: those that say the same chapter, and those that speak against it, since the
//! chapters of a disc rise. The weight of 10 is both what a chapter needs and what it can't have against it. So if
//! less than that was misread, a believed chapter stands on the disc nearby, and a misread one can only be believed
//! if the disc's own chapter has nearly ended or has just begun.
//!
//! How many pictures a chapter lasts is free, so nothing is due: a field without a code has none.

ghost use Rattle.std.specs.Prelude.{◌≡◌, ◌↔◌, ℕ, ◌<◌, ◌≤◌, length, Some, slice_get, Option, true};
ghost use Rattle.vbi_side.specs.Chapters.{chapter_of, chapters_of, BelievedChapter, IsChapter, AreChapters, IsAheadOf};
ghost use Rattle.vbi_side.specs.{Numbers.believed, Chapters.IsBelievedOf, Chapters.IsSoundChapter};

use crate::belief::{ENOUGH, Fit, reaches, weight_around};
use crate::lines::Shown;
use crate::number::Number;
use crate::sighting::{Sighting, Sightings};
use vbi_words::Code;

/// The chapter that line 17 or 18 shows.
fn chapter(line: &Shown) -> Sighting
    ensures { result ≡ chapter_of line.now }
{
    match line.code() {
        Some(Code::Chapter(number)) => Sighting {
            number: u32::from(number),
            weight: line.weight(),
        },
        _ => Sighting::default(),
    }
}

/// The chapters that a field shows on its lines 17 and 18.
pub fn chapters_shown(line_17: &Shown, line_18: &Shown) -> Sightings
    ensures { result ≡ chapters_of line_17.now line_18.now }
{
    Sightings {
        line_17: chapter(line_17),
        line_18: chapter(line_18),
        instead: 0,
    }
}

/// Whether another chapter that the field shows is said by fewer codes.
fn is_ahead(fields: &[Sightings], field: usize, chapter: u32, other: &Sighting) -> bool
    requires { field < length fields.now }
    ensures { (result ≡ true) ↔ IsAheadOf fields.now field chapter other.now }
{
    if !other.is_seen() || other.number == chapter {
        return true;
    }
    weight_around(fields, Fit::Says, field, other.number)
        < weight_around(fields, Fit::Says, field, chapter)
}

/// The chapter of a line, if it is believed in this field, whose other line is given.
fn believed(fields: &[Sightings], field: usize, line: &Sighting, other: &Sighting) -> Option<u32>
    requires { field < length fields.now }
    ensures { (n : ℕ) → (result ≡ Some n) ↔ IsBelievedOf fields.now field line.now other.now n }
{
    let chapter = line.number;
    let is_believed = line.is_seen()
        && reaches(fields, Fit::Says, field, chapter, ENOUGH)
        && !reaches(fields, Fit::Opposes, field, chapter, ENOUGH)
        && is_ahead(fields, field, chapter, other);
    is_believed.then_some(chapter)
}

/// The chapter that is believed of a field, if one is.
fn judge_chapter(fields: &[Sightings], field: usize) -> Option<u32>
    requires { field < length fields.now }
    ensures { (n : ℕ) → (result ≡ Some n) ↔ BelievedChapter fields.now field n }
{
    let seen = &fields[field];
    match believed(fields, field, &seen.line_17, &seen.line_18) {
        Some(chapter) => Some(chapter),
        None => believed(fields, field, &seen.line_18, &seen.line_17),
    }
}

/// The believed chapter of a field, or what it shows in doubt.
fn answered(fields: &[Sightings], field: usize) -> Number
    requires { field < length fields.now }
    ensures { IsChapter fields.now field result }
{
    match judge_chapter(fields, field) {
        Some(chapter) => Number::believed(chapter),
        None => Number::doubtful(&fields[field]),
    }
}

/// The chapter of each field: believed, in doubt, or none.
pub fn judge_chapters(fields: &[Sightings], chapters: &mut [Number])
    requires { length chapters.old ≡ length fields.now }
    ensures answers { AreChapters fields.now chapters.new }
    ensures sound { (recorded : ℕ → Option ℕ) (i n : ℕ) → slice_get chapters.new i ≡ Some (believed n)
        → IsSoundChapter recorded fields.now i n }
{
    for field in 0..fields.len() {
        chapters[field] = answered(fields, field);
    }
}
