//! Which number or which chapter some fields of a side tell together. Each field that is read is counted.
//!
//! `shown_at` reads one field, and `see_from` some in a row. `probe` reads one after the other until what was read
//! tells something, or no more may be read. A number is told (`is_told`) if what supports it by the judge's rule
//! weighs 6, at either pace, or if what all these fields show weighs 6 that lies as far from it as numbers of video do:
//! so a few words that could be read tell a number, however far apart they are. A chapter is told if its codes on all
//! these fields weigh 6. One field alone weighs 4 at most, so its two lines, misread alike, tell nothing.
//!
//! Of a number 12 fields are read at a spot, six pictures of video, and up to twelve times as many if few lines show
//! one. Of a chapter 24 are. specs/NumberSpots.antt and specs/ChapterSearch.antt have the rules, and
//! specs/NumberSearch.antt these numbers for proofs: whoever changes one changes how many fields a search reads
//! (number_search.rt and chapter_search.rt have the sums), and what `Leads` of specs/Spots.antt promises.

ghost use Rattle.std.specs.Prelude.{◌≡◌, ◌↔◌, ℕ, ◌+◌, ◌-◌, ◌*◌, ◌<◌, ◌≤◌, min, length, take, slice_get, true};
ghost use Rattle.std.specs.Prelude.{IfSome, None};
ghost use Rattle.vbi_seek.specs.Targets.{fits_in, most_of, longest_of, shown_by, all_shown_by, IsToldBy, Tell};
ghost use Rattle.vbi_seek.specs.{ChapterSearch.spot_most, FieldLines.side_of, NumberSearch.probe_most};
ghost use Rattle.vbi_seek.specs.{NumberSearch.probe_longest, NumberSearch.looked_most, NumberSpots.sum_below};
ghost use Rattle.vbi_seek.specs.{Searches.shown_from, Searches.AreSeenFrom, Searches.TellsAt};
ghost use Rattle.vbi_side.specs.{Beliefs.sighting_weight, Sightings.IsSeen};

use crate::field_lines::{chapters_at, numbers_at};
use crate::search::{Looked, Search, Target};
use crate::side_bytes::SideBytes;
use vbi_side::{NOTHING, Number, Pace, Sighting, Sightings, support};

/// This many fields are read at one spot for a number: six pictures of video.
pub(crate) const PROBE: usize = 12;

/// This many at most are read there if few lines show a number, twelve times as many.
pub(crate) const LONGEST: usize = 144;

/// This many fields at most are read at one spot for a chapter.
pub(crate) const SPOT: usize = 24;

/// What is shown together weighs so much. No field alone does, even if both its lines were misread alike.
const TOGETHER: u32 = 6;

/// What a field without a number shows.
pub(crate) const NOTHING_SEEN: Sightings = Sightings {
    line_17: NO_SIGHTING,
    line_18: NO_SIGHTING,
    instead: 0,
};

/// What a line without a number shows.
const NO_SIGHTING: Sighting = Sighting {
    number: 0,
    weight: 0,
};

/// What is answered of a field without a number, or without a chapter.
pub(crate) const NO_NUMBER: Number = Number {
    number: 0,
    state: NOTHING,
};

/// This many fields are read at a spot if none is worn.
pub(crate) fn most_of(kind: Target) -> usize
    ensures value { result ≡ most_of kind }
    ensures range { result ≤ spot_most }
{
    match kind {
        Target::Number(_) => PROBE,
        Target::Chapter => SPOT,
    }
}

/// This many are read there at most.
pub(crate) fn longest_of(kind: Target) -> usize
    ensures value { result ≡ longest_of kind }
    ensures range { (most_of kind ≤ result) × (result ≤ probe_longest) }
    ensures more { result ≤ most_of kind + (probe_longest - probe_most) }
{
    match kind {
        Target::Number(_) => LONGEST,
        Target::Chapter => SPOT,
    }
}

/// What a field shows of its number or of its chapter, with the nearest words of worn lines.
fn shown_at(side: &SideBytes, kind: Target, field: usize, looked: &mut Looked) -> Sightings
    requires inside { field < side.now.count }
    requires room { looked.old.fields < looked_most }
    ensures shown { result ≡ shown_by kind (side_of side.now) field }
    ensures counted { looked.new ≡ record looked.old { fields = looked.old.fields + 1 } }
{
    looked.fields += 1;
    match kind {
        Target::Number(judging) => numbers_at(side, &judging, field),
        Target::Chapter => chapters_at(side, field),
    }
}

/// Puts what each field from this one on shows into its place.
pub(crate) fn see_from(
    side: &SideBytes,
    kind: Target,
    first: usize,
    seen: &mut [Sightings],
    looked: &mut Looked,
)
    requires inside { first + length seen.old ≤ side.now.count }
    requires room { looked.old.fields + length seen.old ≤ looked_most }
    ensures seen { seen.new ≡ all_shown_by kind (side_of side.now) first (length seen.old) }
    ensures counted { looked.new.fields ≡ looked.old.fields + length seen.old }
{
    for i in 0..seen.len() {
        seen[i] = shown_at(side, kind, first + i, looked);
    }
}

/// Whether what field `other` shows says this number in this field: a number does that lies two fields a picture from
/// it, and a chapter that is the same.
fn fits_in(kind: Target, field: usize, number: u32, other: usize, shown: u32) -> bool
    requires few { (field < probe_longest) × (other < probe_longest) }
    ensures { result ≡ fits_in kind field number other shown }
{
    match kind {
        Target::Number(_) => {
            other as u64 + 2 * u64::from(number) == field as u64 + 2 * u64::from(shown)
        }
        Target::Chapter => shown == number,
    }
}

/// How much a line of field `other` says it.
fn weight_of(kind: Target, field: usize, number: u32, other: usize, sighting: &Sighting) -> u32
    requires few { (field < probe_longest) × (other < probe_longest) }
    ensures value { result ≡ sighting_weight (fits_in kind field number other) sighting.now }
    ensures range { result ≤ 2 }
{
    if fits_in(kind, field, number, other, sighting.number) {
        sighting.counts()
    } else {
        0
    }
}

/// How much the lines of all these fields say it.
#[tactic(auto, using(crate::proofs::Running::sum_below_zero, crate::proofs::Running::sum_below_more))]
fn weight_together(kind: Target, seen: &[Sightings], field: usize, number: u32) -> u32
    requires inside { field < length seen.now }
    requires few { length seen.now ≤ probe_longest }
    ensures { result ≡ sum_below (fits_in kind field number) seen.now (length seen.now) }
{
    let mut weight = 0;
    for other in 0..seen.len() {
        let shown = &seen[other];
        weight += weight_of(kind, field, number, other, &shown.line_17)
            + weight_of(kind, field, number, other, &shown.line_18);
    }
    weight
}

/// Whether enough of what these fields show says this number in this field: all of it at the pace of video, or what
/// supports it around the field at either pace. Of a chapter all of it counts, however far apart.
fn is_told(kind: Target, seen: &[Sightings], field: usize, number: u32) -> bool
    requires inside { field < length seen.now }
    requires few { length seen.now ≤ probe_longest }
    ensures { (result ≡ true) ↔ IsToldBy kind seen.now field number }
{
    match kind {
        Target::Number(_) => {
            support(seen, Pace::Video, field, number) >= TOGETHER
                || support(seen, Pace::Film, field, number) >= TOGETHER
                || weight_together(kind, seen, field, number) >= TOGETHER
        }
        Target::Chapter => weight_together(kind, seen, field, number) >= TOGETHER,
    }
}

/// Whether this line of a field shows a number that these fields tell together.
fn is_together(kind: Target, seen: &[Sightings], field: usize, sighting: &Sighting) -> bool
    requires inside { field < length seen.now }
    requires few { length seen.now ≤ probe_longest }
    ensures { (result ≡ true) ↔ IsSeen sighting.now × IsToldBy kind seen.now field sighting.now.number }
{
    sighting.weight > 0 && is_told(kind, seen, field, sighting.number)
}

/// The first number that these fields tell together, if they tell one, or the first chapter.
fn told_together(kind: Target, seen: &[Sightings]) -> Option<u32>
    requires { length seen.now ≤ probe_longest }
    ensures some { IfSome result (λ number. Tell kind seen.now number) }
    ensures none { result ≡ None → (number : ℕ) → Tell kind seen.now number → ⊥ }
{
    for field in 0..seen.len() {
        let shown = &seen[field];
        if is_together(kind, seen, field, &shown.line_17) {
            return Some(shown.line_17.number);
        }
        if is_together(kind, seen, field, &shown.line_18) {
            return Some(shown.line_18.number);
        }
    }
    None
}

/// What the fields from this one on tell together, if this many at most tell something, and how many of them were read
/// for it. What these show stands in `seen`.
pub(crate) fn probe(
    search: &Search,
    field: usize,
    longest: usize,
    seen: &mut [Sightings; LONGEST],
    looked: &mut Looked,
) -> (Option<u32>, u32)
    requires inside { field ≤ search.now.side.count }
    requires longest { longest ≤ probe_longest }
    requires room { looked.old.fields + longest ≤ looked_most }
    ensures few { result.1 ≤ longest }
    ensures inside { field + result.1 ≤ search.now.side.count }
    ensures counted { looked.new ≡ record looked.old { fields = looked.old.fields + result.1 } }
    ensures seen { take result.1 seen.new ≡ shown_from search.now field result.1 }
    ensures shown { AreSeenFrom search.now field seen.old → AreSeenFrom search.now field seen.new }
    ensures told { IfSome result.0 (λ number. TellsAt search.now field result.1 number) }
    ensures first { IfSome result.0 (λ told. (k number : ℕ) → k < result.1
        → TellsAt search.now field k number → ⊥) }
    ensures all { result.0 ≡ None → result.1 ≡ min longest (search.now.side.count - field) }
    ensures silent { result.0 ≡ None → (k number : ℕ) → k ≤ result.1 → TellsAt search.now field k number → ⊥ }
{
    let most = longest.min(search.side.count - field);
    for i in 0..most {
        seen[i] = shown_at(&search.side, search.kind, field + i, looked);
        if let Some(number) = told_together(search.kind, &seen[..i + 1]) {
            return (Some(number), i as u32 + 1);
        }
    }
    (None, most as u32)
}
