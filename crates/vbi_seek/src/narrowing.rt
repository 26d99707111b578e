//! Narrowing the fields between which a number or a chapter is sought, by what is told or shown at a spot among them.
//!
//! `narrow` is the one step: the fields from a spot on are read until they tell a number, or a chapter, and one of them
//! becomes the first or the last of the fields between which it is sought. `narrow_by_spare` does it if fields may be
//! read besides, and `narrow_either` at two spots. On these rests that what is sought is found if the fields lead to it
//! (`Leads`). `narrow_between` is for a silent middle between two ends that have told numbers, `ask_beside` for one
//! between two that have told chapters. A side whose fields lead to what is sought never comes there, so whatever
//! leaves fewer fields will do: even a single line is believed that shows a number between the two (`narrow_by_one`),
//! and at last where the number stands between them (`is_after`).
//!
//! For a number a spot is read for 12 fields, which each step of halving has, and for more out of a spare that all
//! steps share, so that `Looked` never passes 1,000. An eighth of the fields at most is read beyond the 12 in the
//! middle, and a sixteenth elsewhere, so that what is told leaves three quarters at most. halving.rt chooses most
//! spots: both change together.

ghost use Rattle.std.specs.Prelude.{◌≡◌, ◌↔◌, ◌⊎◌, ℕ, ◌+◌, ◌-◌, ◌*◌, ◌<◌, ◌≤◌, false, true, None, IfSome};
ghost use Rattle.vbi_seek.specs.Searches.{IsNarrowedAt, IsNarrowedByOne, IsNarrowedNear, IsNarrowedBetween, IsPart};
ghost use Rattle.vbi_seek.specs.Searches.{IsSilent, IsSilentFor, IsSpotIn, IsMoreLikelyAfter, AreSeenFrom, middle_in};
ghost use Rattle.vbi_seek.specs.{ChapterSearch.placed_most, Targets.most_of, Targets.read_most};
ghost use Rattle.vbi_seek.specs.{NumberSearch.probe_most};
ghost use Rattle.vbi_seek.specs.{NumberSearch.probe_longest, NumberSearch.looked_most, NumberSpots.IsShownBetween};
ghost use Rattle.vbi_seek.specs.{Spots.whole};

use crate::search::{Looked, Search};
use crate::spots::{LONGEST, NOTHING_SEEN, longest_of, most_of, probe};
use vbi_side::Sightings;

/// This many fields at most are read while the place of a chapter is sought: 1,000 without those that are judged around
/// it.
const PLACED: u32 = 824;

/// This many spots are asked if the middle is silent between two ends that have told a chapter.
const BESIDE: usize = 6;

/// The fields between which a number or a chapter is sought.
#[derive(Clone, Copy)]
pub(crate) struct Between {
    pub(crate) low: usize,
    pub(crate) high: usize,
    /// The lower one that was told at `low`, and the higher one, or the one that is sought, that was at `high`.
    pub(crate) lower: Option<u32>,
    pub(crate) higher: Option<u32>,
}

impl Between {
    /// All fields of a side of so many, at whose ends nothing was told yet.
    pub(crate) fn whole(count: usize) -> Between
        ensures { result ≡ whole count }
    {
        Between {
            low: 0,
            high: count,
            lower: None,
            higher: None,
        }
    }
}

/// The numbers that were told at both ends.
#[derive(Clone, Copy)]
pub(crate) struct Told {
    pub(crate) lower: u32,
    pub(crate) higher: u32,
}

/// A spot of a side at which fields are read until they tell something.
#[derive(Clone, Copy)]
pub(crate) struct Spot {
    /// The first of them.
    pub(crate) field: usize,
    /// How many more than usual are read at most.
    pub(crate) more: usize,
}

/// Narrows the fields between which something is sought, by what the fields at this spot tell, if they do. Answers
/// whether they do. What they show stands in `seen`.
pub(crate) fn narrow(
    search: &Search,
    spot: Spot,
    between: &mut Between,
    seen: &mut [Sightings; LONGEST],
    looked: &mut Looked,
) -> bool
    requires inside { spot.field ≤ search.now.side.count }
    requires room { looked.old.fields + looked.old.spare + most_of search.now.kind ≤ looked_most }
    ensures few { looked.new.fields + looked.new.spare
        ≤ looked.old.fields + looked.old.spare + most_of search.now.kind }
    ensures kept { result ≡ false → between.new ≡ between.old }
    ensures spared { looked.old.spare ≤ looked.new.spare + (probe_longest - probe_most) }
    ensures seen { AreSeenFrom search.now spot.field seen.old → AreSeenFrom search.now spot.field seen.new }
    ensures silent { result ≡ false
        → IsSilentFor search.now spot.field (read_most search.now.kind spot.more looked.old.spare) }
    ensures narrowed { result ≡ true → IsNarrowedAt search.now spot between.old between.new }
{
    let most = most_of(search.kind);
    let more = spot.more.min(longest_of(search.kind) - most);
    let longest = most + more.min(looked.spare as usize);
    let (told, read) = probe(search, spot.field, longest, seen, looked);
    let after = read.saturating_sub(most as u32);
    looked.spare -= after;
    let Some(told) = told else {
        return false;
    };
    if told < search.sought {
        between.low = spot.field + after as usize;
        between.lower = Some(told);
    } else {
        between.high = spot.field + after as usize;
        between.higher = Some(told);
    }
    true
}

/// The first field that shows a number between two others on one of its lines, and this number.
fn one_between(seen: &[Sightings], lower: u32, higher: u32) -> Option<(usize, u32)>
    ensures some { IfSome result (λ found. IsShownBetween seen.now lower higher found.0 found.1) }
    ensures none { result ≡ None → (i n : ℕ) → IsShownBetween seen.now lower higher i n → ⊥ }
{
    for field in 0..seen.len() {
        let Sightings {
            line_17,
            line_18,
            ..
        } = seen[field];
        if line_17.weight > 0 && lower < line_17.number && line_17.number < higher {
            return Some((field, line_17.number));
        }
        if line_18.weight > 0 && lower < line_18.number && line_18.number < higher {
            return Some((field, line_18.number));
        }
    }
    None
}

/// Whether the number is more likely after this field than before it, if nothing is told there: by where it stands
/// between the numbers that were told at both ends.
fn is_after(number: u32, field: usize, between: &Between, told: Told) -> bool
    requires { (between.now.low ≤ field) × (field ≤ between.now.high) }
    ensures { (result ≡ true) ↔ IsMoreLikelyAfter number field told between.now }
{
    let (part, whole) = (field - between.low, between.high - between.low);
    let number_part = number.saturating_sub(told.lower);
    let number_whole = told.higher.saturating_sub(told.lower);
    part as u128 * u128::from(number_whole) < whole as u128 * u128::from(number_part)
}

/// As `narrow`, if the fields of a spot may be read besides.
fn narrow_by_spare(
    search: &Search,
    spot: Spot,
    between: &mut Between,
    seen: &mut [Sightings; LONGEST],
    looked: &mut Looked,
) -> bool
    requires inside { spot.field ≤ search.now.side.count }
    requires room { looked.old.fields + looked.old.spare ≤ looked_most }
    ensures few { looked.new.fields + looked.new.spare ≤ looked.old.fields + looked.old.spare }
    ensures kept { result ≡ false → between.new ≡ between.old }
    ensures spared { looked.old.spare
        ≤ looked.new.spare + (probe_longest - probe_most) + most_of search.now.kind }
    ensures seen { AreSeenFrom search.now spot.field seen.old → AreSeenFrom search.now spot.field seen.new }
    ensures silent { result ≡ false → most_of search.now.kind ≤ looked.old.spare
        → IsSilentFor search.now spot.field
        (read_most search.now.kind spot.more (looked.old.spare - most_of search.now.kind)) }
    ensures narrowed { result ≡ true → IsNarrowedAt search.now spot between.old between.new }
{
    let most = most_of(search.kind) as u32;
    if looked.spare < most {
        return false;
    }
    looked.spare -= most;
    narrow(search, spot, between, seen, looked)
}

/// Narrows the fields between which the number is sought by a single line of those from this field on that shows a
/// number between those of both ends. Answers whether one does.
fn narrow_by_one(
    search: &Search,
    field: usize,
    told: Told,
    seen: &[Sightings; LONGEST],
    between: &mut Between,
) -> bool
    requires part { IsPart search.now between.old }
    requires inside { (between.old.low ≤ field) × (field ≤ between.old.high) }
    requires seen { AreSeenFrom search.now field seen.now }
    ensures kept { result ≡ false → between.new ≡ between.old }
    ensures part { IsPart search.now between.new }
    ensures none { result ≡ false → (i n : ℕ) → IsShownBetween seen.now told.lower told.higher i n → ⊥ }
    ensures narrowed { result ≡ true → IsNarrowedByOne search.now field told between.old between.new }
{
    let Some((at, shown)) = one_between(seen, told.lower, told.higher) else {
        return false;
    };
    let place = (field + at).min(between.high);
    if shown < search.sought {
        between.low = place;
        between.lower = Some(shown);
    } else {
        between.high = place;
        between.higher = Some(shown);
    }
    true
}

/// Narrows the fields between which the number is sought, by what is told at this spot, if this many fields may be read
/// besides, or by a single line.
fn narrow_near(
    search: &Search,
    spot: Spot,
    told: Told,
    between: &mut Between,
    looked: &mut Looked,
) -> bool
    requires part { IsPart search.now between.old }
    requires inside { IsSpotIn between.old spot }
    requires room { looked.old.fields + looked.old.spare ≤ looked_most }
    ensures few { looked.new.fields + looked.new.spare ≤ looked.old.fields + looked.old.spare }
    ensures kept { result ≡ false → between.new ≡ between.old }
    ensures part { IsPart search.now between.new }
    ensures spared { looked.old.spare
        ≤ looked.new.spare + (probe_longest - probe_most) + most_of search.now.kind }
    ensures silent { result ≡ false → most_of search.now.kind ≤ looked.old.spare
        → IsSilent search.now spot.field }
    ensures narrowed { result ≡ true → IsNarrowedNear search.now spot told between.old between.new }
{
    let mut seen = [NOTHING_SEEN; LONGEST];
    narrow_by_spare(search, spot, between, &mut seen, looked)
        || narrow_by_one(search, spot.field, told, &seen, between)
}

/// Narrows the fields between which the number is sought if both ends have told a number, and the middle none: by a
/// single line there that shows a number between those two, by what is shown at three quarters or at one quarter of the
/// fields, or else by where the number stands between those two.
pub(crate) fn narrow_between(
    search: &Search,
    told: Told,
    seen: &[Sightings; LONGEST],
    between: &mut Between,
    looked: &mut Looked,
)
    requires part { IsPart search.now between.old }
    requires seen { AreSeenFrom search.now (middle_in between.old) seen.now }
    requires room { looked.old.fields + looked.old.spare ≤ looked_most }
    ensures part { IsPart search.now between.new }
    ensures few { looked.new.fields + looked.new.spare ≤ looked.old.fields + looked.old.spare }
    ensures narrowed { IsNarrowedBetween search.now told looked.old.spare seen.now between.old between.new }
{
    let width = between.high - between.low;
    let middle = between.low + width / 2;
    let later = Spot {
        field: middle + width / 4,
        more: width / 16,
    };
    let earlier = Spot {
        field: between.low + width / 4,
        more: width / 16,
    };
    if narrow_by_one(search, middle, told, seen, between)
        || narrow_near(search, later, told, between, looked)
        || narrow_near(search, earlier, told, between, looked)
    {
        return;
    }
    if is_after(search.sought, middle, between, told) {
        between.low = middle;
    } else {
        between.high = middle;
    }
}

/// Narrows the fields between which the number is sought, by what is told at one of two spots, if this many fields may
/// be read besides. Answers whether one of them tells a number.
pub(crate) fn narrow_either(
    search: &Search,
    first: Spot,
    second: Spot,
    between: &mut Between,
    looked: &mut Looked,
) -> bool
    requires inside { (first.field ≤ search.now.side.count) × (second.field ≤ search.now.side.count) }
    requires room { looked.old.fields + looked.old.spare ≤ looked_most }
    ensures few { looked.new.fields + looked.new.spare ≤ looked.old.fields + looked.old.spare }
    ensures kept { result ≡ false → between.new ≡ between.old }
    ensures narrowed { result ≡ true → IsNarrowedAt search.now first between.old between.new
        ⊎ IsNarrowedAt search.now second between.old between.new }
{
    let mut seen = [NOTHING_SEEN; LONGEST];
    narrow_by_spare(search, first, between, &mut seen, looked)
        || narrow_by_spare(search, second, between, &mut seen, looked)
}

/// Whether so many fields more may be read while the place of a chapter is sought.
pub(crate) fn may_read(looked: &Looked, more: usize) -> bool
    requires room { looked.now.fields + looked.now.spare ≤ looked_most }
    requires few { more ≤ looked_most }
    ensures few { result ≡ true → looked.now.fields + looked.now.spare + more ≤ placed_most }
    ensures many { result ≡ false → placed_most < looked.now.fields + looked.now.spare + more }
{
    looked.fields + looked.spare + more as u32 <= PLACED
}

/// This many eighths of the fields lie before the spot that is asked in this step, if the middle is silent.
fn eighths_at(step: usize) -> usize
    ensures { result ≤ 8 }
{
    match step {
        0 => 6,
        1 => 2,
        2 => 7,
        3 => 5,
        4 => 3,
        _ => 1,
    }
}

/// Narrows the fields between which a chapter is sought if both ends have told one and the middle none: by what is told
/// at the first of their quarters and eighths that tells any, as far as fields may be read. If none does, the chapter
/// is sought in the last half: what tells it at the end begins there, or little before.
pub(crate) fn ask_beside(search: &Search, between: &mut Between, looked: &mut Looked)
    requires part { IsPart search.now between.old }
    requires room { looked.old.fields + looked.old.spare ≤ placed_most }
    ensures part { IsPart search.now between.new }
    ensures few { looked.new.fields + looked.new.spare ≤ placed_most }
{
    let (low, width) = (between.low, between.high - between.low);
    let mut seen = [NOTHING_SEEN; LONGEST];
    for step in 0..BESIDE {
        let spot = Spot {
            field: low + eighths_at(step) * width / 8,
            more: 0,
        };
        if may_read(looked, most_of(search.kind))
            && narrow(search, spot, between, &mut seen, looked)
        {
            return;
        }
    }
    between.low = low + width / 2;
}
