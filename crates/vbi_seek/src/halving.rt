//! Halving the fields of a side between which a number or a chapter is sought.
//!
//! Numbers and chapters rise along a side, so the place of one is found by halving (`halve`): some fields in the middle
//! are read, until enough of their lines show one together, which tells the half. Before the first one of a side and
//! after its last one no field tells any, so the middles of equal parts are asked until one tells something (`sweep`).
//! From then on silence tells the half, too, as long as only one end has told something: what is sought is on the side
//! of that end (`narrow_in_silence`). For a number, two spots a little beyond a silent middle are asked before. A side
//! whose player went back or stood still can lead astray, so what is found here is no more than a place to look at:
//! number_search.rt and chapter_search.rt judge the fields around it.

ghost use Rattle.std.specs.Prelude.{◌≡◌, ℕ, ◌+◌, ◌-◌, ◌*◌, ◌/◌, ◌^◌, ◌<◌, ◌≤◌, false, true};
ghost use Rattle.vbi_seek.specs.Searches.{IsAlone, IsHalved, IsHalving, IsNarrowedAt, IsPart, IsSilent, IsSpent};
ghost use Rattle.vbi_seek.specs.Searches.{IsHalvedByBoth, IsReadAtMost, IsSilentFor, middle_in};
ghost use Rattle.vbi_seek.specs.NumberSearch.{probe_most, probe_longest, looked_most, left_most};
ghost use Rattle.vbi_seek.specs.{ChapterSearch.placed_most, Targets.most_of, Targets.read_most, NumberSpots.middle_of};
ghost use Rattle.vbi_seek.specs.{declared.asked.Judging.Judging, declared.search.Target.TheVariants.Number};

use crate::narrowing::{Between, Spot, Told, ask_beside, narrow, narrow_between, narrow_either};
use crate::search::{Looked, Search, Target};
use crate::spots::{LONGEST, NOTHING_SEEN};

/// Halving ends when no more fields than these are left: so few are judged at once.
pub(crate) const LEFT: usize = 32;

/// The field in the middle of one of this many equal parts of a side.
pub(crate) fn middle_of(count: usize, parts: usize, part: usize) -> usize
    requires some { part < parts }
    requires few { parts ≤ 16 }
    requires small { 32 * count < 2 ^ 64 }
    ensures middle { result ≡ middle_of count parts part }
    ensures inside { result ≤ count }
{
    (count * (2 * part + 1) / (2 * parts)).min(count)
}

/// Narrows the fields between which something is sought, by the first of the middles of this many equal parts of the
/// side at which anything is told. Answers whether it is.
pub(crate) fn sweep(
    search: &Search,
    parts: usize,
    between: &mut Between,
    looked: &mut Looked,
) -> bool
    requires few { parts ≤ 16 }
    requires room { looked.old.fields + looked.old.spare + most_of search.now.kind * parts ≤ looked_most }
    ensures few { looked.new.fields + looked.new.spare
        ≤ looked.old.fields + looked.old.spare + most_of search.now.kind * parts }
    ensures kept { result ≡ false → between.new ≡ between.old }
    ensures silent { result ≡ false → (part : ℕ) → part < parts
        → IsSilentFor search.now (middle_of search.now.side.count parts part)
        (read_most search.now.kind probe_longest (looked.old.spare - (probe_longest - probe_most) * part)) }
    ensures narrowed { result ≡ true → (spot : Spot) × (spot.field ≤ search.now.side.count)
        × IsNarrowedAt search.now spot between.old between.new }
{
    let mut seen = [NOTHING_SEEN; LONGEST];
    for part in 0..parts {
        let spot = Spot {
            field: middle_of(search.side.count, parts, part),
            more: LONGEST,
        };
        if narrow(search, spot, between, &mut seen, looked) {
            return true;
        }
    }
    false
}

/// An end of the fields between which something is sought.
#[derive(Clone, Copy)]
enum End {
    First,
    Last,
}

/// The spot at this many sixteenths of these fields.
fn spot_at(search: &Search, between: &Between, sixteenths: usize) -> Spot
    requires part { IsPart search.now between.now }
    requires few { sixteenths ≤ 16 }
    ensures field { result.field ≡ between.now.low + sixteenths * (between.now.high - between.now.low) / 16 }
    ensures more { result.more ≡ (between.now.high - between.now.low) / 16 }
{
    let width = between.high - between.low;
    Spot {
        field: between.low + sixteenths * width / 16,
        more: width / 16,
    }
}

/// The spots that are asked for a number if the middle is silent and only this end has told one: two that are a little
/// further from that end than the middle, the nearer one first.
fn beyond_middle(search: &Search, between: &Between, end: End) -> (Spot, Spot)
    requires part { IsPart search.now between.now }
    requires wide { between.now.low + left_most < between.now.high }
    ensures first { IsHalving between.now result.0 }
    ensures second { IsHalving between.now result.1 }
{
    match end {
        End::First => (spot_at(search, between, 10), spot_at(search, between, 11)),
        End::Last => (spot_at(search, between, 6), spot_at(search, between, 5)),
    }
}

/// Narrows the fields between which a number is sought, by what is told a little beyond a silent middle, if no other
/// end than this one has told one. Answers whether anything is told there. A chapter is never sought so.
fn narrow_beyond(search: &Search, end: End, between: &mut Between, looked: &mut Looked) -> bool
    requires part { IsPart search.now between.old }
    requires wide { between.old.low + left_most < between.old.high }
    requires room { looked.old.fields + looked.old.spare ≤ looked_most }
    ensures few { looked.new.fields + looked.new.spare ≤ looked.old.fields + looked.old.spare }
    ensures kept { result ≡ false → between.new ≡ between.old }
    ensures part { IsPart search.now between.new }
    ensures halved { result ≡ true → IsHalved search.now between.old between.new }
{
    match search.kind {
        Target::Number(_) => {
            let (first, second) = beyond_middle(search, between, end);
            narrow_either(search, first, second, between, looked)
        }
        Target::Chapter => false,
    }
}

/// Narrows the fields between which something is sought if the middle is silent, and no other end than this one has
/// told anything: by what is told a little beyond the middle, or else to the half on the side of this end.
fn narrow_in_silence(search: &Search, end: End, between: &mut Between, looked: &mut Looked)
    requires part { IsPart search.now between.old }
    requires wide { between.old.low + left_most < between.old.high }
    requires silent { IsSilent search.now (middle_in between.old) }
    requires alone { IsAlone end between.old }
    requires room { looked.old.fields + looked.old.spare ≤ looked_most }
    ensures part { IsPart search.now between.new }
    ensures few { looked.new.fields + looked.new.spare ≤ looked.old.fields + looked.old.spare }
    ensures halved { IsHalved search.now between.old between.new }
{
    let middle = between.low + (between.high - between.low) / 2;
    if narrow_beyond(search, end, between, looked) {
        return;
    }
    match end {
        End::First => between.high = middle,
        End::Last => between.low = middle,
    }
}

/// Narrows the fields between which something is sought, by what is told in the middle. Silence there says that it is
/// on the side of the end that has told something, if only one has. If both have, other spots are asked.
pub(crate) fn halve(search: &Search, between: &mut Between, looked: &mut Looked)
    requires part { IsPart search.now between.old }
    requires wide { between.old.low + left_most < between.old.high }
    requires room { looked.old.fields + looked.old.spare + most_of search.now.kind ≤ placed_most }
    ensures part { IsPart search.now between.new }
    ensures few { IsReadAtMost search.now.kind looked.old looked.new }
    ensures halved { IsHalved search.now between.old between.new }
    ensures spent { IsSpent search.now between.old looked.old looked.new }
    ensures by_both { (judging : Judging) → search.now.kind ≡ Number judging
        → IsHalvedByBoth search.now between.old between.new }
{
    let width = between.high - between.low;
    let middle = Spot {
        field: between.low + width / 2,
        more: width / 8,
    };
    let mut seen = [NOTHING_SEEN; LONGEST];
    if narrow(search, middle, between, &mut seen, looked) {
        return;
    }
    match between.higher {
        None => narrow_in_silence(search, End::First, between, looked),
        Some(higher) => match between.lower {
            None => narrow_in_silence(search, End::Last, between, looked),
            Some(lower) => match search.kind {
                Target::Number(_) => {
                    let told = Told { lower, higher };
                    narrow_between(search, told, &seen, between, looked);
                }
                Target::Chapter => ask_beside(search, between, looked),
            },
        },
    }
}
