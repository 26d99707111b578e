//! Seeking a number in the bytes of a side, of which few fields are read.
//!
//! `place_of` tells where it may be, and that what is answered is right rests on none of that: the fields around that
//! place are read and judged, and the number is answered only of a field that has it by the judge of the whole side.
//!
//! The number is looked for (`first_among`) from 24 fields before the place to 24 after it (`fields_around`). The place
//! is 32 fields wide at most, and what is told there is told by 12 more. An answer depends on 48 fields before its own
//! and as many after it, so 24 + 32 + 12 + 24 + 96 = 188 fields are judged at most (`judge_around`). The very first of
//! those in which the number is looked for isn't answered unless the side begins there: the number may have begun
//! before it.
//!
//! So 812 are left of the 1,000 of include/ldvbi.h for the place. 31 spots are asked until the first number is told, in
//! 1, 2, 4, 8 and 16 parts, and 36 steps leave 32 of a million fields, since each leaves three quarters at most: of 12
//! fields each that makes 372 and 432, or 804 in all. What is left over, more on a shorter side, is spare for spots
//! with worn lines. 16 parts find any numbers that fill a sixteenth of the side, as `Leads` of specs/Spots.antt asks.
//! specs/NumberSearch.antt has these numbers for proofs.

ghost use Rattle.std.specs.Prelude.{◌≡◌, ℕ, ◌+◌, ◌-◌, ◌*◌, ◌^◌, ◌<◌, ◌≤◌, ◌⊎◌, length, Some, None, IfSome, false, true};
ghost use Rattle.vbi_side.specs.declared.pace.Pace as paces;
ghost use Rattle.vbi_side.specs.Numbers.{IsFirst};
ghost use Rattle.vbi_seek.specs.NumbersAround.{IsWindow, IsJudgedAround, among, numbers_of};
ghost use Rattle.vbi_seek.specs.Neighbours.{Span, span_of, down, up, IsBeside, IsLookedFor, AreAround, AreBeside};
ghost use Rattle.vbi_seek.specs.NumberSearch.{shown_of, probe_most, probed_most, looked_most, left_most, IsSought};
ghost use Rattle.vbi_seek.specs.{ChapterSearch.IsBetween, Targets.most_of, NumberLeads.number_spots};
ghost use Rattle.vbi_seek.specs.{NumberLeads.IsFirstKnown, NumberLeads.IsComplete, Searches.IsNarrowedAt};
ghost use Rattle.vbi_seek.specs.{Searches.IsSilent, Spots.IsPlaced, Spots.Leads, Spots.left_after};
ghost use Rattle.vbi_seek.specs.{Spots.three_quarters, NumberSearch.IsSoughtIn, NumberSpots.middle_of};
ghost use Rattle.vbi_seek.specs.{declared.narrowing.Spot.Spot};

use crate::asked::{Judging, pace_for};
use crate::halving::{LEFT, halve, sweep};
use crate::narrowing::Between;
use crate::neighbours::{Neighbour, first_higher, last_lower, neighbour_at};
use crate::search::{Looked, Search, Seek, Target};
use crate::side_bytes::SideBytes;
use crate::spots::{NO_NUMBER, NOTHING_SEEN, PROBE, see_from};
use vbi_side::{Number, PART, Pace, REACH, first_of, judge};

/// Where a number was found.
#[derive(Clone, Copy)]
pub struct Sought {
    /// The field, counted from 0; as many as the side has if none was found.
    pub field: usize,
    /// What is answered of this field: the number, believed or due.
    pub number: Number,
    /// The pace at which it is answered, if one was found.
    pub pace: Option<Pace>,
    /// How many fields were read.
    pub looked: u32,
    /// The nearest lower number that is believed of the fields in which the number was looked for.
    pub before: Neighbour,
    /// The nearest higher one.
    pub after: Neighbour,
}

/// The number is looked for in this many fields more than it is sought between, before and after them.
const BESIDE: usize = 24;

/// The fields that are judged: those in which the number is looked for, and all on which their answers depend.
const AROUND: usize = 2 * BESIDE + LEFT + PROBE + PART - 1;

/// This many fields at most are read while the place is sought: 1,000 without the 188 that are judged around it.
const PROBED: u32 = 812;

/// This many spots at most are asked until the first number is told: the middles of 1, 2, 4, 8 and 16 parts.
const SPOTS: u32 = 31;

/// A million fields are halved so often at most: each step leaves three quarters of them, and 32 are left.
const STEPS: u32 = 36;

/// A number, how it is judged, and the side in whose bytes it is sought.
#[derive(Clone, Copy)]
struct NumberSearch<'a> {
    side: SideBytes<'a>,
    judging: Judging,
    number: u32,
}

/// Narrows the fields of a side between which the number is sought, by the first spot at which one is told: in the
/// middle of the side, of its halves, quarters, eighths and sixteenths.
fn begin(search: &Search, between: &mut Between, looked: &mut Looked) -> bool
    requires { looked.old.fields + looked.old.spare + 31 * most_of search.now.kind ≤ looked_most }
    ensures few { looked.new.fields + looked.new.spare
        ≤ looked.old.fields + looked.old.spare + 31 * most_of search.now.kind }
    ensures kept { result ≡ false → between.new ≡ between.old }
    ensures silent { result ≡ false → (part : ℕ) → part < 16
        → IsSilent search.now (middle_of search.now.side.count 16 part) }
    ensures narrowed { result ≡ true → (spot : Spot) × (spot.field ≤ search.now.side.count)
        × IsNarrowedAt search.now spot between.old between.new }
{
    sweep(search, 1, between, looked)
        || sweep(search, 2, between, looked)
        || sweep(search, 4, between, looked)
        || sweep(search, 8, between, looked)
        || sweep(search, 16, between, looked)
}

/// How often this many fields are halved, or a million, if they are more.
fn steps_of(count: usize) -> u32
    requires { 32 * count < 2 ^ 64 }
    ensures few { result ≤ 36 }
    ensures enough { count ≤ 1000000 → left_after three_quarters count result ≤ left_most }
{
    let mut left = count;
    for steps in 0..STEPS {
        if left <= LEFT {
            return steps;
        }
        left = 3 * left / 4;
    }
    STEPS
}

/// A place that is near the first field with the number, if the numbers rise along the side, and how many fields were
/// read until it was found.
fn place_of(wanted: &NumberSearch) -> (Between, Looked)
    ensures part { IsBetween wanted.now.side.count result.0 }
    ensures few { result.1.fields ≤ probed_most }
    ensures leads { (t a b : ℕ) → wanted.now.side.count ≤ 1000000
        → Leads (number_spots (numbers_of wanted.now)) wanted.now.number t a b → IsPlaced probe_most t result.0 }
{
    let side = &wanted.side;
    let search = Search {
        side: SideBytes {
            setup: side.setup,
            bytes: side.bytes,
            count: side.count,
        },
        kind: Target::Number(wanted.judging),
        sought: wanted.number,
    };
    let mut between = Between::whole(search.side.count);
    let steps = steps_of(search.side.count);
    let probed = PROBED - PROBE as u32 * steps;
    let mut looked = Looked {
        fields: 0,
        spare: probed - PROBE as u32 * SPOTS,
    };
    begin(&search, &mut between, &mut looked);
    looked.spare = probed - looked.fields;
    for step in 0..steps {
        if between.high - between.low > LEFT {
            halve(&search, &mut between, &mut looked);
        }
    }
    (between, looked)
}

/// Fields of a side, each counted from its first.
#[derive(Clone, Copy)]
struct Around {
    /// The first of those that are judged.
    first: usize,
    /// The first of those in which the number is looked for.
    from: usize,
    /// One past the last of those.
    to: usize,
    /// One past the last of those that are judged.
    end: usize,
}

/// The fields around a place: this many in which the number is looked for, and as many before and after them as their
/// answers depend on.
fn fields_around(search: &NumberSearch, place: &Between) -> Around
    requires { IsBetween search.now.side.count place.now }
    ensures window { IsWindow search.now.side.count result }
    ensures reached { (t : ℕ) → IsPlaced probe_most t place.now
        → AreAround search.now.side.count t result.from result.to }
    ensures wide { (result.from + 24 ≤ result.to) ⊎ ((result.from ≡ 0) × (result.to ≡ search.now.side.count)) }
    ensures early { (0 < result.from) → result.from < place.now.low }
{
    let from = place.low.saturating_sub(BESIDE);
    let wide = (place.high - place.low).min(LEFT) + PROBE + BESIDE;
    let to = place.low + (search.side.count - place.low).min(wide);
    Around {
        first: from.saturating_sub(2 * REACH),
        from,
        to,
        end: to + (search.side.count - to).min(2 * REACH),
    }
}

/// Puts the number of each field that is judged into its place, by what these fields show, and answers the pace at
/// which they are.
fn judge_around(
    search: &NumberSearch,
    around: &Around,
    numbers: &mut [Number],
    looked: &mut Looked,
) -> Pace
    requires window { IsWindow search.now.side.count around.now }
    requires places { length numbers.old ≡ around.now.end - around.now.first }
    requires room { looked.old.fields ≤ probed_most }
    ensures counted { looked.new.fields ≡ looked.old.fields + (around.now.end - around.now.first) }
    ensures judged { IsJudgedAround search.now around.now result numbers.new }
{
    let mut all_seen = [NOTHING_SEEN; AROUND];
    let seen = &mut all_seen[..around.end - around.first];
    let kind = Target::Number(search.judging);
    see_from(&search.side, kind, around.first, seen, looked);
    let pace = pace_for(&search.judging, seen);
    judge(seen, pace, numbers);
    pace
}

/// The first field in which the number is looked for that has it, counted from the first of these. None if it is the
/// very first of these, unless the side begins there: of the field before it it isn't known that it has another number.
fn first_among(around: &Around, numbers: &[Number], number: u32) -> Option<usize>
    requires order { (around.now.first ≤ around.now.from) × (around.now.from ≤ around.now.to) }
    requires inside { around.now.to - around.now.first ≤ length numbers.now }
    ensures first { IfSome result (λ at. IsFirst (among around.now numbers.now) number (Some at)) }
    ensures known { IfSome result (λ at. (0 < at) ⊎ (around.now.from ≡ 0)) }
    ensures none { result ≡ None → IsFirst (among around.now numbers.now) number None
        ⊎ IsFirst (among around.now numbers.now) number (Some 0) × (0 < around.now.from) }
{
    let (from, to) = (around.from - around.first, around.to - around.first);
    let Some(at) = first_of(&numbers[from..to], number) else {
        return None;
    };
    if at == 0 && around.from > 0 {
        return None;
    }
    Some(at)
}

/// The nearest lower number and the nearest higher one that are believed of the fields in which the number is looked
/// for.
fn neighbours_among(
    search: &NumberSearch,
    around: &Around,
    numbers: &[Number],
) -> (Neighbour, Neighbour)
    requires window { IsWindow search.now.side.count around.now }
    requires places { length numbers.now ≡ around.now.end - around.now.first }
    ensures before { (pace : paces.Pace) → IsJudgedAround search.now around.now pace numbers.now
        → IsBeside down (shown_of (numbers_of search.now)) search.now.side.count (span_of pace around.now)
        search.now.number result.0 }
    ensures after { (pace : paces.Pace) → IsJudgedAround search.now around.now pace numbers.now
        → IsBeside up (shown_of (numbers_of search.now)) search.now.side.count (span_of pace around.now)
        search.now.number result.1 }
{
    let (from, to) = (around.from - around.first, around.to - around.first);
    let told = &numbers[from..to];
    let before = last_lower(told, search.number);
    let after = first_higher(told, search.number);
    (
        neighbour_at(told, around.from, search.side.count, before),
        neighbour_at(told, around.from, search.side.count, after),
    )
}

/// Looks for the number in the fields around its place.
fn look_around(search: &NumberSearch, place: &Between, mut looked: Looked) -> Sought
    requires part { IsBetween search.now.side.count place.now }
    requires few { looked.fields ≤ probed_most }
    ensures sought { IsSoughtIn (numbers_of search.now) search.now.number result }
    ensures complete { (t : ℕ) (pace : paces.Pace)
        → IsFirstKnown (numbers_of search.now) search.now.number t pace
        → IsPlaced probe_most t place.now → result.field ≡ t }
    ensures beside { (span : Span) × IsLookedFor (numbers_of search.now) search.now.number result span
        × ((t : ℕ) → IsPlaced probe_most t place.now → AreAround search.now.side.count t span.from span.to) }
{
    let around = fields_around(search, place);
    let mut all_numbers = [NO_NUMBER; AROUND];
    let numbers = &mut all_numbers[..around.end - around.first];
    let pace = judge_around(search, &around, numbers, &mut looked);
    let (before, after) = neighbours_among(search, &around, numbers);
    match first_among(&around, numbers, search.number) {
        Some(at) => Sought {
            field: around.from + at,
            number: numbers[around.from - around.first + at],
            pace: Some(pace),
            looked: looked.fields,
            before,
            after,
        },
        None => Sought {
            field: search.side.count,
            number: NO_NUMBER,
            pace: None,
            looked: looked.fields,
            before,
            after,
        },
    }
}

/// Seeks a number in the bytes of a side: the first of the fields in a row that have it. It is the number that the
/// judge answers of this field at this pace, by what all fields of the side show. A last field that is cut is left out.
/// At most 1,000 fields are read, so if the numbers don't rise along the side it may be missed.
pub fn seek_number(seek: Seek, bytes: &[u8], number: u32) -> Sought
    ensures seeks { IsSought seek bytes.now number result }
    ensures complete { IsComplete seek bytes.now number result }
    ensures neighbours { AreBeside seek bytes.now number result }
{
    let search = NumberSearch {
        side: SideBytes::new(seek.setup, bytes),
        judging: seek.judging,
        number,
    };
    let (place, looked) = place_of(&search);
    look_around(&search, &place, looked)
}
