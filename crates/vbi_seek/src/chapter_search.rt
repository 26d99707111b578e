//! Seeking a chapter in the bytes of a side, of which few fields are read.
//!
//! `place_of` finds by halving no more than a place to look at: there no spare fields are read for worn lines, and
//! silence in the middle of two ends that have told a chapter is met by asking other spots (`ask_beside`). The fields
//! around it are judged (`look_around`), and the chapter is answered only of a field that has it by the judge of the
//! whole side, if none of the 72 fields before it has.
//!
//! 176 fields are judged at most: 24 + 72 before the place, which is 32 fields wide at most, 24 that may tell what is
//! told there, and 24 after them. So 824 are left of the 1,000 of include/ldvbi.h for spots of 24 fields at most: 16
//! until the first chapter is told, and 15 for halving a million fields, which makes 744. Most spots tell a chapter by
//! three or four fields. What is left over is for a silent middle, on a worn side. specs/ChapterSearch.antt has these
//! numbers for proofs.

ghost use Rattle.std.specs.Prelude.{◌≡◌, ◌↔◌, ℕ, ◌+◌, ◌*◌, ◌<◌, ◌≤◌, true, length, None, IfSome};
ghost use Rattle.vbi_side.specs.{Chapters.AreChapters, Numbers.believed};
ghost use Rattle.vbi_seek.specs.ChapterLeads.{IsChapterComplete, IsFirstOf, IsReached, chapter_spots};
ghost use Rattle.vbi_seek.specs.ChapterSearch.{AreSeenBefore, BeginsAmong, IsBetween, IsChapterSought, IsWindowOf};
ghost use Rattle.vbi_seek.specs.ChapterSearch.{around_most, before_most, placed_most, side_from, spot_most};
ghost use Rattle.vbi_seek.specs.{FieldLines.side_of, FieldLines.side_in, Spots.IsPlaced, Spots.Leads};

use crate::halving::{LEFT, halve, sweep};
use crate::narrowing::{Between, may_read};
use crate::search::{Looked, Search, Target};
use crate::side_bytes::{FoundField, Setup, SideBytes};
use crate::spots::{NO_NUMBER, NOTHING_SEEN, SPOT, see_from};
use vbi_side::{BELIEVED, Number, REACH, judge_chapters};

/// None of this many fields before a field has the chapter that begins in it.
const BEFORE: usize = 72;

/// The fields that are judged, at most.
const AROUND: usize = 2 * REACH + BEFORE + LEFT + SPOT;

/// This many spots are asked until one tells a chapter, the middles of as many equal parts of the side.
const PARTS: usize = 16;

/// A million fields are halved so often until 32 are left. A silent middle may take another step.
const STEPS: u32 = 32;

/// A place that is near the field in which the chapter begins, if chapters rise along the side, and how many fields
/// were read until it was found.
fn place_of(side: &SideBytes, chapter: u32) -> (Between, Looked)
    ensures part { IsBetween side.now.count result.0 }
    ensures few { result.1.fields ≤ placed_most }
    ensures leads { (t a b : ℕ) → side.now.count ≤ 1000000
        → Leads (chapter_spots (side_of side.now)) chapter t a b → IsPlaced spot_most t result.0 }
{
    let search = Search {
        side: SideBytes {
            setup: side.setup,
            bytes: side.bytes,
            count: side.count,
        },
        kind: Target::Chapter,
        sought: chapter,
    };
    let mut between = Between::whole(side.count);
    let mut looked = Looked {
        fields: 0,
        spare: 0,
    };
    if sweep(&search, PARTS, &mut between, &mut looked) {
        for step in 0..STEPS {
            if between.high - between.low > LEFT && may_read(&looked, 3 * SPOT) {
                halve(&search, &mut between, &mut looked);
            }
        }
    }
    (between, looked)
}

/// Fields of a side that are judged.
#[derive(Clone, Copy)]
pub(crate) struct Window {
    /// The first of them, counted from the first of the side.
    pub(crate) first: usize,
    /// The first of those in which the chapter is looked for, counted from the first of these.
    pub(crate) from: usize,
    /// One past the last of those.
    pub(crate) to: usize,
    /// How many are judged.
    pub(crate) many: usize,
}

/// The fields around a place: those in which the chapter is looked for, and as many before and after them as their
/// answers depend on.
fn window_of(count: usize, place: &Between) -> Window
    requires { IsBetween count place.now }
    ensures window { IsWindowOf count result }
    ensures few { result.many ≤ around_most }
    ensures reached { (t : ℕ) → t < count → IsPlaced spot_most t place.now → IsReached t result }
{
    let low = place.low.min(count.saturating_sub(SPOT));
    let from = low.saturating_sub(BEFORE);
    let wide = (place.high - place.low).min(LEFT) + SPOT;
    let to = place.low + (count - place.low).min(wide);
    let first = from.saturating_sub(REACH);
    let end = to + (count - to).min(REACH);
    Window {
        first,
        from: from - first,
        to: to - first,
        many: end - first,
    }
}

/// Puts the chapter of each field that is judged into its place.
fn judge_window(side: &SideBytes, window: &Window, chapters: &mut [Number], looked: &mut Looked)
    requires places { length chapters.old ≡ window.now.many }
    requires inside { window.now.first + window.now.many ≤ side.now.count }
    requires few { window.now.many ≤ around_most }
    requires room { looked.old.fields ≤ placed_most }
    ensures judged { AreChapters (side_from side.now window.now.first window.now.many) chapters.new }
    ensures counted { looked.new.fields ≡ looked.old.fields + window.now.many }
{
    let mut all_seen = [NOTHING_SEEN; AROUND];
    let seen = &mut all_seen[..window.many];
    see_from(side, Target::Chapter, window.first, seen, looked);
    judge_chapters(seen, chapters);
}

/// Whether this chapter is answered as believed.
fn is_chapter(answer: &Number, chapter: u32) -> bool
    ensures { (result ≡ true) ↔ (answer.now ≡ believed chapter) }
{
    answer.state == BELIEVED && answer.number == chapter
}

/// This many fields before those in which the chapter is looked for haven't the chapter, as far as it is known: none,
/// or any number of them if there is none before.
fn clear_before(window: &Window) -> usize
    ensures none { 0 < window.now.first + window.now.from → result ≡ 0 }
    ensures all { window.now.first + window.now.from ≡ 0 → result ≡ before_most }
{
    if window.first == 0 && window.from == 0 {
        BEFORE
    } else {
        0
    }
}

/// The first of these answers in which the chapter begins, among those in which it is looked for, if enough answers are
/// known before it.
fn first_begin(chapters: &[Number], window: &Window, chapter: u32) -> Option<usize>
    requires order { (window.now.from ≤ window.now.to) × (window.now.to ≤ length chapters.now) }
    requires few { length chapters.now ≤ around_most }
    ensures inside { IfSome result (λ at. (window.now.from ≤ at) × (at < window.now.to)) }
    ensures begins { IfSome result (λ at. BeginsAmong chapters.now window.now.from at chapter) }
    ensures seen { IfSome result (λ at. AreSeenBefore window.now.first window.now.from at) }
    ensures passed { IfSome result (λ at. (i : ℕ) → window.now.from ≤ i → i < at
        → AreSeenBefore window.now.first window.now.from i
        → BeginsAmong chapters.now window.now.from i chapter → ⊥) }
    ensures none { result ≡ None → (i : ℕ) → window.now.from ≤ i → i < window.now.to
        → AreSeenBefore window.now.first window.now.from i
        → BeginsAmong chapters.now window.now.from i chapter → ⊥ }
{
    // So many of the last answers are another chapter, or none.
    let mut clear = clear_before(window);
    for i in window.from..window.to {
        if !is_chapter(&chapters[i], chapter) {
            clear += 1;
        } else if clear < BEFORE {
            clear = 0;
        } else {
            return Some(i);
        }
    }
    None
}

/// Looks for the field in which the chapter begins around its place.
fn look_around(side: &SideBytes, chapter: u32, place: &Between, mut looked: Looked) -> FoundField
    requires part { IsBetween side.now.count place.now }
    requires few { looked.fields ≤ placed_most }
    ensures sought { IsChapterSought (side_of side.now) chapter result }
    ensures complete { (t : ℕ) → IsFirstOf (side_of side.now) chapter t
        → IsPlaced spot_most t place.now → result.field ≡ t }
{
    let window = window_of(side.count, place);
    let mut all_chapters = [NO_NUMBER; AROUND];
    let chapters = &mut all_chapters[..window.many];
    judge_window(side, &window, chapters, &mut looked);
    match first_begin(chapters, &window, chapter) {
        Some(at) => FoundField {
            field: window.first + at,
            looked: looked.fields as usize,
        },
        None => FoundField {
            field: side.count,
            looked: looked.fields as usize,
        },
    }
}

/// Seeks a chapter in the bytes of a side: a field of which the judge believes it, by what all fields of the side show,
/// and of none of the 72 fields before it. A last field that is cut is left out. At most 1,000 fields are read, so if
/// the chapters don't rise along the side it may be missed.
pub fn seek_chapter(setup: Setup, bytes: &[u8], chapter: u32) -> FoundField
    ensures seeks { IsChapterSought (side_in setup bytes.now) chapter result }
    ensures complete { IsChapterComplete (side_in setup bytes.now) chapter result }
{
    let side = SideBytes::new(setup, bytes);
    let (between, looked) = place_of(&side, chapter);
    look_around(&side, chapter, &between, looked)
}
