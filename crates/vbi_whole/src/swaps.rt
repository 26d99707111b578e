//! Two fields of video that stand in each other's place.
//!
//! Of two swapped fields the one with a number shows it a field too early or too late. Its number is set aside, since
//! it fits none around it, and those go on as if nothing were wrong. So it is looked for among what was set aside. One
//! line is enough, of any pass: a word that was misread stands in a field that has a number, so an even count of fields
//! off.

ghost use Rattle.std.specs.Prelude.{◌≡◌, ℕ, ◌+◌, ◌*◌, ◌<◌, ◌≤◌, ◌^◌, true, length, IfSome, Some, None, slice_get};
ghost use Rattle.vbi_whole.specs.Swaps.{stands_off, is_believed_as, is_beside, shows_off, is_stray, IsSwapIn, IsSearch};
ghost use Rattle.vbi_whole.specs.{Gaps.judged_in};

use crate::side::Side;
use vbi_side::{Number, Pace, Place, Sighting, believed_at, by_clock, goes_on_by};

/// Whether a number stands one field before or after the place that another one leaves for it.
fn stands_off(here: Place, there: Place) -> bool
    ensures { result ≡ stands_off here there }
{
    let (field, number) = (here.field as u128, u128::from(here.number));
    let (other, count) = (there.field as u128, u128::from(there.number));
    other + 2 * number == field + 2 * count + 1 || other + 2 * number + 1 == field + 2 * count
}

/// Whether a field has this number.
fn is_believed_as(numbers: &[Number], field: usize, number: u32) -> bool
    ensures { result ≡ is_believed_as (slice_get numbers.now field) number }
{
    match numbers.get(field) {
        Some(answer) => answer.is_believed() && answer.number == number,
        None => false,
    }
}

/// Whether a field beside this one has the number, which stands on both fields of its picture then.
fn is_beside(numbers: &[Number], field: usize, number: u32) -> bool
    requires { field < 2 ^ 60 }
    ensures { result ≡ is_beside numbers.now field number }
{
    is_believed_as(numbers, field.saturating_sub(1), number)
        || is_believed_as(numbers, field + 1, number)
}

/// Whether a line shows a number that stands a field off the one before, and isn't that of a field beside it.
fn shows_off(side: &Side, here: Place, field: usize, sighting: &Sighting) -> bool
    requires field { field < 2 ^ 60 }
    ensures { result ≡ shows_off side.now.rule.numbering.clock side.now.numbers.now here field sighting.now }
{
    let clock = side.rule.numbering.clock;
    let number = sighting.number;
    let there = Place { field, number };
    sighting.weight > 0
        && stands_off(by_clock(clock, here), by_clock(clock, there))
        && !is_beside(side.numbers, field, number)
}

/// Whether one of a field's lines shows a number that stands a field off.
fn is_stray(side: &Side, here: Place, field: usize) -> bool
    requires inside { field < length side.now.seen.now }
    ensures { result ≡ is_stray side.now.rule.numbering.clock side.now.numbers.now here field
        (slice_get side.now.seen.now field) }
{
    let shown = &side.seen[field];
    shows_off(side, here, field, &shown.line_17) || shows_off(side, here, field, &shown.line_18)
}

/// What the search knows of the fields before the next one.
#[derive(Clone, Copy)]
struct SwapSearch {
    /// The last field with a believed number.
    last: Option<Place>,
    /// The first field after it whose number stands a field off.
    stray: Option<usize>,
}

/// What the search knows of the fields before the one after this.
fn search_after(side: &Side, field: usize, search: SwapSearch) -> SwapSearch
    requires inside { field < length side.now.numbers.now }
    requires search { IsSearch (judged_in side.now) field search }
    ensures { IsSearch (judged_in side.now) (field + 1) result }
{
    match (believed_at(side.numbers, field), search.last) {
        (Some(there), _) => SwapSearch {
            last: Some(there),
            stray: None,
        },
        (None, Some(here)) if search.stray.is_none() && is_stray(side, here, field) => SwapSearch {
            stray: Some(field),
            ..search
        },
        _ => search,
    }
}

/// The first field that stands off between the last number and the one of this field, if these go on.
fn swap_before(side: &Side, field: usize, search: SwapSearch) -> Option<usize>
    requires inside { field < length side.now.numbers.now }
    requires search { IsSearch (judged_in side.now) field search }
    ensures some { IfSome result (λ k. IsSwapIn (judged_in side.now) k) }
    ensures first { IfSome result (λ k. (j : ℕ) → j < k → (swap : IsSwapIn (judged_in side.now) j)
        → field ≤ swap.j → ⊥) }
    ensures none { result ≡ None → (k : ℕ) → (swap : IsSwapIn (judged_in side.now) k) → swap.j ≡ field → ⊥ }
{
    let Some(here) = search.last else {
        return None;
    };
    let Some(there) = believed_at(side.numbers, field) else {
        return None;
    };
    if goes_on_by(side.rule.numbering.clock, Pace::Video, 0, here, there) {
        search.stray
    } else {
        None
    }
}

/// The first field that was swapped with one beside it, counted from 0, as the numbers around it show.
pub(crate) fn first_swap(side: &Side) -> Option<usize>
    ensures some { IfSome result (λ field. IsSwapIn (judged_in side.now) field) }
    ensures first { IfSome result (λ field. (k : ℕ) → k < field → IsSwapIn (judged_in side.now) k → ⊥) }
    ensures none { result ≡ None → (k : ℕ) → IsSwapIn (judged_in side.now) k → ⊥ }
{
    let mut search = SwapSearch {
        last: None,
        stray: None,
    };
    for field in 0..side.numbers.len() {
        let found = swap_before(side, field, search);
        if found.is_some() {
            return found;
        }
        search = search_after(side, field, search);
    }
    None
}
