//! Long stretches without a number between two that go on.
//!
//! A scratch leaves fields unread. Where numbers go on over more fields than that, as many may be lost there as are too
//! many: no number between shows it.

ghost use Rattle.std.specs.Prelude.{◌≡◌, ℕ, ◌<◌, length, IfSome, None};
ghost use Rattle.vbi_whole.specs.{BlankFields.IsBlankTo, BlankFields.IsBlankTold, Gaps.IsLast};

use crate::gap::Rule;
use crate::gaps::{Reached, last_at, neighbours_at};
use vbi_side::{Number, Place};

/// As many fields without a number as a scratch may have.
const SCRATCH: usize = 100;

/// The last field with a number before the next one, if that has one which goes on from it, and more fields lie between
/// than a scratch has.
fn blank_before(numbers: &[Number], rule: Rule, at: Reached) -> Option<usize>
    requires inside { at.field < length numbers.now }
    requires last { IsLast numbers.now at.field at.last }
    ensures some { IfSome result (λ i. IsBlankTo rule numbers.now i at.field) }
    ensures none { result ≡ None → (i : ℕ) → IsBlankTo rule numbers.now i at.field → ⊥ }
{
    let pair = neighbours_at(numbers, at)?;
    let (here, there) = (pair.here, pair.there);
    if there.field - here.field <= SCRATCH + 1 {
        return None;
    }
    rule.goes_on(here, there).then_some(here.field)
}

/// The first field of the first such stretch, counted from 0; 0 if there is none.
pub(crate) fn first_blank(numbers: &[Number], rule: Rule) -> usize
    ensures { IsBlankTold rule numbers.now result }
{
    let mut last: Option<Place> = None;
    for field in 0..numbers.len() {
        let at = Reached { field, last };
        if let Some(before) = blank_before(numbers, rule, at) {
            return before + 1;
        }
        last = last_at(numbers, field, last);
    }
    0
}
