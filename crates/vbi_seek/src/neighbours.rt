//! The neighbours of a number that is sought: the nearest lower and the nearest higher one that are believed of some
//! fields.
//!
//! If several fields have the nearest number, the neighbour before is the last of them and the one after is the first:
//! what is between the two is the gap.

ghost use Rattle.std.specs.Prelude.{◌≡◌, ◌<◌, ◌≤◌, ◌+◌, length, slice_get, Some, None, IfSome};
ghost use Rattle.vbi_seek.specs.Neighbours.{down, up, IsNearest, IsNone};

use crate::spots::NO_NUMBER;
use std::mem::size_of;
use vbi_side::{BELIEVED, Number};

/// A number beside the one that is sought, and its field.
#[derive(Clone, Copy)]
#[repr(C)]
pub struct Neighbour {
    /// The field, counted from 0; as many as the side has if none is told.
    pub field: usize,
    /// What is answered of this field: the number, believed.
    pub number: Number,
}

// As include/ldvbi.h has it.
const _: () = prove!(size_of::<Neighbour>() == 16);

/// The last of the fields with the nearest lower number that is believed.
pub(crate) fn last_lower(numbers: &[Number], number: u32) -> Option<usize>
    ensures { IsNearest down numbers.now (length numbers.now) number result }
{
    let mut nearest = None;
    let mut least = 0;
    for field in 0..numbers.len() {
        let told = numbers[field];
        if told.state == BELIEVED && least <= told.number && told.number < number {
            nearest = Some(field);
            least = told.number;
        }
    }
    nearest
}

/// The first of the fields with the nearest higher number that is believed.
pub(crate) fn first_higher(numbers: &[Number], number: u32) -> Option<usize>
    ensures { IsNearest up numbers.now (length numbers.now) number result }
{
    let mut nearest = None;
    let mut most: u64 = 1 << 32;
    for field in 0..numbers.len() {
        let told = numbers[field];
        if told.state == BELIEVED && u64::from(told.number) < most && number < told.number {
            nearest = Some(field);
            most = u64::from(told.number);
        }
    }
    nearest
}

/// The neighbour at one of these fields of a side, of which the first is field `from`; or none.
pub(crate) fn neighbour_at(
    told: &[Number],
    from: usize,
    count: usize,
    at: Option<usize>,
) -> Neighbour
    requires inside { from + length told.now ≤ count }
    requires among { IfSome at (λ i. i < length told.now) }
    ensures none { at ≡ None → IsNone count result }
    ensures some { IfSome at (λ i. (result.field ≡ from + i) × (slice_get told.now i ≡ Some result.number)) }
{
    match at {
        Some(at) => Neighbour {
            field: from + at,
            number: told[at],
        },
        None => Neighbour {
            field: count,
            number: NO_NUMBER,
        },
    }
}
