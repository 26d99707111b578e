//! Seeking the next picture stop in the bytes of a side.
//!
//! A stop is judged by its own field alone, so the fields are read one after the other, and none after the one that has
//! it.

ghost use Rattle.std.specs.Prelude.{◌≡◌, ◌↔◌, ◌<◌, true};
ghost use Rattle.vbi_seek.specs.{FieldLines.side_of, FieldLines.side_in, StopSearch.HasStop, StopSearch.IsNextStop};

use crate::field_lines::stop_at;
use crate::side_bytes::{FoundField, Setup, SideBytes};
use vbi_side::BELIEVED;

/// Whether a stop is believed of a field of the side.
fn has_stop(side: &SideBytes, field: usize) -> bool
    requires { field < side.now.count }
    ensures { (result ≡ true) ↔ HasStop (side_of side.now) field }
{
    stop_at(side, field) == BELIEVED
}

/// The next stop among this many fields at most, from `first` on.
fn next_stop_of(side: &SideBytes, first: usize, most: usize) -> FoundField
    ensures { IsNextStop (side_of side.now) first most result }
{
    let many = most.min(side.count.saturating_sub(first));
    for i in 0..many {
        if has_stop(side, first + i) {
            return FoundField {
                field: first + i,
                looked: i + 1,
            };
        }
    }
    FoundField {
        field: side.count,
        looked: many,
    }
}

/// Seeks the next picture stop in the bytes of a side: the first field from `first` on of which the judge believes one.
/// No more than `most` fields are read, and none after it. A last field that is cut is left out.
pub fn next_stop(setup: Setup, bytes: &[u8], first: usize, most: usize) -> FoundField
    ensures { IsNextStop (side_in setup bytes.now) first most result }
{
    next_stop_of(&SideBytes::new(setup, bytes), first, most)
}
