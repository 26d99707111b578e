//! Columns of lines that are erased, as those of a dropout.
//!
//! A list of them is sorted by field, so a place in it goes along with the fields.

ghost use Rattle.std.specs.Prelude.{◌≡◌, ℕ, ◌*◌, ◌+◌, ◌++◌, ◌∷◌, [], ◌≤◌, length, IsTrue, List};
ghost use Rattle.std.specs.List.{list_all};
ghost use Rattle.vbi_words.specs.Geometry.{width_of};
ghost use Rattle.vbi_c.specs.Erased.{is_code_line, is_entry, may_follow, are_sorted, is_taken, with_erased};
ghost use Rattle.vbi_c.specs.Erased.{erased_of, IsPlace};

use crate::setup::Setup;
use crate::status::{Refusal, Settled, refuse_unless};
use vbi_words::System;

/// The line whose row comes first.
pub(crate) const FIRST_LINE: u32 = 16;
/// The last line with a code word.
const LAST_LINE: u32 = 18;

/// Columns of a line that are erased.
#[derive(Clone, Copy)]
#[repr(C)]
pub struct LdvbiErased {
    /// The field, of those in the call's bytes, counted from 0.
    pub field: u32,
    /// The line: 16, 17 or 18.
    pub line: u32,
    /// The first erased column, counted from 0.
    pub first: u32,
    /// The last one. Those beyond the line count for nothing.
    pub last: u32,
}

/// Whether a line has code words.
pub(crate) fn is_code_line(line: u32) -> bool
    ensures { result ≡ is_code_line line }
{
    FIRST_LINE <= line && line <= LAST_LINE
}

/// Whether it has columns of a line with code words, in one of this many fields.
fn is_entry(count: usize, entry: &LdvbiErased) -> bool
    ensures { result ≡ is_entry count entry.now }
{
    (entry.field as usize) < count && is_code_line(entry.line) && entry.first <= entry.last
}

/// Whether an entry may stand after another.
fn may_follow(before: &LdvbiErased, entry: &LdvbiErased) -> bool
    ensures { result ≡ may_follow before.now entry.now }
{
    (before.field, before.line, before.first) <= (entry.field, entry.line, entry.first)
}

/// Whether each entry may stand after the one before it.
fn are_sorted(list: &[LdvbiErased]) -> bool
    ensures { result ≡ are_sorted list.now }
{
    for i in 1..list.len() {
        if !may_follow(&list[i - 1], &list[i]) {
            return false;
        }
    }
    true
}

/// Whether each is an entry of this many fields.
fn are_entries(count: usize, list: &[LdvbiErased]) -> bool
    ensures { result ≡ list_all (is_entry count) list.now }
{
    list.iter().all(|entry| is_entry(count, entry))
}

/// Whether a list of this many fields is taken.
pub(crate) fn is_taken(count: usize, list: &[LdvbiErased]) -> bool
    ensures { result ≡ is_taken count list.now }
{
    are_entries(count, list) && are_sorted(list)
}

/// The setup of a call that was found right, with a list of this many fields, or why the call is refused.
pub(crate) fn with_erased(
    count: usize,
    list: &[LdvbiErased],
    asked: Settled<Setup>,
) -> Settled<Setup>
    ensures { result ≡ with_erased count list.now asked }
{
    let setup = asked?;
    refuse_unless(is_taken(count, list), Refusal::Erased)?;
    Ok(setup)
}

/// Marks the columns of an entry beside those that the entries before it erase.
fn mark(system: System, entry: &LdvbiErased, marks: &mut [bool])
    requires long { length marks.old ≡ 3 * width_of system }
    requires line { IsTrue (is_code_line entry.now.line) }
    ensures { (before : List LdvbiErased) → marks.old ≡ erased_of before system entry.now.field
        → marks.new ≡ erased_of (before ++ entry.now ∷ []) system entry.now.field }
{
    let width = system.width();
    let row = width * (entry.line - FIRST_LINE) as usize;
    let end = (entry.last as usize).min(width - 1) + 1;
    for column in entry.first as usize..end {
        marks[row + column] = true;
    }
}

/// Marks the erased columns of a field by its entries, which begin at a place in the list. Answers the next field's
/// place.
pub(crate) fn mark_field(
    system: System,
    list: &[LdvbiErased],
    place: usize,
    field: usize,
    marks: &mut [bool],
) -> usize
    requires long { length marks.old ≡ 3 * width_of system }
    requires taken { (count : ℕ) × IsTrue (is_taken count list.now) }
    requires place { place ≤ length list.now }
    requires begins { IsPlace list.now field place }
    ensures marks { marks.new ≡ erased_of list.now system field }
    ensures place { result ≤ length list.now }
    ensures begins { IsPlace list.now (field + 1) result }
{
    marks.fill(false);
    let mut next = place;
    while next < list.len() && list[next].field as usize == field {
        mark(system, &list[next], marks);
        next += 1;
    }
    next
}
