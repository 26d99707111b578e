//! What the lines of a side's fields show, with the nearest words of worn lines.

ghost use Rattle.std.specs.Prelude.{◌≡◌, ◌*◌, ◌<◌, length};
ghost use Rattle.vbi_words.specs.Geometry.{line_bytes};
ghost use Rattle.vbi_side.specs.{Chapters.chapters_of, Misread.numbers_in, Stops.IsJudgedStop};
ghost use Rattle.vbi_seek.specs.FieldLines.{shown_as, code_bytes, field_in, side_of, recovered_at, lines_at};

use crate::asked::Judging;
use crate::side_bytes::{Setup, SideBytes};
use vbi_near::{Recovered, recover_rows};
use vbi_side::{Shown, Sightings, chapters_shown, judge_stop, sightings};

/// The row of a field, counted from 0, that is line 16.
const FIRST_ROW: usize = 15;

/// The samples of the longest line, that of PAL.
const WIDEST: usize = 1135;

/// What a line shows.
fn shown_as(line: &Recovered) -> Shown
    ensures { result ≡ shown_as line.now }
{
    Shown {
        word: line.outcome.word(),
        pass: line.pass,
    }
}

/// The bytes of the rows of a field that are its lines 16, 17 and 18.
fn code_bytes<'a>(side: &SideBytes<'a>, field: usize) -> &'a [u8]
    requires { field < side.now.count }
    ensures rows { result.now ≡ code_bytes side.now.setup.system
        (field_in side.now.setup.system side.now.bytes.now field) }
    ensures long { length result.now ≡ 3 * line_bytes side.now.setup.system }
{
    let system = side.setup.system;
    let (size, line) = (system.field_bytes(), system.line_bytes());
    let bytes = &side.bytes[size * field..size * field + size];
    &bytes[FIRST_ROW * line..FIRST_ROW * line + 3 * line]
}

/// Lines 16, 17 and 18 of a field, with the nearest words of worn ones.
fn recovered_at(side: &SideBytes, field: usize) -> [Recovered; 3]
    requires { field < side.now.count }
    ensures { result ≡ recovered_at (side_of side.now) field }
{
    let Setup { system, levels } = side.setup;
    let none_erased = [false; 3 * WIDEST];
    recover_rows(
        system,
        levels,
        code_bytes(side, field),
        &none_erased[..3 * system.width()],
    )
}

/// The numbers that a field shows.
pub(crate) fn numbers_at(side: &SideBytes, judging: &Judging, field: usize) -> Sightings
    requires { field < side.now.count }
    ensures { result ≡ numbers_in judging.now.system judging.now.counted
        (lines_at (side_of side.now) field) }
{
    let [line_16, line_17, line_18] = &recovered_at(side, field);
    let lines = [shown_as(line_16), shown_as(line_17), shown_as(line_18)];
    sightings(judging.system, judging.counted, &lines)
}

/// The chapters that a field shows.
pub(crate) fn chapters_at(side: &SideBytes, field: usize) -> Sightings
    requires { field < side.now.count }
    ensures { let lines = lines_at (side_of side.now) field in
        result ≡ chapters_of lines.line_17 lines.line_18 }
{
    let [_, line_17, line_18] = &recovered_at(side, field);
    chapters_shown(&shown_as(line_17), &shown_as(line_18))
}

/// What is answered of a field's picture stop.
pub(crate) fn stop_at(side: &SideBytes, field: usize) -> u32
    requires { field < side.now.count }
    ensures { let lines = lines_at (side_of side.now) field in
        IsJudgedStop lines.line_16 lines.line_17 result }
{
    let [line_16, line_17, _] = &recovered_at(side, field);
    judge_stop(&shown_as(line_16), &shown_as(line_17))
}
