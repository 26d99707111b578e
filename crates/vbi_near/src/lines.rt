//! Lines whose words are sought.

ghost use Rattle.std.specs.Prelude.{◌≡◌, ◌+◌, ◌*◌, ◌≤◌, ◌<◌, length};
ghost use Rattle.vbi_near.specs.Common.{line_bytes, line_at, width_of, sample_at};
ghost use Rattle.vbi_near.specs.{Candidates.marks_at};

use vbi_words::{Levels, System};

/// A line in which a word is sought: its bytes, and which of its columns are erased.
#[derive(Clone, Copy)]
pub(crate) struct Line<'a> {
    pub(crate) system: System,
    /// The number of the line, which says what codes may stand on it.
    pub(crate) number: u32,
    pub(crate) levels: Levels,
    pub(crate) bytes: &'a [u8],
    pub(crate) erased: &'a [bool],
    ghost whole: { length bytes.now ≡ line_bytes system },
    ghost columns: { length erased.now ≡ width_of system },
}

/// Lines 17 and 18 of a field.
#[derive(Clone, Copy)]
pub(crate) struct Pair<'a> {
    pub(crate) second: Line<'a>,
    pub(crate) third: Line<'a>,
    ghost system: { third.system ≡ second.system },
    ghost levels: { third.levels ≡ second.levels },
}

/// Lines of one system that lie one after the other, as do the marks of their erased columns.
#[derive(Clone, Copy)]
pub(crate) struct Rows<'a> {
    pub(crate) system: System,
    pub(crate) levels: Levels,
    pub(crate) bytes: &'a [u8],
    pub(crate) erased: &'a [bool],
    /// How many lines there are.
    pub(crate) count: usize,
    ghost whole: { length bytes.now ≡ count * line_bytes system },
    ghost columns: { length erased.now ≡ count * width_of system },
}

impl<'a> Rows<'a> {
    ghost use Rattle.vbi_near.specs.Lines.{line_in, line_in_rows};

    /// A line, counted from 0, taken as one of this number.
    pub(crate) fn line(&self, number: u32, line: usize) -> Line<'a>
        requires { line < self.now.count }
        ensures { line_in result ≡ line_in_rows self.now number line }
    {
        Line {
            system: self.system,
            number,
            levels: self.levels,
            bytes: line_of(self.system, self.bytes, line),
            erased: marks_of_line(self.system, self.erased, line),
        }
    }
}

/// A line's sample in a column.
// Of two bytes of a slice a compiler makes one read.
#[inline(always)]
pub(crate) fn sample(line: &[u8], column: usize) -> u16
    requires { 2 * column + 1 < length line.now }
    ensures { result ≡ sample_at line.now column }
{
    let pair = &line[2 * column..2 * column + 2];
    u16::from(pair[0]) + 256 * u16::from(pair[1])
}

/// The bytes of a line, counted from 0.
pub(crate) fn line_of(system: System, lines: &[u8], line: usize) -> &[u8]
    requires { line_bytes system * line + line_bytes system ≤ length lines.now }
    ensures line { result.now ≡ line_at system lines.now 0 line }
    ensures long { length result.now ≡ line_bytes system }
{
    let size = system.line_bytes();
    &lines[size * line..size * line + size]
}

/// The marks of the erased columns of a line, counted from 0, if those of some lines lie one line after the other.
pub fn marks_of_line(system: System, marks: &[bool], line: usize) -> &[bool]
    requires { width_of system * line + width_of system ≤ length marks.now }
    ensures marks { result.now ≡ marks_at system marks.now line }
    ensures long { length result.now ≡ width_of system }
{
    let width = system.width();
    &marks[width * line..width * line + width]
}
