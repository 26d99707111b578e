//! The nearest word of lines that all have one word, or none, and the word that they say together.

ghost use Rattle.std.specs.Prelude.{◌≡◌, ◌<◌, length, ◌*◌, ◌≤◌, ◌+◌, ◌/◌, ◌==◌, take, drop, IfOk, IsTrue};
ghost use Rattle.std.specs.List.{list_all};
ghost use Rattle.vbi_words.specs.Geometry.{line_bytes, width_of};
ghost use Rattle.vbi_c.specs.Piling.{pile_setup, IsWordOf, HasMarks, rows_erased};
ghost use Rattle.vbi_c.specs.{Nearest.near_for_c, Nearest.IsNearestOf, Setups.lines_setup, Statuses.Answers};
ghost use Rattle.vbi_c.specs.{Erased.is_code_line, Erased.is_taken};

use crate::erased::{FIRST_LINE, LdvbiErased, is_code_line, is_taken, mark_field};
use crate::recovering::WIDEST;
use crate::setup::{MOST_LINES, Setup, lines_setup};
use crate::status::{DONE, Refusal, Settled, refuse_unless, settled};
use vbi_near::{Near, marks_of_line, nearest_of_lines, recover_pile};
use vbi_words::System;

/// The word that is nearest to some lines, and how near others are.
#[derive(Clone, Copy)]
#[repr(C)]
pub struct LdvbiNear {
    /// The word, from 0x800000 to 0xFFFFFF, or 0 if the row of none is nearest.
    pub word: u32,
    /// The column, counted from 0, at which the word begins; 0 if there is none.
    pub start: u32,
    /// How far the samples are from those of the word's drawn row, in sum.
    pub distance: u64,
    /// How far they are from the nearest drawn row of another word, or of none.
    pub rival: u64,
    /// How far they are from the nearest drawn row on which the word goes on by one cell; without a word the distance.
    pub longer: u64,
}

/// The nearest word as C sees it.
fn near_for_c(near: Near) -> LdvbiNear
    requires { near.start < 285 }
    ensures { result ≡ near_for_c near }
{
    LdvbiNear {
        word: near.word.map_or(0, |word| word.value()),
        start: near.start as u32,
        distance: u64::from(near.distance),
        rival: u64::from(near.rival),
        longer: u64::from(near.longer),
    }
}

/// The nearest word of 1 to 28 lines of `ldvbi_line_bytes(system)` bytes, one after the other, which all have one word
/// or none.
#[unsafe(no_mangle)]
pub extern "C" fn ldvbi_nearest(
    system: u32,
    black: u32,
    white: u32,
    bytes: &[u8],
    near: &mut LdvbiNear,
) -> u32
    ensures nearest { Answers (lines_setup system black white (length bytes.now)) result
        (λ setup. IsNearestOf setup bytes.now near.new) (near.new ≡ near.old) }
{
    let setup = settled!(lines_setup(system, black, white, bytes.len()));
    let count = bytes.len() / setup.system.line_bytes();
    *near = near_for_c(nearest_of_lines(setup.system, setup.levels, bytes, count));
    DONE
}

/// Whether each entry is of a line of this number.
fn are_of_line(line: u32, list: &[LdvbiErased]) -> bool
    ensures { result ≡ list_all (λ entry. entry.line == line) list.now }
{
    list.iter().all(|entry| entry.line == line)
}

/// The setup of a call with this many bytes, of lines that all have this number, and whose dropouts are known, by 1, or
/// not, by 0; or why the call is refused.
fn pile_setup(
    system: u32,
    black: u32,
    white: u32,
    line: u32,
    known: u32,
    length: usize,
    list: &[LdvbiErased],
) -> Settled<Setup>
    ensures setup { result ≡ pile_setup system black white line known length list.now }
    ensures lines { IfOk result (λ setup.
        (length ≡ length / line_bytes setup.system * line_bytes setup.system)
        × (length / line_bytes setup.system ≤ 28)) }
    ensures line { IfOk result (λ setup. IsTrue (is_code_line line)) }
    ensures list { IfOk result (λ setup. IsTrue (is_taken (length / line_bytes setup.system) list.now)) }
{
    let setup = lines_setup(system, black, white, length)?;
    refuse_unless(is_code_line(line), Refusal::Line)?;
    refuse_unless(known <= 1, Refusal::Known)?;
    let count = length / setup.system.line_bytes();
    let taken = is_taken(count, list) && are_of_line(line, list);
    refuse_unless(taken, Refusal::Erased)?;
    Ok(setup)
}

/// Writes the marks of a line from this place on.
fn put_marks(marks: &mut [bool], at: usize, line: &[bool])
    requires { at + length line.now ≤ length marks.old }
    ensures here { take (length line.now) (drop at marks.new) ≡ line.now }
    ensures before { take at marks.new ≡ take at marks.old }
    ensures long { length marks.new ≡ length marks.old }
{
    marks[at..at + line.len()].copy_from_slice(line);
}

/// Marks the erased columns of this many lines of this number, one line after the other.
fn mark_lines(system: System, line: u32, list: &[LdvbiErased], count: usize, marks: &mut [bool])
    requires few { count ≤ 28 }
    requires long { length marks.old ≡ count * width_of system }
    requires line { IsTrue (is_code_line line) }
    requires taken { IsTrue (is_taken count list.now) }
    ensures marks { HasMarks system line list.now count marks.new }
    ensures long { length marks.new ≡ length marks.old }
{
    let width = system.width();
    let mut widest = [false; 3 * WIDEST];
    let all = &mut widest[..3 * width];
    let mut place = 0;
    for i in 0..count {
        place = mark_field(system, list, place, i, all);
        let place = (line - FIRST_LINE) as usize;
        put_marks(marks, width * i, marks_of_line(system, all, place));
    }
}

/// The word that lines of a call that was found right say together, or 0.
fn word_of(setup: &Setup, line: u32, known: u32, bytes: &[u8], erased: &[LdvbiErased]) -> u32
    requires lines { (length bytes.now ≡ length bytes.now / line_bytes setup.now.system * line_bytes setup.now.system)
        × (length bytes.now / line_bytes setup.now.system ≤ 28) }
    requires line { IsTrue (is_code_line line) }
    requires list { IsTrue (is_taken (length bytes.now / line_bytes setup.now.system) erased.now) }
    ensures { IsWordOf setup.now line known (rows_erased setup.now.system line bytes.now erased.now) result }
{
    let system = setup.system;
    let count = bytes.len() / system.line_bytes();
    let mut most = [false; MOST_LINES * WIDEST];
    let marks = &mut most[..count * system.width()];
    mark_lines(system, line, erased, count, marks);
    let said = recover_pile(system, line, setup.levels, known == 1, bytes, marks, count);
    said.map_or(0, |word| word.value())
}

/// The word that 1 to 28 lines of one number say together, which all have one word, or none; 0 if they say none. In
/// the list `field` is the place of the line among them.
#[unsafe(no_mangle)]
pub extern "C" fn ldvbi_recover_pile(
    system: u32,
    black: u32,
    white: u32,
    line: u32,
    known: u32,
    bytes: &[u8],
    erased: &[LdvbiErased],
    word: &mut u32,
) -> u32
    ensures recovers { Answers (pile_setup system black white line known (length bytes.now) erased.now) result
        (λ setup. IsWordOf setup line known (rows_erased setup.system line bytes.now erased.now) word.new)
        (word.new ≡ word.old) }
{
    let setup = settled!(pile_setup(system, black, white, line, known, bytes.len(), erased));
    *word = word_of(&setup, line, known, bytes, erased);
    DONE
}
