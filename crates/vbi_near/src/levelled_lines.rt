//! Lines whose running mean is taken off, whose swing is made that of white and black on levels of their own, and whose
//! samples are smoothed.
//!
//! Each cell of a word is black in one half and white in the other, so the mean of some whole cells is half way
//! between black and white, wherever the level of the signal wanders and however weak it is. `fill` puts that middle
//! into erased columns, `sum_samples` and `sum_windows` give each column the sum of a window about it, `swing` is
//! twice how far the samples are from their means, in the mean of the columns, and `level` writes the line smoothed.
//! candidates.rt calls them in this order, and `is_swing` tells between them whether the line swings as one with a
//! word does.
//!
//! A window has six cells of two microseconds, 172 columns in NTSC and 213 in PAL: enough that a word's bits hardly
//! show in its mean, and few enough that the mean follows hum and tilt. No window leaves the columns that a word and
//! the black about it can have (`first`, `end`). A sum stands for a mean, and what is compared with it is multiplied
//! by the columns of the window, so that nothing is rounded before the one division (`quotient`).
//!
//! Levelled lines have black and white of their own (`levelled_levels`), a quarter of the range of samples from each
//! other, with room beyond both: a sample that a spike puts beyond white stays what it is, and isn't cut to a good one.
//!
//! specs/LevelledLines.antt has the same numbers, and levelled_laws.rt has worked lines. A change of what a line
//! becomes changes what fields show, and so the tables of docs/measured.

ghost use Rattle.std.specs.Prelude.{◌≡◌, ◌≢◌, ℕ, ◌+◌, ◌*◌, ◌/◌, ◌^◌, ◌≤◌, ◌<◌, min, length, slice_index, IsTrue};
ghost use Rattle.std.specs.Prelude.{IsFalse};
ghost use Rattle.vbi_near.specs.Common.{width_of, line_bytes, samples_of, sample_at};
ghost use Rattle.vbi_near.specs.LevelledLines.{window_of, first_of, end_of, window_start, sum_from, window_sum};
ghost use Rattle.vbi_near.specs.LevelledLines.{swing_of, is_swing, middle_of, levelled_sample, levelled_each};
ghost use Rattle.vbi_near.specs.LevelledLines.{smoothed_sample, smoothed, levelled, levelled_unit, levelled_slicing};
ghost use Rattle.vbi_near.specs.LevelledLines.{filled, AreSampleSums, AreWindows};

use crate::lines::sample;
use crate::near::WIDEST;
use vbi_words::{Levels, System};

/// How far white is above black on levelled lines.
pub(crate) const LEVELLED_UNIT: u32 = 16384;

/// Black and white of levelled lines.
pub(crate) fn levelled_levels() -> Levels
    ensures { result ≡ levelled_slicing }
{
    Levels::new(24576, 40960).unwrap()
}

/// A line by its bytes, and the sums of its samples: for each column the sum of those before it.
#[derive(Clone, Copy)]
pub(crate) struct Summed<'a> {
    pub(crate) system: System,
    pub(crate) row: &'a [u8],
    pub(crate) sums: &'a [u32],
    ghost whole: { length row.now ≡ line_bytes system },
    ghost bytes: { (k : ℕ) → slice_index row.now k < 256 },
    ghost summed: { AreSampleSums (samples_of row.now) sums.now },
}

/// The columns of the running mean.
fn window(system: System) -> u32
    ensures { result ≡ window_of system }
{
    match system {
        System::Ntsc => 172,
        System::Pal => 213,
    }
}

/// The first of the columns that a drawn word and the black about it can have.
fn first(system: System) -> usize
    ensures { result ≡ first_of system }
{
    match system {
        System::Ntsc => 143,
        System::Pal => 180,
    }
}

/// The column after the last of them.
fn end(system: System) -> usize
    ensures { result ≡ end_of system }
{
    match system {
        System::Ntsc => 844,
        System::Pal => 1049,
    }
}

/// The first column of the window of a column.
#[inline(always)]
fn window_start(system: System, column: usize) -> usize
    ensures { result ≡ window_start system column }
{
    let width = window(system) as usize;
    column
        .saturating_sub(width / 2)
        .max(first(system))
        .min(end(system) - width)
}

/// Writes a line's sample in a column.
#[inline(always)]
fn put(line: &mut [u8], column: usize, sample: u16)
    requires { 2 * column + 1 < length line.old }
    ensures here { sample_at line.new column ≡ sample }
    ensures others { (k : ℕ) → k ≢ column → sample_at line.new k ≡ sample_at line.old k }
    ensures long { length line.new ≡ length line.old }
{
    line[2 * column] = (sample % 256) as u8;
    line[2 * column + 1] = (sample / 256) as u8;
}

/// Half way between black and white.
fn middle(levels: Levels) -> u16
    ensures { result ≡ middle_of levels }
{
    levels.black() + (levels.white() - levels.black()) / 2
}

/// Writes a line's samples, but half way between black and white if a column is erased.
pub(crate) fn fill(levels: Levels, row: &[u8], erased: &[bool], out: &mut [u8])
    requires row { length row.now ≡ 2 * length erased.now }
    requires out { length out.old ≡ 2 * length erased.now }
    ensures filled { samples_of out.new ≡ filled levels erased.now (samples_of row.now) }
    ensures long { length out.new ≡ length out.old }
{
    let middle = middle(levels);
    out.copy_from_slice(row);
    for column in 0..erased.len() {
        if erased[column] {
            put(out, column, middle);
        }
    }
}

/// Sums up a line's samples: `sums` has for each column the sum of those before it.
pub(crate) fn sum_samples(system: System, row: &[u8], sums: &mut [u32])
    requires row { length row.now ≡ line_bytes system }
    requires room { length sums.old ≡ 1136 }
    ensures sums { AreSampleSums (samples_of row.now) sums.new }
    ensures long { length sums.new ≡ length sums.old }
{
    let mut sum = 0;
    sums[0] = sum;
    for column in 0..system.width() {
        sum += u32::from(sample(row, column));
        sums[column + 1] = sum;
    }
}

/// The sum of the window that begins in a column.
#[inline(always)]
fn sum_from(line: &Summed, start: usize) -> u32
    requires { start + window_of line.now.system ≤ width_of line.now.system }
    ensures { result ≡ sum_from (samples_of line.now.row.now) start (window_of line.now.system) }
{
    line.sums[start + window(line.system) as usize] - line.sums[start]
}

/// The sum of the window of a column.
#[tactic(auto, using(crate::proofs::Levelling::window_inside))]
fn window_sum(line: &Summed, column: usize) -> u32
    ensures { result ≡ window_sum line.now.system (samples_of line.now.row.now) column }
{
    sum_from(line, window_start(line.system, column))
}

/// A sample times the columns of a window.
#[inline(always)]
fn own(system: System, row: &[u8], column: usize) -> u32
    requires row { length row.now ≡ line_bytes system }
    requires column { column < width_of system }
    ensures { result ≡ window_of system * slice_index (samples_of row.now) column }
{
    window(system) * u32::from(sample(row, column))
}

/// Writes for each column the sum of its window.
// First the windows begin where the first one does, then half a window before their columns, at last where the last one
// does: a loop for each, which a compiler turns into vector code.
#[tactic(auto, using(crate::proofs::Levelling::ordered_windows, crate::proofs::Levelling::window_inside))]
fn sum_windows(line: &Summed, windows: &mut [u32])
    requires room { length windows.old ≡ width_of line.now.system }
    ensures windows { AreWindows line.now.system (samples_of line.now.row.now) windows.new }
    ensures long { length windows.new ≡ length windows.old }
{
    let system = line.system;
    let wide = window(system) as usize;
    let half = wide / 2;
    let from = first(system) + half;
    let to = end(system) - wide + half;
    let before = window_sum(line, 0);
    let after = window_sum(line, to);
    for column in 0..from {
        windows[column] = before;
    }
    for column in from..to {
        windows[column] = sum_from(line, column - half);
    }
    for column in to..system.width() {
        windows[column] = after;
    }
}

/// How far a line's high samples are from its low ones.
pub(crate) fn swing(line: &Summed) -> u32
    ensures { result ≡ swing_of line.now.system (samples_of line.now.row.now) }
{
    let system = line.system;
    let mut buffer = [0; WIDEST];
    let windows = &mut buffer[..system.width()];
    sum_windows(line, windows);
    let mut off = 0;
    for column in first(system)..end(system) {
        off += u64::from(own(system, line.row, column).abs_diff(windows[column]));
    }
    let columns = (end(system) - first(system)) as u64;
    (2 * off / (u64::from(window(system)) * columns)) as u32
}

/// Whether a line of this swing is levelled: from 3 to 16 tenths of what white is from black. With less it is noise
/// about a level, and with more no signal of black and white.
pub(crate) fn is_swing(unit: u32, swing: u32) -> bool
    ensures { result ≡ is_swing unit swing }
{
    let tenths = 10 * u64::from(swing);
    3 * u64::from(unit) <= tenths && tenths <= 16 * u64::from(unit)
}

/// What is divided once, so that no column needs a division.
const WHOLE: u64 = 281_474_976_710_656;

/// A quotient, or 65,535 if that is less, by what `WHOLE` is divided by the divisor.
// A product with the inverse is the quotient, or too small by one. Divisions would take most of the time of a line.
#[inline(always)]
fn quotient(dividend: u64, divisor: u64, inverse: u64) -> u64
    requires some { 0 < divisor }
    requires divisor { divisor < 2 ^ 32 }
    requires inverse { inverse ≡ 2 ^ 48 / divisor }
    ensures { result ≡ min (dividend / divisor) 65535 }
{
    let cut = dividend.min(65535 * divisor);
    let near = cut * inverse / WHOLE;
    if (near + 1) * divisor <= cut {
        near + 1
    } else {
        near
    }
}

/// A sample, levelled by the mean of its window, both times the columns of the window.
// One quotient for samples above the mean and below it: with noise a branch would be guessed wrong half the time.
#[inline(always)]
fn levelled_sample(scale: u64, inverse: u64, own: u32, mean: u32) -> u16
    requires some { 0 < scale }
    requires range { scale < 2 ^ 32 }
    requires inverse { inverse ≡ 2 ^ 48 / scale }
    ensures { result ≡ levelled_sample scale own mean }
{
    let unit = u64::from(LEVELLED_UNIT);
    let high = 32768 * scale + u64::from(own) * unit;
    quotient(high.saturating_sub(u64::from(mean) * unit), scale, inverse) as u16
}

/// Gives each column of a line of this swing its levelled sample.
fn level_each(line: &Summed, swing: u32, samples: &mut [u16])
    requires swing { swing ≡ swing_of line.now.system (samples_of line.now.row.now) }
    requires some { 0 < swing }
    requires room { length samples.old ≡ width_of line.now.system }
    ensures { samples.new ≡ levelled_each line.now.system (samples_of line.now.row.now) }
{
    let system = line.system;
    let scale = u64::from(window(system)) * u64::from(swing);
    let inverse = WHOLE / scale;
    let mut buffer = [0; WIDEST];
    let windows = &mut buffer[..system.width()];
    sum_windows(line, windows);
    for column in 0..system.width() {
        let own = own(system, line.row, column);
        samples[column] = levelled_sample(scale, inverse, own, windows[column]);
    }
}

/// A quarter of the sum of the sample before, twice the own one, and the one after.
#[inline(always)]
fn smoothed_sample(before: u16, own: u16, after: u16) -> u16
    ensures { result ≡ smoothed_sample before own after }
{
    ((u32::from(before) + 2 * u32::from(own) + u32::from(after)) / 4) as u16
}

/// Writes samples smoothed.
fn smooth(samples: &[u16], out: &mut [u8])
    requires some { 1 < length samples.now }
    requires room { length out.old ≡ 2 * length samples.now }
    ensures smoothed { samples_of out.new ≡ smoothed samples.now }
    ensures long { length out.new ≡ length out.old }
{
    let last = samples.len() - 1;
    put(out, 0, smoothed_sample(samples[0], samples[0], samples[1]));
    for column in 1..last {
        let sample = smoothed_sample(samples[column - 1], samples[column], samples[column + 1]);
        put(out, column, sample);
    }
    put(
        out,
        last,
        smoothed_sample(samples[last - 1], samples[last], samples[last]),
    );
}

/// Writes the levelled line of this swing.
pub(crate) fn level(line: &Summed, swing: u32, out: &mut [u8])
    requires swing { swing ≡ swing_of line.now.system (samples_of line.now.row.now) }
    requires some { 0 < swing }
    requires out { length out.old ≡ line_bytes line.now.system }
    ensures levelled { samples_of out.new ≡ levelled line.now.system (samples_of line.now.row.now) }
    ensures long { length out.new ≡ length out.old }
{
    let mut buffer = [0; WIDEST];
    let samples = &mut buffer[..line.system.width()];
    level_each(line, swing, samples);
    smooth(samples, out);
}
