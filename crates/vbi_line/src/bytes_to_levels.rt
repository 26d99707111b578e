//! Slicing a line into levels where its bytes lie, without a buffer of its own.

ghost use Rattle.std.specs.Prelude.{◌≡◌, ◌+◌, ◌*◌, ◌^◌, ◌<◌, ◌≤◌, [], length};
ghost use Rattle.vbi_words.specs.{Geometry.width_of, Geometry.line_bytes, Levels.row_levels};
ghost use Rattle.vbi_line.specs.Packing.{TellsAbove};

use crate::blocks::{LANES, bits_above, block_at, greatest_low};
use crate::packed::Packed;
use vbi_words::{Levels, System};

/// The columns of a word of a packed line.
const WORD: usize = 64;

/// One bit for each of sixteen samples from a column on, the lowest for the first: set if the sample is above `low`.
fn block_bits_at(bytes: &[u8], column: usize, low: u16) -> u64
    requires { 2 * column + 32 ≤ length bytes.now }
    ensures levels { TellsAbove low bytes.now column 16 result }
    ensures range { result < 2 ^ 16 }
{
    let samples = block_at(bytes, column);
    bits_above(samples, low)
}

/// The bits of the last samples before a whole block's end, fewer than sixteen, the lowest for the first: set if the
/// sample is above `low`.
// The samples asked for are the last of the block of sixteen that ends where they end.
fn last_bits_at(bytes: &[u8], column: usize, count: usize, low: u16) -> u64
    requires inside { 2 * (column + count) ≤ length bytes.now }
    requires block { 16 ≤ column + count }
    requires few { count < 16 }
    ensures levels { TellsAbove low bytes.now column count result }
    ensures range { result < 2 ^ count }
{
    block_bits_at(bytes, column + count - LANES, low) >> (LANES - count)
}

/// One bit for each of `count` samples of a line's bytes from a column on, the lowest bit for the first: set if the
/// sample is above `low`.
// Inlined, so that a call with a `count` of 64 is compiled to four blocks one after the other, without the loop.
#[inline(always)]
fn bits_at(bytes: &[u8], column: usize, count: usize, low: u16) -> u64
    requires inside { 2 * (column + count) ≤ length bytes.now }
    requires block { 16 ≤ column + count }
    requires few { count ≤ 64 }
    ensures levels { TellsAbove low bytes.now column count result }
    ensures range { result < 2 ^ count }
{
    let mut bits: u64 = 0;
    let mut done: usize = 0;
    'lanes: while count - done >= LANES {
        bits |= block_bits_at(bytes, column + done, low) << done;
        done += LANES;
    }
    if done < count {
        bits |= last_bits_at(bytes, column + done, count - done, low) << done;
    }
    bits
}

/// Adds the levels of a line's bytes, two for each sample, the low one first.
// Into a line of bits that the caller has, since one that is returned would be copied.
pub(crate) fn slice_into(packed: &mut Packed, bytes: &[u8], system: System, slicing: Levels)
    requires empty { packed.old ≡ [] }
    requires bytes { length bytes.now ≡ line_bytes system }
    ensures levels { packed.new ≡ row_levels slicing bytes.now }
    ensures width { length packed.new ≡ width_of system }
{
    let low = greatest_low(slicing);
    let width = system.width();
    let mut column: usize = 0;
    while width - column >= WORD {
        packed.push(bits_at(bytes, column, WORD, low), WORD);
        column += WORD;
    }
    let rest = width - column;
    if rest > 0 {
        packed.push(bits_at(bytes, column, rest, low), rest);
    }
}

/// The levels of a line's bytes, two for each sample, the low one first. A sample is looked at once or twice; nothing
/// counts that.
pub fn slice_bytes(bytes: &[u8], system: System, slicing: Levels) -> Packed
    requires { length bytes.now ≡ line_bytes system }
    ensures levels { result ≡ row_levels slicing bytes.now }
    ensures width { length result ≡ width_of system }
{
    let mut packed = Packed::new();
    slice_into(&mut packed, bytes, system, slicing);
    packed
}
