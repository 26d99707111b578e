//! Blocks of sixteen samples, and the comparison of each sample with a level.

ghost use Rattle.std.specs.Prelude.{◌≡◌, ℕ, ◌+◌, ◌*◌, ◌^◌, ◌<◌, ◌≤◌, length, map, nat_lt, slice_index};
ghost use Rattle.vbi_words.specs.Levels.{is_high_of};
ghost use Rattle.vbi_line.specs.{Line.sample_at, Packing.levels_in};

use byteorder::{ByteOrder, LittleEndian};
use std::simd::prelude::*;
use vbi_words::Levels;

/// The samples of a block.
pub(crate) const LANES: usize = 16;

/// Sixteen samples of a line's bytes, from a column on.
pub(crate) fn block_at(bytes: &[u8], column: usize) -> [u16; 16]
    requires { 2 * column + 32 ≤ length bytes.now }
    ensures long { length result ≡ 16 }
    ensures each { (k : ℕ) → k < 16 → slice_index result k ≡ sample_at bytes.now (column + k) }
{
    let mut block = [0; 16];
    LittleEndian::read_u16_into(&bytes[2 * column..2 * column + 32], &mut block);
    block
}

/// The greatest sample that is low: the middle of black and white, rounded down.
// It fits in 16 bits, as a lane does. Twice a sample may not.
pub(crate) fn greatest_low(slicing: Levels) -> u16
    ensures { (sample : ℕ) → is_high_of slicing sample ≡ nat_lt result sample }
{
    ((u32::from(slicing.black()) + u32::from(slicing.white())) / 2) as u16
}

/// One bit for each of sixteen samples, the lowest for the first: set if the sample is above `low`.
pub(crate) fn bits_above(samples: [u16; 16], low: u16) -> u64
    ensures levels { levels_in 16 result ≡ map (λ sample. nat_lt low sample) samples }
    ensures range { result < 2 ^ 16 }
{
    u16x16::from_array(samples)
        .simd_gt(u16x16::splat(low))
        .to_bitmask()
}
