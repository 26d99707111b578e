//! Slicing a line into levels, sixteen samples at a time.
//!
//! A level is whether a sample is above the middle of black and white. blocks.rt compares sixteen samples with it at
//! once, by the processor's vectors, and gives a bit for each; packed.rt holds the bits of a line. From there on nobody
//! looks at samples: the first reading, the second and every cause are found in the bits, which is why one pass is
//! enough for both readings.
//!
//! There are two slicers. This one goes over a `LineBuf`, which counts each sample that is looked at, and is the one
//! behind the promise that no sample is looked at more than twice. bytes_to_levels.rt slices bytes where they lie, for
//! callers who need no counts; it may look at the last samples twice, as its last block overlaps the one before. Here
//! the samples after the last whole block (14 of NTSC, 15 of PAL) are taken one by one, so that each counts once.
//!
//! Sixteen divides 64, the columns of a word of `Packed`, so no block is split between two of them: `Packed::push`
//! requires it. Another number of lanes changes `LANES`, the arrays in blocks.rt, `LineBuf::next_block` and what
//! `specs/Line.antt` says of a block. How a sample becomes a level is said by `Levels.antt` in `vbi_words`.

ghost use Rattle.std.specs.Prelude.{◌≡◌, ◌+◌, ◌^◌, ◌<◌, ◌≤◌, ◌∷◌, length};
ghost use Rattle.vbi_words.specs.{Geometry.width_of, Levels.row_levels};
ghost use Rattle.vbi_line.specs.Line.{IsFull, KeepsBytes};

use crate::blocks::{LANES, bits_above, greatest_low};
use crate::line::LineBuf;
use crate::packed::Packed;
use vbi_words::Levels;

/// The levels of a line that is held whole, by one pass over its samples: blocks of sixteen, and the rest one by one.
pub fn slice_lanes(line: &mut LineBuf, slicing: Levels) -> Packed
    requires full { IsFull line.old }
    requires room { length line.old.cursors < 2 }
    requires looked { line.old.looked ≤ 2 ^ 62 }
    ensures levels { result ≡ row_levels slicing line.old.held }
    ensures width { length result ≡ width_of line.old.system }

    // The new pass has looked at each sample.
    ensures bytes { KeepsBytes line.old line.new }
    ensures pass { line.new.cursors ≡ width_of line.old.system ∷ line.old.cursors }
    ensures looked { line.new.looked ≡ line.old.looked + width_of line.old.system }
{
    let low = greatest_low(slicing);
    line.start_pass();
    let mut packed = Packed::new();
    while let Some(block) = line.next_block() {
        packed.push(bits_above(block, low), LANES);
    }
    while let Some(sample) = line.next_sample() {
        packed.push(u64::from(sample > low), 1);
    }
    packed
}
