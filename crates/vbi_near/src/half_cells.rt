//! The columns of a word's half cells.

ghost use Rattle.std.specs.Prelude.{◌≡◌, ◌+◌, ◌≤◌};
ghost use Rattle.vbi_near.specs.Common.{width_of, start_of, boundary, column_of, word_length};

use vbi_words::System;

/// The columns from the start of a word of NTSC to each of its half cells, and to its end.
const NTSC: [usize; 49] = [
    0, 14, 28, 42, 57, 71, 85, 100, 114, 128, 143, 157, 171, 186, 200, 214, 229, 243, 257, 272,
    286, 300, 315, 329, 343, 357, 372, 386, 400, 415, 429, 443, 458, 472, 486, 501, 515, 529, 544,
    558, 572, 587, 601, 615, 630, 644, 658, 672, 687,
];

/// The columns from the start of a word of PAL to each of its half cells, and to its end.
const PAL: [usize; 49] = [
    0, 17, 35, 53, 70, 88, 106, 124, 141, 159, 177, 195, 212, 230, 248, 266, 283, 301, 319, 336,
    354, 372, 390, 407, 425, 443, 461, 478, 496, 514, 532, 549, 567, 585, 602, 620, 638, 656, 673,
    691, 709, 727, 744, 762, 780, 798, 815, 833, 851,
];

/// The columns from a word's start to a half cell, or to its end.
#[inline(always)]
#[tactic(auto, using(crate::proofs::Tables::in_ntsc, crate::proofs::Tables::in_pal))]
pub(crate) fn offset(system: System, half: usize) -> usize
    requires { half ≤ 48 }
    ensures value { start_of system + result ≡ boundary system half }
    ensures range { result ≤ word_length system }
{
    match system {
        System::Ntsc => NTSC[half],
        System::Pal => PAL[half],
    }
}

/// The column at which a half cell begins, or the word ends, if it begins at `start`.
#[inline(always)]
pub(crate) fn column(system: System, start: usize, half: usize) -> usize
    requires half { half ≤ 48 }
    requires start { start + word_length system ≤ width_of system }
    ensures value { result ≡ column_of system start half }
    ensures range { result ≤ start + word_length system }
{
    start + offset(system, half)
}

/// The columns at which a cell begins, has its middle and ends.
#[derive(Clone, Copy)]
pub(crate) struct Cell {
    pub(crate) begin: usize,
    pub(crate) middle: usize,
    pub(crate) end: usize,
    ghost order: { (begin ≤ middle) × (middle ≤ end) × (end ≤ begin + 36) },
}
