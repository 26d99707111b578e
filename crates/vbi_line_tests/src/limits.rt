//! Lines at the limits of the two systems' half cells: a single half cell has 11 to 18 columns (NTSC) or 14 to 22
//! (PAL), a double one 22 to 36 or 28 to 44.

use crate::cases::Shape::{Drawn, Least, Run, Runs};
use crate::cases::Turned::{High, Low, Nothing};
use crate::cases::{Clear, Glitch, are_clear, are_read};
use crate::lines::NumberedOutcome::{Blank, Change, Hold, Unfinished, Word};
use std::test::Fail;
use vbi_words::System::{Ntsc, Pal};

/// The word of 24 ones, whose 47 runs after the first low one are single half cells.
const ONES: u32 = 0xFFFFFF;

/// The word of ones and zeros in turn, whose 23 runs after the first low one are double half cells.
const TURNS: u32 = 0xAAAAAA;

/// The word of 23 ones, which ends with a low half cell.
const EVEN: u32 = 0xFFFFFE;

/// A picture stop. Drawn in NTSC its first high run has columns 164 to 191, the low one after it 192 to 206.
const STOP: u32 = 0x82CFFF;

/// A picture of a CLV disc. Drawn in PAL its first high run has columns 207 to 242, the low one after it 243 to 259,
/// and it ends with a low half cell before column 1041.
const CLV: u32 = 0x8AE012;

/// Words whose runs are all single half cells or all double ones.
static LENGTHS: [Clear; 18] = [
    (Ntsc, Runs(11, 10, 47), Change(21)),
    (Ntsc, Runs(11, 11, 47), Word(ONES)),
    (Ntsc, Runs(11, 18, 47), Word(ONES)),
    (Ntsc, Runs(11, 19, 47), Change(30)),
    (Pal, Runs(14, 13, 47), Change(27)),
    (Pal, Runs(14, 14, 47), Word(ONES)),
    (Pal, Runs(14, 22, 47), Word(ONES)),
    (Pal, Runs(14, 23, 47), Change(37)),
    (Ntsc, Runs(11, 21, 23), Change(32)),
    (Ntsc, Runs(11, 22, 23), Word(TURNS)),
    (Ntsc, Runs(11, 36, 23), Word(TURNS)),
    (Ntsc, Runs(11, 37, 23), Hold(47)),
    (Pal, Runs(14, 27, 23), Change(41)),
    (Pal, Runs(14, 28, 23), Word(TURNS)),
    (Pal, Runs(14, 44, 23), Word(TURNS)),
    (Pal, Runs(14, 45, 23), Hold(58)),
    // A word of half cells of 14 to 18 columns is one of both systems.
    (Ntsc, Runs(100, 17, 47), Word(ONES)),
    (Pal, Runs(100, 17, 47), Word(ONES)),
];

#[test]
fn half_cells_have_their_least_and_greatest_length() -> Result<(), Fail> {
    are_clear(&LENGTHS)
}

/// The low run after a single high one begins a cell and can't be double; that after a double one can.
static CAUSES: [Clear; 54] = [
    (Ntsc, Run(0, 0), Blank),
    (Ntsc, Run(0, 1), Change(0)),
    (Ntsc, Run(10, 14), Change(10)),
    (Ntsc, Run(11, 14), Hold(43)),
    (Ntsc, Run(14, 10), Change(24)),
    (Ntsc, Run(14, 11), Hold(43)),
    (Ntsc, Run(14, 14), Hold(46)),
    (Ntsc, Run(14, 18), Hold(50)),
    (Ntsc, Run(14, 19), Change(33)),
    // A high run that may still become a double one until the change.
    (Ntsc, Run(14, 20), Change(34)),
    (Ntsc, Run(14, 21), Change(35)),
    (Ntsc, Run(14, 22), Hold(72)),
    (Ntsc, Run(14, 36), Hold(86)),
    (Ntsc, Run(14, 37), Hold(50)),
    (Ntsc, Run(164, 746), Hold(200)),
    (Pal, Run(0, 0), Blank),
    (Pal, Run(0, 1), Change(0)),
    (Pal, Run(13, 17), Change(13)),
    (Pal, Run(14, 17), Hold(53)),
    (Pal, Run(17, 13), Change(30)),
    (Pal, Run(17, 14), Hold(53)),
    (Pal, Run(17, 17), Hold(56)),
    (Pal, Run(17, 22), Hold(61)),
    (Pal, Run(17, 23), Change(40)),
    (Pal, Run(17, 24), Change(41)),
    (Pal, Run(17, 27), Change(44)),
    (Pal, Run(17, 28), Hold(89)),
    (Pal, Run(17, 44), Hold(105)),
    (Pal, Run(17, 45), Hold(61)),
    (Pal, Run(207, 928), Hold(251)),
    // At the line's end.
    (Ntsc, Run(909, 1), Unfinished),
    (Ntsc, Run(900, 10), Unfinished),
    (Ntsc, Run(895, 10), Change(905)),
    (Ntsc, Run(895, 11), Unfinished),
    (Ntsc, Run(892, 17), Unfinished),
    (Ntsc, Run(892, 18), Unfinished),
    (Ntsc, Run(891, 18), Unfinished),
    (Ntsc, Run(891, 19), Unfinished),
    (Ntsc, Run(889, 19), Change(908)),
    (Ntsc, Run(889, 21), Unfinished),
    (Ntsc, Run(874, 36), Unfinished),
    (Ntsc, Run(873, 37), Hold(909)),
    (Pal, Run(1134, 1), Unfinished),
    (Pal, Run(1125, 10), Unfinished),
    (Pal, Run(1117, 13), Change(1130)),
    (Pal, Run(1117, 14), Unfinished),
    (Pal, Run(1113, 22), Unfinished),
    (Pal, Run(1112, 22), Unfinished),
    (Pal, Run(1112, 23), Unfinished),
    (Pal, Run(1111, 23), Change(1134)),
    (Pal, Run(1108, 27), Unfinished),
    (Pal, Run(1091, 44), Unfinished),
    (Pal, Run(1090, 45), Hold(1134)),
    (Pal, Run(1089, 45), Hold(1133)),
];

#[test]
fn causes_have_the_first_hopeless_column() -> Result<(), Fail> {
    are_clear(&CAUSES)
}

/// Words at a line's very begin and end, whose second pass adds three lows at the begin and takes three columns off the
/// last run.
static EDGES: [Glitch; 29] = [
    (Ntsc, Runs(10, 11, 47), Nothing, Change(10), ONES),
    (Ntsc, Runs(8, 11, 47), Nothing, Change(8), ONES),
    (Ntsc, Runs(7, 11, 47), Nothing, Change(7), 0),
    (Pal, Runs(13, 14, 47), Nothing, Change(13), ONES),
    (Pal, Runs(11, 14, 47), Nothing, Change(11), ONES),
    (Pal, Runs(10, 14, 47), Nothing, Change(10), 0),
    // 48 half cells to the end, or all but the last column of them.
    (Ntsc, Least(ONES, 382), Nothing, Word(ONES), 0),
    (Ntsc, Least(ONES, 383), Nothing, Unfinished, 0),
    (Ntsc, Least(EVEN, 382), Nothing, Word(EVEN), 0),
    (Ntsc, Least(EVEN, 383), Nothing, Unfinished, 0),
    (Pal, Least(ONES, 463), Nothing, Word(ONES), 0),
    (Pal, Least(ONES, 464), Nothing, Unfinished, 0),
    (Pal, Least(EVEN, 463), Nothing, Word(EVEN), 0),
    (Pal, Least(EVEN, 464), Nothing, Unfinished, 0),
    // A last high half cell of the greatest length, and one column longer.
    (Ntsc, Least(ONES, 0), High(528, 535), Word(ONES), 0),
    (Ntsc, Least(ONES, 0), High(528, 536), Hold(535), 0),
    (Pal, Least(ONES, 0), High(672, 680), Word(ONES), 0),
    (Pal, Least(ONES, 0), High(672, 681), Hold(680), 0),
    // A white column, and a last high run that has 8 columns of 11, or 11 of 14, once it is smoothed, or all of them.
    (Ntsc, Least(ONES, 382), High(100, 101), Change(101), 0),
    (Ntsc, Least(ONES, 379), High(100, 101), Change(101), ONES),
    (Pal, Least(ONES, 463), High(100, 101), Change(101), 0),
    (Pal, Least(ONES, 460), High(100, 101), Change(101), ONES),
    (Pal, Least(ONES, 460), High(0, 1), Change(0), ONES),
    // A last high run of 19 to the end, of which 16 are left, or of 23, of which 20 are, and such runs before 11 or 14
    // lows.
    (Ntsc, Least(ONES, 374), High(891, 910), Hold(909), ONES),
    (Ntsc, Least(ONES, 363), High(880, 899), Hold(898), 0),
    (Pal, Least(ONES, 454), High(1112, 1135), Hold(1134), ONES),
    (Pal, Least(ONES, 440), High(1098, 1121), Hold(1120), 0),
    (Pal, Least(ONES, 441), High(1099, 1121), Word(ONES), 0),
    (Ntsc, Least(ONES, 364), High(881, 899), Word(ONES), 0),
];

#[test]
fn words_reach_from_edge_to_edge() -> Result<(), Fail> {
    are_read(&EDGES)
}

/// Drawn words with columns that are turned.
static GLITCHES: [Glitch; 22] = [
    (Ntsc, Drawn(STOP), Nothing, Word(STOP), 0),
    (Ntsc, Drawn(STOP), Low(170, 172), Change(170), STOP),
    (Ntsc, Drawn(STOP), Low(170, 173), Change(170), STOP),
    (Ntsc, Drawn(STOP), Low(170, 174), Change(170), 0),
    (Ntsc, Drawn(STOP), Low(170, 175), Change(170), 0),
    (Ntsc, Drawn(STOP), High(197, 200), Change(197), STOP),
    (Ntsc, Drawn(STOP), High(197, 201), Change(197), 0),
    (Ntsc, Drawn(STOP), High(0, 1), Change(0), STOP),
    (Ntsc, Drawn(STOP), High(50, 53), Change(53), STOP),
    (Ntsc, Drawn(STOP), High(50, 54), Change(54), 0),
    // A column after the word, whose last high one is column 836.
    (Ntsc, Drawn(ONES), High(850, 851), Change(850), ONES),
    (Pal, Drawn(CLV), Nothing, Word(CLV), 0),
    (Pal, Drawn(CLV), Low(215, 216), Change(215), CLV),
    (Pal, Drawn(CLV), Low(215, 218), Change(215), CLV),
    (Pal, Drawn(CLV), Low(215, 219), Change(215), 0),
    (Pal, Drawn(CLV), High(250, 253), Change(250), CLV),
    (Pal, Drawn(CLV), High(250, 254), Change(250), 0),
    (Pal, Drawn(CLV), High(0, 1), Change(0), CLV),
    (Pal, Drawn(CLV), High(50, 53), Change(53), CLV),
    (Pal, Drawn(CLV), High(50, 54), Change(54), 0),
    (Pal, Drawn(CLV), High(1120, 1121), Change(1120), CLV),
    (Pal, Drawn(ONES), High(1080, 1081), Change(1080), ONES),
];

#[test]
fn glitches_of_three_columns_are_smoothed_away() -> Result<(), Fail> {
    are_read(&GLITCHES)
}
