//! The buffer of a line: its room, and passes over its samples.

ghost use Rattle.std.specs.Prelude.{◌≡◌, ◌≤◌, [], length};
ghost use Rattle.vbi_line.specs.Line.{IsFull};

use crate::intakes::stored_line;
use std::test::Fail;
use vbi_line::LineBuf;
use vbi_test_devices::{holds, same};
use vbi_words::System;

/// A system, the bytes of its line, and those that are left of it after 820.
static ROOMS: [(System, usize, usize); 2] = [(System::Ntsc, 1820, 1000), (System::Pal, 2270, 1450)];

/// Whether a new line is full, the bytes that it holds at first, after 820 bytes and when cleared, and its room after
/// these bytes and when cleared.
fn held_and_left(mut line: LineBuf) -> (bool, [usize; 3], [usize; 2])
    requires { 820 ≤ length line.room }
{
    let is_full = line.is_full();
    line.room().fill(1);
    let first = line.held();
    line.commit(820);
    let held = line.held();
    let left = line.room().len();
    line.clear();
    let cleared = line.held();
    (is_full, [first, held, cleared], [left, line.room().len()])
}

#[test]
fn what_is_not_committed_is_not_held() -> Result<(), Fail> {
    for &(system, bytes, left) in &ROOMS {
        let found = held_and_left(LineBuf::new(system));
        same(found, (false, [0, 820, 0], [left, bytes]), system)?;
    }
    Ok(())
}

/// The passes over a line, the looks at its samples in these, and all looks ever.
type Counts = (usize, usize, u64);

fn counts_of(line: &LineBuf) -> Counts {
    (line.passes(), line.looks(), line.looked())
}

/// The counts of a line before a pass, after a block of it, after a sample of a second pass, and when it is cleared;
/// with the block and the sample.
fn in_two_passes(mut line: LineBuf) -> Option<([Counts; 4], [u16; 16], Option<u16>)>
    requires full { IsFull line }
    requires passes { line.cursors ≡ [] }
    requires looked { line.looked ≡ 0 }
{
    let before = counts_of(&line);
    line.start_pass();
    let block = line.next_block()?;
    let first = counts_of(&line);
    line.start_pass();
    let sample = line.next_sample();
    let second = counts_of(&line);
    line.clear();
    Some(([before, first, second, counts_of(&line)], block, sample))
}

// The stored line has 0x2020 and 0x4040 as its samples, the first of them low.
#[test]
fn each_pass_counts_its_looks() -> Result<(), Fail> {
    let mut line = LineBuf::new(System::Ntsc);
    line.room().copy_from_slice(&stored_line());
    line.commit(1820);
    holds(line.is_full(), "full")?;
    let counts = [(0, 0, 0), (1, 16, 16), (2, 17, 17), (0, 0, 17)];
    let expected = Some((counts, [0x2020; 16], Some(0x2020)));
    same(in_two_passes(line), expected, "the stored line")
}
