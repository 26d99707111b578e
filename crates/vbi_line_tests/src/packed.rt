//! Packed lines.

ghost use Rattle.std.specs.Prelude.{◌≡◌, length};
ghost use Rattle.vbi_words.specs.Geometry.{width_of};

use crate::lines::{levels_of, line_of, set};
use std::test::Fail;
use vbi_line::{Packed, slice_lanes};
use vbi_test_devices::{holds, same};
use vbi_words::{Levels, System};

/// The line of these samples as bits.
fn packed_of(system: System, levels: Levels, samples: &[u16; 1135]) -> Packed
    ensures { length result ≡ width_of system }
{
    slice_lanes(&mut line_of(system, samples), levels)
}

/// How many levels are high, and the last of them.
fn highs_of(packed: &Packed) -> (usize, Option<usize>) {
    let mut count = 0_usize;
    let mut last = None;
    for column in 0..packed.width() {
        if packed.level(column) {
            count = count.saturating_add(1);
            last = Some(column);
        }
    }
    (count, last)
}

#[test]
fn the_last_column_alone_is_high() -> Result<(), Fail> {
    for (system, last) in [(System::Ntsc, 909), (System::Pal, 1134)] {
        let levels = levels_of(system);
        let mut samples = [levels.black(); 1135];
        samples[last] = levels.white();
        let packed = packed_of(system, levels, &samples);
        let found = (packed.width(), highs_of(&packed));
        same(found, (last + 1, (1, Some(last))), system)?;
    }
    Ok(())
}

#[test]
fn the_comparison_does_not_wrap() -> Result<(), Fail> {
    for system in [System::Ntsc, System::Pal] {
        for (black, white) in [(65534, 65535), (0, 1)] {
            let levels = Levels::new(black, white)?;
            let mut samples = [black; 1135];
            samples[1] = white;
            let packed = packed_of(system, levels, &samples);
            let found = (packed.level(0), packed.level(1));
            same(found, (false, true), (system, black))?;
        }
    }
    Ok(())
}

/// A system, the whole blocks of its line, and the column after these.
static BLOCKS: [(System, usize, usize); 2] = [(System::Ntsc, 56, 896), (System::Pal, 70, 1120)];

#[test]
fn a_block_needs_sixteen_samples() -> Result<(), Fail> {
    for &(system, blocks, column) in &BLOCKS {
        let mut samples = [0; 1135];
        set(&mut samples, column, column + 1, 1896);
        let mut line = line_of(system, &samples);
        line.start_pass();
        for _ in 0..blocks {
            holds(line.passes() == 1, "one pass")?;
            holds(line.next_block().is_some(), system)?;
        }
        holds(line.passes() == 1, "one pass")?;
        same(line.next_block(), None, system)?;
        holds(line.passes() == 1, "one pass")?;
        same(line.next_sample(), Some(1896), system)?;
    }
    Ok(())
}

/// A system, the columns that are high, from one to another, and a column with the run from there on.
static RUNS: [(System, (usize, usize), usize, (bool, u16)); 12] = [
    (System::Ntsc, (60, 70), 0, (false, 60)),
    (System::Ntsc, (60, 70), 60, (true, 10)),
    (System::Ntsc, (60, 70), 65, (true, 5)),
    (System::Ntsc, (60, 70), 70, (false, 840)),
    (System::Ntsc, (60, 70), 909, (false, 1)),
    (System::Ntsc, (0, 0), 0, (false, 910)),
    (System::Pal, (1000, 1100), 0, (false, 1000)),
    (System::Pal, (1000, 1100), 1000, (true, 100)),
    (System::Pal, (1000, 1100), 1024, (true, 76)),
    (System::Pal, (1000, 1100), 1100, (false, 35)),
    (System::Pal, (1000, 1100), 1134, (false, 1)),
    (System::Pal, (0, 0), 0, (false, 1135)),
];

#[test]
fn runs_go_on_across_words() -> Result<(), Fail> {
    for &(system, (from, to), column, run) in &RUNS {
        let levels = levels_of(system);
        let mut samples = [levels.black(); 1135];
        set(&mut samples, from, to, levels.white());
        let packed = packed_of(system, levels, &samples);
        holds(column < packed.width(), column)?;
        same(packed.next_run(column), run, (system, column))?;
    }
    Ok(())
}
