//! Refusals, and the sizes of both systems.

use std::test::Fail;
use vbi_test_devices::same;
use vbi_words::{Levels, LevelsFault, System, Word24, WordFault};

/// Black, white, and whether they are refused.
static LEVELS: [(u16, u16, bool); 6] = [
    (5, 5, true),
    (5, 6, false),
    (6, 5, true),
    (0, 65535, false),
    (65535, 65535, true),
    (65535, 0, true),
];

#[test]
fn levels_out_of_order_are_refused() -> Result<(), Fail> {
    for &(black, white, is_refused) in &LEVELS {
        let expected = if is_refused {
            Err(LevelsFault::Order)
        } else {
            Ok((black, white))
        };
        let found = match Levels::new(black, white) {
            Ok(levels) => Ok((levels.black(), levels.white())),
            Err(fault) => Err(fault),
        };
        same(found, expected, (black, white))?;
    }
    Ok(())
}

/// Numbers, and what each is refused for.
static NUMBERS: [(u32, Option<WordFault>); 6] = [
    (0, Some(WordFault::TopBitClear)),
    (8_388_607, Some(WordFault::TopBitClear)),
    (8_388_608, None),
    (16_777_215, None),
    (16_777_216, Some(WordFault::TooWide)),
    (4_294_967_295, Some(WordFault::TooWide)),
];

#[test]
fn numbers_that_are_no_words_are_refused() -> Result<(), Fail> {
    for &(value, fault) in &NUMBERS {
        same(Word24::new(value).err(), fault, value)?;
    }
    Ok(())
}

/// A system, its name, the samples and the bytes of a line, the lines and the bytes of a field, the fewest and the most
/// samples of a half cell, and the column at which a drawn word begins.
static SYSTEMS: [(System, &str, [usize; 7]); 2] = [
    (System::Ntsc, "NTSC", [910, 1820, 263, 478_660, 11, 18, 150]),
    (System::Pal, "PAL", [1135, 2270, 313, 710_510, 14, 22, 190]),
];

/// The numbers of a system, in the order of `SYSTEMS`.
fn numbers_of(system: System) -> [usize; 7] {
    [
        system.width(),
        system.line_bytes(),
        system.height(),
        system.field_bytes(),
        system.half_min(),
        system.half_max(),
        system.start(),
    ]
}

/// Names of no system.
static NO_NAMES: [&str; 6] = ["", "ntsc", "Pal", "NTSC ", "PALM", "SECAM"];

#[test]
fn both_systems_have_their_geometry() -> Result<(), Fail> {
    for &(system, name, numbers) in &SYSTEMS {
        let found = (system.name(), System::named(name));
        same(found, (name, Some(system)), system)?;
        same(numbers_of(system), numbers, system)?;
    }
    for &name in &NO_NAMES {
        same(System::named(name), None, name)?;
    }
    Ok(())
}
