//! Streams of fields whose lines are known.
ghost use Rattle.std.specs.Prelude.{◌<◌};
ghost use Rattle.vbi_words.specs.Geometry.{width_of};

use std::alloc::{AllocError, Global};
use std::test::Fail;
use vbi_field::{Config, ConfigFault};
use vbi_test_devices::same;
use vbi_words::{Levels, System, Word24, drawn_sample};

/// The settings of the streams here.
pub(crate) fn config(system: System, max_fields: u32) -> Result<Config, Fail> {
    let white = match system {
        System::Ntsc => 51200,
        System::Pal => 54016,
    };
    Ok(Config::new(system, Levels::new(16384, white)?, max_fields)?)
}

/// What a line shows.
#[derive(Clone, Copy)]
pub(crate) enum Line {
    Black,
    /// A drawn word.
    Word(u32),
    /// A drawn word of which two columns in its first high half cell are black: 170 and 171, or 215 and 216 of PAL.
    Scratched(u32),
    /// A drawn word of which five columns are turned over, the fourth to the eighth of a cell: of its third in NTSC,
    /// 210 to 214, of its fourth in PAL, 299 to 303.
    Torn(u32),
    /// This many black columns, this many white ones, and black ones to the end.
    Run(usize, usize),
}

/// The lines 16, 17 and 18 of a field, which are its rows 15, 16 and 17.
pub(crate) type Lines = [Line; 3];

pub(crate) const NONE: Lines = [Line::Black, Line::Black, Line::Black];

pub(crate) const DRAWN: Lines = [
    Line::Word(0x82CFFF),
    Line::Word(0xF12345),
    Line::Word(0xF12345),
];

fn sample_of(config: &Config, line: Line, column: usize) -> u16
    requires { column < width_of config.now.system }
{
    let levels = config.levels();
    let is_scratch = matches!(
        (config.system(), column),
        (System::Ntsc, 170 | 171) | (System::Pal, 215 | 216)
    );
    let is_torn = match config.system() {
        System::Ntsc => 210 <= column && column <= 214,
        System::Pal => 299 <= column && column <= 303,
    };
    let word = match line {
        Line::Black => None,
        Line::Word(value) => Word24::new(value).ok(),
        Line::Torn(value) => {
            let word = Word24::new(value).ok();
            let sample = drawn_sample(config.system(), levels, word, column);
            // What is black becomes white, and the other way round.
            return if is_torn == (sample == levels.black()) {
                levels.white()
            } else {
                levels.black()
            };
        }
        Line::Scratched(_) if is_scratch => None,
        Line::Scratched(value) => Word24::new(value).ok(),
        Line::Run(low, high) => {
            let is_white = low <= column && column < low.saturating_add(high);
            return if is_white {
                levels.white()
            } else {
                levels.black()
            };
        }
    };
    drawn_sample(config.system(), levels, word, column)
}

/// Appends a field with these lines; all others are black.
pub(crate) fn push_field(
    stream: &mut Vec<u8>,
    config: &Config,
    lines: Lines,
) -> Result<(), AllocError> {
    let [first, second, third] = lines;
    for row in 0..config.system().height() {
        let line = match row {
            15 => first,
            16 => second,
            17 => third,
            _ => Line::Black,
        };
        for column in 0..config.system().width() {
            let sample = sample_of(config, line, column);
            stream.extend_from_slice(&sample.to_le_bytes())?;
        }
    }
    Ok(())
}

/// A stream of one field with these lines.
pub(crate) fn field(alloc: Global, config: &Config, lines: Lines) -> Result<Vec<u8>, AllocError> {
    let mut stream = Vec::new(alloc);
    push_field(&mut stream, config, lines)?;
    Ok(stream)
}

/// A stream of two fields, the second black.
pub(crate) fn two_fields(
    alloc: Global,
    config: &Config,
    lines: Lines,
) -> Result<Vec<u8>, AllocError> {
    let mut stream = field(alloc, config, lines)?;
    push_field(&mut stream, config, NONE)?;
    Ok(stream)
}

/// The first bytes of a stream, this many, or all of a shorter one.
pub(crate) fn front(stream: &[u8], count: usize) -> &[u8] {
    let (front, _) = stream.split_at(count.min(stream.len()));
    front
}

/// Limits of fields, and what a config of them is refused for.
static LIMITS: [(u32, Option<ConfigFault>); 4] = [
    (0, Some(ConfigFault::BadMaxFields)),
    (1, None),
    (1_000_000, None),
    (1_000_001, Some(ConfigFault::BadMaxFields)),
];

#[test]
fn a_limit_is_from_one_to_a_million_fields() -> Result<(), Fail> {
    let levels = Levels::new(16384, 51200)?;
    for system in [System::Ntsc, System::Pal] {
        for &(limit, fault) in &LIMITS {
            same(Config::new(system, levels, limit).err(), fault, limit)?;
        }
    }
    Ok(())
}

#[test]
fn a_config_keeps_its_values() -> Result<(), Fail> {
    let levels = Levels::new(16384, 54016)?;
    for (system, limit) in [(System::Pal, 7), (System::Ntsc, 1_000_000)] {
        let config = Config::new(system, levels, limit)?;
        let found = (config.system(), config.levels(), config.max_fields());
        same(found, (system, levels, limit), "a config")?;
    }
    Ok(())
}
