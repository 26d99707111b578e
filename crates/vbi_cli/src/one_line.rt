//! The command `line`.

ghost use Rattle.std.specs.Prelude.{◌≡◌};
ghost use Rattle.vbi_line.specs.Intake as intakes;
ghost use Rattle.vbi_field.specs.{Extracts.AreSameDevices, Ran.over};
ghost use Rattle.vbi_field.specs.Outlet as outlets;
ghost use Rattle.vbi_cli.specs.OneLine.{RunsLine, line_text};

use arrayvec::ArrayString;
use std::io::{Read, Write};
use vbi_field::{Config, Outlet, cause_text, hex_text};
use vbi_line::{Filled, Intake};
use vbi_words::Outcome;

/// Why a line isn't answered.
#[derive(Clone, Copy, Debug, PartialEq, Eq)]
pub enum LineFault {
    /// The reader ended before the line was whole.
    Short {
        /// How many bytes it gave.
        bytes: u16,
    },
    /// The reader failed.
    Read {
        /// How many bytes it gave before.
        offset: u16,
    },
    /// The writer failed.
    Write {
        /// How many bytes it took.
        written: u64,
    },
}

/// Reads one line's bytes and no more, writes the answer, and gives the outcome of the line's reading. After `Short`
/// and `Read` nothing was written. The bytes fetched, the text and the answer belong together as `Answers` says. It
/// doesn't flush.
pub fn run_line<R: Read, W: Write>(
    config: &Config,
    intake: &mut Intake<R>,
    outlet: &mut Outlet<W>,
) -> Result<Outcome, LineFault>
    requires intake { intakes.IsFresh intake.old config.now.system }
    requires outlet { outlets.IsFresh outlet.old }
    ensures same { AreSameDevices intake.old intake.new outlet.old outlet.new }
    ensures run { RunsLine config.now (over R.remaining intake.old intake.new)
        (over W.contents outlet.old outlet.new) result }
{
    match intake.fill_line() {
        Ok(Filled::Full) => {}
        Ok(Filled::Ended(bytes)) => {
            return Err(LineFault::Short {
                bytes: bytes as u16,
            });
        }
        Err(_) => {
            return Err(LineFault::Read {
                offset: intake.held() as u16,
            });
        }
    }
    let reading = intake.reading(config.levels());
    let text = answer(reading.outcome);
    if outlet.put_all(text.as_bytes()).is_err() {
        return Err(LineFault::Write {
            written: outlet.written(),
        });
    }
    Ok(reading.outcome)
}

/// The answer to a line, and a newline.
fn answer(outcome: Outcome) -> ArrayString<17>
    ensures { result.bytes ≡ line_text outcome }
{
    let mut text = ArrayString::new();
    match outcome {
        Outcome::Word(word) => text.push_str(hex_text(word).as_str()),
        _ => text.push_str(cause_text(outcome).as_str()),
    }
    text.push_str("\n");
    text
}
