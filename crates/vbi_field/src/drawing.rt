//! Fields drawn from rows of words.
ghost use Rattle.std.specs.Prelude.{◌≡◌, ◌+◌, ◌-◌, ◌*◌, ◌^◌, ◌≤◌, None, length, OnOk, OnErr, IfErr};
ghost use Rattle.vbi_words.specs.Drawn.{drawn_line_of};
ghost use Rattle.vbi_line.specs.Counted.{tries, failures_of, IsSameDevice};
ghost use Rattle.vbi_field.specs.Outlet.{written_of, CountedUpTo, Serves, Wrote, WrotePart};
ghost use Rattle.vbi_field.specs.{ConfigView.most_rows, Ran.over, Draws.drawn_field_of, Draws.word_at};
ghost use Rattle.vbi_field.specs.{Draws.RunsDrawing};
ghost use Rattle.vbi_field.specs.Outlet as outlets;
ghost use Rattle.vbi_field.specs.RowIntake as intakes;

use crate::config::Config;
use crate::outlet::Outlet;
use crate::row_intake::{NextByte, NextRow, RowIntake};
use crate::summary::RunFault;
use crate::word_row::WordRow;
use std::io::{Read, Write};
use thiserror::Error;
use vbi_words::{LONGEST_LINE, Word24, draw_line};

/// Why drawing stopped. Rows are counted from 1.
#[derive(Clone, Copy, Debug, PartialEq, Eq, Error)]
pub enum DrawFault {
    /// A row is malformed.
    #[error("row {number} is malformed")]
    Row {
        /// The number of the malformed row.
        number: u32,
    },
    /// The reader failed before a row was read whole.
    #[error("read failed in row {number}")]
    Read {
        /// The number of the unfinished row.
        number: u32,
    },
    /// The writer failed.
    #[error("{}", RunFault::Write {written: *.written})]
    Write {
        /// How many bytes it took in all.
        written: u64,
    },
    /// A byte followed the last row that is allowed.
    #[error("{}", RunFault::TooManyFields)]
    TooManyFields,
}

/// The word that a row of a field has.
fn word_of_row(words: &WordRow, row: usize) -> Option<Word24>
    ensures { result ≡ word_at words.now row }
{
    match row {
        15 => words.first,
        16 => words.second,
        17 => words.third,
        _ => None,
    }
}

/// Draws the line of a row of a field over that of the row before. Only rows 15 to 18 differ from the row before them.
fn next_line(config: &Config, words: &WordRow, row: usize, line: &mut [u8])
    requires { line.old ≡ drawn_line_of config.now.system config.now.levels (word_at words.now (row - 1)) }
    ensures { line.new ≡ drawn_line_of config.now.system config.now.levels (word_at words.now row) }
{
    if 15 <= row && row <= 18 {
        draw_line(
            config.system(),
            config.levels(),
            word_of_row(words, row),
            line,
        );
    }
}

/// Writes the field of a row of words. The line has a drawn row of no word before, and again afterwards.
fn put_field<W: Write>(
    config: &Config,
    words: &WordRow,
    line: &mut [u8],
    outlet: &mut Outlet<W>,
) -> Result<(), DrawFault>
    requires black { line.old ≡ drawn_line_of config.now.system config.now.levels None }
    requires counts { CountedUpTo (2 ^ 61) outlet.old }
    ensures black { OnOk result (line.new ≡ drawn_line_of config.now.system config.now.levels None) }
    ensures serves { Serves outlet.old outlet.new result }
    ensures ok { OnOk result (Wrote W.contents outlet.old outlet.new (drawn_field_of config.now words.now)) }
    ensures part { OnErr result (WrotePart W.contents outlet.old outlet.new (drawn_field_of config.now words.now)) }
    ensures least { (failures_of (outlets.counted_of outlet.old)).all
        ≤ (failures_of (outlets.counted_of outlet.new)).all }
    ensures most { (failures_of (outlets.counted_of outlet.new)).all ≤ (failures_of (outlets.counted_of outlet.old)).all
        + tries * (length (drawn_field_of config.now words.now) + most_rows) }
    ensures fault { IfErr result (λ e. e ≡ DrawFault.Write (written_of outlet.new)) }
{
    for row in 0..config.system().height() {
        next_line(config, words, row, line);
        match outlet.put_all(line) {
            Ok(()) => {}
            Err(_) => {
                return Err(DrawFault::Write {
                    written: outlet.written(),
                });
            }
        }
    }
    Ok(())
}

/// Writes the TBC stream of a text of words: a field for each row, as soon as the row was fetched. It answers the
/// number of fields. The bytes fetched, those written and the answer belong together as `Draws` says. It doesn't flush.
pub fn draw<R: Read, W: Write>(
    config: &Config,
    rows: &mut RowIntake<R>,
    outlet: &mut Outlet<W>,
) -> Result<u32, DrawFault>
    requires rows { intakes.IsFresh rows.old }
    requires outlet { outlets.IsFresh outlet.old }
    ensures same_reader { IsSameDevice (intakes.counted_of rows.old) (intakes.counted_of rows.new) }
    ensures same_writer { IsSameDevice (outlets.counted_of outlet.old) (outlets.counted_of outlet.new) }
    ensures run { RunsDrawing config.now (over R.remaining rows.old rows.new)
        (over W.contents outlet.old outlet.new) result }
{
    let mut bytes = [0u8; LONGEST_LINE];
    let line = &mut bytes[..config.line_bytes()];
    draw_line(config.system(), config.levels(), None, line);
    for done in 0..config.max_fields() {
        match rows.next_row() {
            NextRow::Row(words) => put_field(config, &words, line, outlet)?,
            NextRow::LastRow(words) => {
                put_field(config, &words, line, outlet)?;
                return Ok(done + 1);
            }
            NextRow::Malformed => return Err(DrawFault::Row { number: done + 1 }),
            NextRow::AtEnd => return Ok(done),
            NextRow::Failed => return Err(DrawFault::Read { number: done + 1 }),
        }
    }
    match rows.next_byte() {
        NextByte::AtEnd => Ok(config.max_fields()),
        NextByte::Byte(_) => Err(DrawFault::TooManyFields),
        NextByte::Failed => Err(DrawFault::Read {
            number: config.max_fields() + 1,
        }),
    }
}
