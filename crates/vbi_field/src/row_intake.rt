//! The intake of rows of words from a reader.
ghost use Rattle.std.specs.Prelude.{◌≡◌, ◌+◌, ◌*◌, ◌^◌, ◌<◌, ◌≤◌, length};

use crate::word_row::{WordRow, read_word_row};
use std::io::Read;
use vbi_line::Counted;

/// The bytes of a row at which it is malformed, whatever follows: a good one has at most 20 before its newline.
const ROW_LIMIT: usize = 21;

/// What the reader gives when a byte is asked for.
#[derive(Clone, Copy)]
pub(crate) enum NextByte {
    /// A byte.
    Byte(u8),
    /// The reader's end.
    AtEnd,
    /// A fault of the reader.
    Failed,
}

/// What the reader gives when a row is asked for.
#[derive(Clone, Copy)]
pub(crate) enum NextRow {
    /// A row with its newline, and the words that it stands for.
    Row(WordRow),
    /// A row that the reader's end closed, and the words that it stands for.
    LastRow(WordRow),
    /// A malformed row, read up to its newline, the reader's end or its 21st byte.
    Malformed,
    /// The reader's end, and no byte before it.
    AtEnd,
    /// A fault of the reader.
    Failed,
}

/// A reader of the text of words: a row of three items and a newline for each field.
#[derive(Drop)]
pub struct RowIntake<'a, R> {
    device: Counted<'a, R>,
    fetched: u64,
}

impl<'a, R: Read> RowIntake<'a, R> {
    ghost use Rattle.vbi_line.specs.Counted.{name_of, device_of, failures_of};
    ghost use Rattle.vbi_field.specs.RowIntake.{counted_of, fetched_of, IsFresh, TakesByte, TakesRow};

    /// An intake that has fetched nothing.
    pub fn new(reader: &'a mut R) -> Self
        ensures same { name_of (counted_of result) ≡ reader.entry.ghost_name }
        ensures reader { device_of (counted_of result) ≡ reader.old }
        ensures fresh { IsFresh result }
    {
        RowIntake {
            device: Counted::new(reader),
            fetched: 0,
        }
    }

    /// The reader again. A caller that lent it knows by this what the reader is now.
    pub fn into_reader(self) -> &'a mut R
        ensures same { result.ghost_name ≡ name_of (counted_of self.entry) }
        ensures reader { result.now ≡ device_of (counted_of self.entry) }
    {
        let RowIntake { device, fetched: _ } = self;
        device.into_inner()
    }

    /// How many bytes the reader gave.
    pub fn fetched(&self) -> u64
        ensures { result ≡ fetched_of self.now }
    {
        self.fetched
    }

    /// How often the reader failed, interruptions among these.
    pub fn failures(&self) -> u64
        ensures { result ≡ (failures_of (counted_of self.now)).all }
    {
        self.device.failures()
    }

    /// How often the reader failed, interruptions not among these.
    pub fn errors(&self) -> u64
        ensures { result ≡ (failures_of (counted_of self.now)).errors }
    {
        self.device.errors()
    }

    /// Takes the next byte. An interrupted read is tried again at most 16 times in a row.
    pub(crate) fn next_byte(&mut self) -> NextByte
        requires fetched { fetched_of self.old ≤ 2 ^ 62 }
        requires failures { (failures_of (counted_of self.old)).all ≤ 2 ^ 62 }
        ensures { TakesByte R.remaining self.old self.new result }
    {
        // One byte in a read, since none after a row may be fetched before the row's field is written.
        let mut byte = [0u8; 1];
        match self.device.read_some(&mut byte) {
            Ok(0) => NextByte::AtEnd,
            Ok(_) => {
                self.fetched += 1;
                NextByte::Byte(byte[0])
            }
            Err(_) => NextByte::Failed,
        }
    }

    /// Takes the next row: the bytes up to its newline, the reader's end or the 21st byte that isn't a newline.
    pub(crate) fn next_row(&mut self) -> NextRow
        requires fetched { fetched_of self.old ≤ 2 ^ 61 }
        requires failures { (failures_of (counted_of self.old)).all ≤ 2 ^ 61 }
        ensures { TakesRow R.remaining self.old self.new result }
    {
        let mut row = [0u8; ROW_LIMIT];
        for held in 0..ROW_LIMIT {
            match self.next_byte() {
                NextByte::Byte(byte) => {
                    if byte == b'\n' {
                        return match read_word_row(&row[..held]) {
                            Some(words) => NextRow::Row(words),
                            None => NextRow::Malformed,
                        };
                    }
                    row[held] = byte;
                }
                NextByte::AtEnd => {
                    if held == 0 {
                        return NextRow::AtEnd;
                    }
                    return match read_word_row(&row[..held]) {
                        Some(words) => NextRow::LastRow(words),
                        None => NextRow::Malformed,
                    };
                }
                NextByte::Failed => return NextRow::Failed,
            }
        }
        NextRow::Malformed
    }
}
