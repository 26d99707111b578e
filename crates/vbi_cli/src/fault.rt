//! Why a job fails.

use thiserror::Error;
use vbi_field::{DrawFault, RunFault};
use vbi_meta::MetaFault;

/// Why a job failed: the fault of the first step that did. `Display` gives the text that the program prints, which is
/// that of the step's own fault.
#[derive(Clone, Copy, Debug, PartialEq, Eq, Error)]
pub enum AppFault {
    /// Metadata or settings were refused.
    #[error(transparent)]
    Meta(#[from] MetaFault),
    /// The reader failed within a TBC stream.
    #[error("{}", RunFault::Read {field: *.field, offset: *.offset})]
    ReadField {
        /// The field that the next byte would belong to, from 1.
        field: u32,
        /// How many bytes of that field were read.
        offset: u32,
    },
    /// The reader failed within the bytes of one line.
    #[error("read failed at byte {offset}")]
    ReadLine {
        /// How many bytes were read.
        offset: u16,
    },
    /// The reader failed within the rows of words.
    #[error("{}", DrawFault::Read {number: *.number})]
    ReadRow {
        /// The row, from 1.
        number: u32,
    },
    /// The writer failed.
    #[error("{}", RunFault::Write {written: *.written})]
    Write {
        /// How many bytes the writer took.
        written: u64,
    },
    /// The input went on after the last field that is allowed.
    #[error("{}", RunFault::TooManyFields)]
    TooManyFields,
    /// A row isn't three items with one space between.
    #[error("{}", DrawFault::Row {number: *.number})]
    Row {
        /// The row, from 1.
        number: u32,
    },
    /// The input ended before a line was whole.
    #[error("short line: {bytes} of {wanted} bytes")]
    Short {
        /// How many bytes were read.
        bytes: u16,
        /// How many a line has.
        wanted: u16,
    },
}
