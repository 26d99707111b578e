//! How a run ends.

use thiserror::Error;

/// What a run did that went to the end of its stream.
#[derive(Clone, Copy, Debug, PartialEq, Eq)]
pub struct Summary {
    /// The number of whole fields.
    pub fields: u32,
    /// The bytes of a last field that was cut, if one was.
    pub cut: Option<u32>,
    /// How many samples were looked at.
    pub looked: u64,
}

/// Why a run stopped.
#[derive(Clone, Copy, Debug, PartialEq, Eq, Error)]
pub enum RunFault {
    /// The reader failed.
    #[error("read failed in field {field} at byte {offset}")]
    Read {
        /// The field that the next byte would belong to, from 1.
        field: u32,
        /// How many bytes of that field were fetched.
        offset: u32,
    },
    /// The writer failed.
    #[error("write failed after {written} bytes")]
    Write {
        /// How many bytes it took in all.
        written: u64,
    },
    /// A byte followed the last field that is allowed.
    #[error("too many fields")]
    TooManyFields,
    /// A feeder was used after a fault. No other call answers it.
    #[error("feeder failed before")]
    Failed,
}
