//! The readings of a field.

use vbi_words::Reading;

/// The readings of a field's lines 16, 17 and 18.
#[derive(Clone, Copy, Debug, PartialEq, Eq)]
pub struct FieldReadings {
    /// Line 16.
    pub first: Reading,
    /// Line 17.
    pub second: Reading,
    /// Line 18.
    pub third: Reading,
}
