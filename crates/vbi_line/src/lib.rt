//! One line of an ld-decode TBC stream: its bytes, its levels, and the code word that it shows.
//!
//! An `Intake` reads a line from a reader, and `read_line` and `read_twice` find its outcome and its reading, exactly
//! as the definitions of `vbi_words` say; if a line shows no word, the outcome names the first hopeless column. The
//! module `laws` says that each line has exactly one outcome and one reading. Bytes fetched, samples looked at and
//! failed calls of the reader are counted. No sample of a line is looked at more than twice, and nothing allocates. For
//! callers that have a line's bytes and need no counts there are `slice_bytes` and `read_bytes_twice`.
#![tactic(auto)]

mod blocks;
mod bytes_to_levels;
mod counted;
mod decoder;
mod intake;
mod lanes;
pub mod laws;
mod line;
mod outcome;
mod packed;
mod reading;
mod repeated_calls;
mod store;
mod straight;

pub use bytes_to_levels::slice_bytes;
pub use counted::{Counted, Fail};
pub use intake::{Filled, Intake, IntakeFault};
pub use lanes::slice_lanes;
pub use line::LineBuf;
pub use outcome::{read_line, read_packed};
pub use packed::Packed;
pub use reading::{read_bytes_twice, read_packed_twice, read_twice, take_reading};
pub use repeated_calls::RETRIES;
