//! Devices over memory for the tests of the other crates: readers and a writer that cut, interrupt and fail at set
//! counts, and count how often they are asked; and the asserts of these tests. Stands on std alone, and no program uses
//! it.
#![tactic(auto)]

mod asserts;
mod paper;
mod resumed;
mod tape;
mod zeros;

pub use asserts::{holds, same};
pub use paper::Paper;
pub use resumed::Resumed;
pub use tape::Tape;
pub use zeros::Zeros;
