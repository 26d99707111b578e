//! The code words of LaserDiscs (IEC 60857 and IEC 60856) and the lines of video that show them.
//!
//! Here are the geometry of ld-decode's TBC files, the comparison that makes a sample high or low, code words and their
//! classes, and how a word is drawn. The definitions of what a line shows, of its outcome and of its reading are in
//! `specs/`, and the module `laws` says what holds of them, as that a line shows at most one word. Only std is used.
//! Nothing allocates, and a call fails only as its contract says.
#![tactic(auto)]

mod code;
mod drawing;
mod format;
pub mod laws;
mod levels;
mod outcome;
mod system;
mod word;

pub use code::{Code, classify, digit};
pub use drawing::{draw_line, drawn_sample};
pub use format::{Format, format_of};
pub use levels::{Levels, LevelsFault};
pub use outcome::{Outcome, Reading};
pub use system::{LONGEST_LINE, System};
pub use word::{Word24, WordFault};
