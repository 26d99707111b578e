//! Seeking in the bytes of a LaserDisc side, of which few fields are read: a number (`seek_number`), a chapter
//! (`seek_chapter`) or the next picture stop (`next_stop`).
//!
//! What is answered holds of the whole side, as the judge of `vbi_side` answers it by what all of its fields show with
//! the nearest words of worn lines (`vbi_near`). A number or a chapter is found for sure if the fields lead to it: what
//! that means is the same of both (specs/Spots.antt).
//!
//! `field_lines.rt` reads one field. What some fields in a row tell together is in `spots.rt`. By that `narrowing.rt`
//! and `halving.rt` find the place at which to look for either (`Target` of `search.rt`). `number_search.rt` judges the
//! fields around that place and answers, with the numbers beside it (`neighbours.rt`), and `chapter_search.rt` does it
//! for chapters, which last long. `stop_search.rt` reads field after field.
#![tactic(auto)]

mod asked;
mod chapter_search;
mod field_lines;
mod halving;
pub mod laws;
mod narrowing;
mod neighbours;
mod number_search;
mod search;
mod side_bytes;
mod spots;
mod stop_search;

pub use asked::{Asked, Judging, pace_for};
pub use chapter_search::seek_chapter;
pub use neighbours::Neighbour;
pub use number_search::{Sought, seek_number};
pub use search::Seek;
pub use side_bytes::{FoundField, Setup};
pub use stop_search::next_stop;
