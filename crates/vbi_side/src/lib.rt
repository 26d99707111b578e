//! What a field of a capture shows: which number and which chapter of its disc, whether a picture stop, and whether
//! an end of the side, judged by the fields around it.
//!
//! A line that was misread shows a number like any other. So a number is believed only if sightings of the same field
//! and of the 24 before it and after it fit it at the disc's pace and weigh enough together. The definitions are in
//! `specs/`, and the module `number_laws` says what holds of them: above all that if less than enough of what was read
//! around a field is wrong, a believed number is the true one.
//!
//! `lines` takes what lines show to `sighting`, `belief` weighs sightings at a `pace`, `due_numbers` gives a field its
//! number by those around it, and `judging` judges all fields so. `pace_search` finds the pace, and `clock` says which
//! numbers a disc leaves out. Chapters are weighed alike (`chapters`), the minute of a time is elected (`votes`,
//! `completed_times`), a picture stop (`stops`) and an end of a side (`ends`) are judged by the lines of their own
//! field. `place` finds the believed numbers of a side, and `number_search` one number among answers. Nothing allocates
//! or fails.
#![tactic(auto)]

mod belief;
pub mod chapter_laws;
mod chapters;
mod clock;
mod completed_times;
mod due_numbers;
mod election;
pub mod end_laws;
mod ends;
mod judging;
mod lines;
mod number;
pub mod number_laws;
mod number_search;
mod pace;
mod pace_search;
mod place;
pub mod rule_laws;
pub mod side_laws;
mod sighting;
pub mod stop_laws;
mod stops;
pub mod vote_laws;
mod votes;

pub use belief::{ENOUGH, REACH, judge_field, support};
pub use chapters::{chapters_shown, judge_chapters};
pub use clock::Clock;
pub use completed_times::completed_time;
pub use ends::{DOUBTFUL_END, LEAD_IN, LEAD_OUT, NO_END, PADDING, judge_end};
pub use judging::{PART, judge, judge_one};
pub use lines::{Counted, Shown, sightings};
pub use number::{BELIEVED, DOUBTFUL, DUE, NOTHING, Number};
pub use number_search::first_of;
pub use pace::Pace;
pub use pace_search::found_pace;
pub use place::{
    Place, believed_at, by_clock, first_believed, goes_on, goes_on_by, last_believed, nearly,
};
pub use sighting::{Sighting, Sightings};
pub use stops::judge_stop;
pub use votes::{VOTE_REACH, elected};
