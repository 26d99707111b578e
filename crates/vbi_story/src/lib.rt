//! The story of a side: which of its readings are told one after the other, so that nothing is worth more.
//!
//! A line that was misread shows a number like any other, and a disc may jump, stand still or lose fields. So the
//! readings of a side are weighed as a whole. A **reading** is a field, a row and a weight: a number that the field
//! shows, on a **row** on which numbers of one pace go on (of video field - 2 * number stays the same). A number may
//! be given on several rows, one for each pace; a story takes at most one reading of a field. A **story** is some of
//! the readings, each of a later field than the one before. It is worth its weights less the prices of its steps: 0 on
//! one row, 3 to a row at most 6 off, 10 to any other. `decode` marks a story that is worth as much as any; `bound`
//! says of each reading what the best story through it is worth, so that rivals that are as good are seen.
//!
//! `rows` has the rows on which a number in a field stands: of video, film, numbers on both fields of a picture, other
//! speeds and stills.
//!
//! It is one pass over the readings in the order of their fields. `table` keeps the place of the best reading on each
//! row, and that of the best of all; readings are entered there once a later field is reached, so that no story takes
//! two of one field. A reading's value is its weight and the best of what may stand before it (`before`): nothing, the
//! best on its row, the best on a near row less 3, the best of all less 10. `judge` keeps of each reading its value and
//! its origin, and on the way back (`walk`) what was taken is marked, and told (`told`). `rivals` makes the same pass
//! over the readings in a mirror too, last field first. `place` keeps the place of a reading in 4 bytes. The time grows
//! as the readings. A story tells misread numbers too, where nothing outweighs them: `belief` says which told readings
//! are believed, by the runs and groups (`chain`) in which they are told, and by their rivals. `story_laws` says what
//! holds of a story that no other is worth more than: above all that between two true readings all that is told is
//! true, if whatever is misread there is outweighed. Nothing allocates or fails.
//!
//! A change of a price changes `specs/Story.antt`, the worked rows of `story_laws` and what it says of two steps; of a
//! row `specs/Rows.antt` and `row_laws`.
#![tactic(auto)]

mod before;
mod belief;
mod chain;
mod judge;
mod place;
mod reading;
mod rivals;
pub mod row_laws;
mod rows;
mod story;
pub mod story_laws;
mod table;
mod told;
mod walk;

pub use belief::{GROUP_ENOUGH, STORY_MARGIN, believe};
pub use reading::NumberReading;
pub use rivals::bound;
pub use rows::Playing;
pub use story::decode;
pub use told::tell;
