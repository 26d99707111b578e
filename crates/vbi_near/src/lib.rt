//! The word that is nearest to some lines: of all words, drawn at all columns, that from whose drawn row the samples of
//! the lines are off by the least sum.
//!
//! The definitions are in `specs/`, and the module `laws` says what holds of them. Nothing allocates or fails.
#![tactic(auto)]

mod bits;
mod candidates;
mod cells;
mod codes;
mod ends;
mod half_cells;
mod halved_signal;
pub mod laws;
pub mod levelled_laws;
mod levelled_lines;
mod line_rule;
mod line_search;
mod lines;
pub mod margin_laws;
mod margins;
mod near;
mod pair_rule;
mod pile;
mod pile_rule;
mod prices;
mod recovery;
pub mod row_laws;
pub mod rule_laws;
mod silence;
mod stretched_cells;
mod sums;
mod word_rule;
mod word_search;

pub use line_search::nears_of;
pub use lines::marks_of_line;
pub use near::{Near, Nears, nearest};
pub use pile::{add_line, nearest_of_lines};
pub use pile_rule::recover_pile;
pub use recovery::{Recovered, recover_rows};
pub use stretched_cells::stretched_distance;
