//! A side as it is judged.

ghost use Rattle.std.specs.Prelude.{◌≡◌, length};

use crate::gap::Rule;
use vbi_side::{Number, Sightings};

/// What is known of a capture of a side, field by field, and how its disc counts.
#[derive(Clone, Copy)]
pub struct Side<'a> {
    /// How its numbers go on.
    pub rule: Rule,
    /// What its fields show.
    pub seen: &'a [Sightings],
    /// What is answered of their numbers.
    pub numbers: &'a [Number],
    /// What `judge_end` answers of the ends of sides.
    pub ends: &'a [u32],
    pub ghost seen_each: { length seen.now ≡ length numbers.now },
    pub ghost ends_each: { length ends.now ≡ length numbers.now },
}
