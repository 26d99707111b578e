//! Which numbers are judged, and at which pace.

ghost use Rattle.vbi_seek.specs.Asked.{IsAskedPace};

use vbi_side::{Counted, Pace, Sightings, found_pace};
use vbi_words::System;

/// Which pace is asked for.
#[derive(Clone, Copy)]
pub enum Asked {
    /// This one.
    Given(Pace),
    /// The one that is found by the numbers that are believed at either.
    Found,
}

/// What is to be judged, and how.
#[derive(Clone, Copy)]
pub struct Judging {
    /// The system of the fields.
    pub system: System,
    /// What their numbers count.
    pub counted: Counted,
    /// The pace of the numbers.
    pub asked: Asked,
}

/// The pace that is asked for.
pub fn pace_for(judging: &Judging, seen: &[Sightings]) -> Pace
    ensures { IsAskedPace judging.now seen.now result }
{
    match judging.asked {
        Asked::Given(pace) => pace,
        Asked::Found => found_pace(judging.system, judging.counted, seen),
    }
}
