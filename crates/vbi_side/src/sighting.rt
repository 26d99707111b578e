//! The numbers that a field's lines show.

ghost use Rattle.std.specs.Prelude.{◌≡◌, ◌↔◌, ◌≤◌, true};
ghost use Rattle.vbi_side.specs.Sightings.{weight_of, IsSeen, shows_between};

use std::mem::size_of;

/// A number that a line shows, by default none. As all of its bytes may be handed in by C, any two numbers are a
/// sighting.
#[derive(Clone, Copy, Default)]
#[repr(C)]
pub struct Sighting {
    /// The picture's number, or the pictures from the disc's beginning.
    pub number: u32,
    /// How much it weighs: 2 of a word of pass 1, 1 of a word of pass 2; 0 if the line shows no number. What is
    /// above 2 counts as 2.
    pub weight: u32,
}

/// What a field shows: at most two numbers, each on a line of its own. Two that are equal weigh together.
#[derive(Clone, Copy)]
#[repr(C)]
pub struct Sightings {
    /// The number of line 17.
    pub line_17: Sighting,
    /// The number of line 18.
    pub line_18: Sighting,
    /// Not 0 if one of the two shows a code that stands there in place of a number, as a chapter or the lead-in.
    pub instead: u32,
}

// As include/ldvbi.h has them.
const _: () = prove!(size_of::<Sighting>() == 8);

const _: () = prove!(size_of::<Sightings>() == 20);

impl Sighting {
    /// Whether the line shows a number.
    pub fn is_seen(&self) -> bool
        ensures { (result ≡ true) ↔ IsSeen self.now }
    {
        self.weight != 0
    }

    /// How much it counts: 2 at most.
    pub fn counts(&self) -> u32
        ensures value { result ≡ weight_of self.now }
        ensures range { result ≤ 2 }
    {
        self.weight.min(2)
    }
}

impl Sightings {
    /// Whether a code stands there in place of a number.
    pub(crate) fn shows_instead(&self) -> bool
        ensures { (result ≡ true) ↔ (1 ≤ self.now.instead) }
    {
        self.instead != 0
    }

    /// Whether both lines show one number, as they do if both were read in pass 1.
    pub fn shows_twice(&self) -> bool
        ensures { (result ≡ true) ↔ ((2 ≤ self.now.line_17.weight) × (2 ≤ self.now.line_18.weight)
            × (self.now.line_17.number ≡ self.now.line_18.number)) }
    {
        self.line_17.weight >= 2
            && self.line_18.weight >= 2
            && self.line_17.number == self.line_18.number
    }

    /// Whether both lines show, in pass 1, one number between these two.
    pub fn shows_between(&self, from: u32, to: u32) -> bool
        ensures { result ≡ shows_between from to self.now }
    {
        let number = self.line_17.number;
        self.shows_twice() && from < number && number < to
    }
}
