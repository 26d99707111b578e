//! The number that is answered of a field.

ghost use Rattle.std.specs.Prelude.{◌≡◌, ◌↔◌, true};
ghost use Rattle.vbi_side.specs.Numbers.{believed, due, doubtful_of, IsKnown};

use crate::sighting::Sightings;
use std::mem::size_of;

/// The field shows no number, and none is due.
pub const NOTHING: u32 = 0;
/// The number was read, and enough around supports it.
pub const BELIEVED: u32 = 1;
/// The number was read, and too little supports it.
pub const DOUBTFUL: u32 = 2;
/// The number wasn't read there, or too little supports it: the believed ones before and after leave no other.
pub const DUE: u32 = 3;

/// The number that is answered of a field, with what it is worth.
#[derive(Clone, Copy)]
#[repr(C)]
pub struct Number {
    /// The picture's number, or the pictures from the disc's beginning; 0 if there is none.
    pub number: u32,
    /// `NOTHING`, `BELIEVED`, `DOUBTFUL` or `DUE`.
    pub state: u32,
}

// As include/ldvbi.h has it.
const _: () = prove!(size_of::<Number>() == 8);

impl Number {
    /// A number that is believed.
    pub fn believed(number: u32) -> Number
        ensures { result ≡ believed number }
    {
        Number {
            number,
            state: BELIEVED,
        }
    }

    /// A number that is due.
    pub(crate) fn due(number: u32) -> Number
        ensures { result ≡ due number }
    {
        Number { number, state: DUE }
    }

    /// If no number is believed or due: that of line 17, else that of line 18, or nothing.
    pub fn doubtful(field: &Sightings) -> Number
        ensures { result ≡ doubtful_of field.now }
    {
        let sighting = if field.line_17.is_seen() {
            field.line_17
        } else {
            field.line_18
        };
        if sighting.is_seen() {
            Number {
                number: sighting.number,
                state: DOUBTFUL,
            }
        } else {
            Number {
                number: 0,
                state: NOTHING,
            }
        }
    }

    /// Whether the number is believed.
    pub fn is_believed(&self) -> bool
        ensures { (result ≡ true) ↔ (self.now.state ≡ 1) }
    {
        self.state == BELIEVED
    }

    /// Whether this number is the one that the field has, as believed or due.
    pub fn is_known(&self, number: u32) -> bool
        ensures { (result ≡ true) ↔ IsKnown self.now number }
    {
        self.number == number && (self.state == BELIEVED || self.state == DUE)
    }
}
