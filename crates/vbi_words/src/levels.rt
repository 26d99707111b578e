//! Black and white, and the comparison that makes a sample high or low.

ghost use Rattle.std.specs.Prelude.{◌≡◌, ◌↔◌, ◌<◌, ◌≤◌, ◌^◌, IfOk};
ghost use Rattle.vbi_words.specs.Levels.{Slicing, is_high_of};

use std::error::Error;
use std::fmt;
use std::marker::Model;

/// The sample values of black and of white, each from 0 to 65,535: a line is sliced midway between them. Black is below
/// white.
#[derive(Clone, Copy, Debug, PartialEq, Eq)]
pub struct Levels {
    black: u16,
    white: u16,
}

impl Model for Levels {
    ghost Value = { Slicing };

    ghost view = { λ l. record { black = l.black; white = l.white } };

    ghost invariant = { λ l. l.black < l.white };

    ghost inverse = { λ v. record { black = v.black; white = v.white } };
}

/// Why two sample values can't be black and white.
#[derive(Clone, Copy, Debug, PartialEq, Eq)]
pub enum LevelsFault {
    /// Black is not below white.
    Order,
}

impl fmt::Display for LevelsFault {
    fn fmt<W: fmt::Write>(&self, f: &mut fmt::Formatter<W>) -> fmt::Result {
        match self {
            LevelsFault::Order => write!(f, "black level is not below white level"),
        }
    }
}

impl Error for LevelsFault {}

impl Levels {
    /// Black and white of these values; `Order` if black is not below white.
    pub fn new(black: u16, white: u16) -> Result<Levels, LevelsFault>
        ensures ok { IfOk result (λ l. l ≡ record { black = black; white = white }) }
        ensures order { (result ≡ Err LevelsFault.Order) ↔ (white ≤ black) }
    {
        if black >= white {
            return Err(LevelsFault::Order);
        }
        Ok(Levels { black, white })
    }

    /// The sample value of black.
    pub fn black(self) -> u16
        ensures { result ≡ self.black }
    {
        self.black
    }

    /// The sample value of white.
    pub fn white(self) -> u16
        ensures { result ≡ self.white }
    {
        self.white
    }

    /// Whether a sample is high: above the middle of black and white. A sample exactly midway is low.
    pub fn is_high(self, sample: u16) -> bool
        ensures { result ≡ is_high_of self sample }
    {
        // Twice the sample, in 32 bits: half of an odd sum would be rounded, and a sum in 16 bits would wrap.
        2 * u32::from(sample) > u32::from(self.black) + u32::from(self.white)
    }
}
