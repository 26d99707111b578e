//! A 24-bit code word and its half cells.

ghost use Rattle.std.specs.Prelude.{◌≡◌, ◌↔◌, ℕ, ◌≤◌, ◌<◌, ◌^◌, IfOk, false, slice_index_or};
ghost use Rattle.vbi_words.specs.Words.{IsWord, halves_of};

use std::error::Error;
use std::fmt;
use std::marker::Model;

/// A code word of 24 bits (IEC 60857 and IEC 60856) whose top bit is 1 (this project's own rule).
// 24 high half cells with a low one between each two show 000000 and, read from half a cell before, FFFFFF. With the
// rule only the second of these is a word.
#[derive(Clone, Copy, Debug, PartialEq, Eq)]
pub struct Word24 {
    value: u32,
}

impl Model for Word24 {
    ghost Value = { ℕ };

    ghost view = { λ w. w.value };

    ghost invariant = { λ w. IsWord w.value };

    ghost inverse = { λ v. record { value = v } };
}

/// Why a number is not a code word.
#[derive(Clone, Copy, Debug, PartialEq, Eq)]
pub enum WordFault {
    /// The number has more than 24 bits.
    TooWide,
    /// The number's top bit, bit 23, is 0.
    TopBitClear,
}

impl fmt::Display for WordFault {
    fn fmt<W: fmt::Write>(&self, f: &mut fmt::Formatter<W>) -> fmt::Result {
        match self {
            WordFault::TooWide => write!(f, "word has more than 24 bits"),
            WordFault::TopBitClear => write!(f, "top bit of word is not set"),
        }
    }
}

impl Error for WordFault {}

impl Word24 {
    /// The word with this number: `TooWide` from 16,777,216 on, `TopBitClear` below 8,388,608.
    pub fn new(value: u32) -> Result<Word24, WordFault>
        ensures ok { IfOk result (λ w. w ≡ value) }
        ensures too_wide { (result ≡ Err WordFault.TooWide) ↔ (2 ^ 24 ≤ value) }
        ensures top_bit_clear { (result ≡ Err WordFault.TopBitClear) ↔ (value < 2 ^ 23) }
    {
        if value >= 1 << 24 {
            return Err(WordFault::TooWide);
        }
        if value < 1 << 23 {
            return Err(WordFault::TopBitClear);
        }
        Ok(Word24 { value })
    }

    /// The word as a number, from 8,388,608 to 16,777,215.
    pub fn value(self) -> u32
        ensures value { result ≡ self }
        ensures range { IsWord result }
    {
        self.value
    }

    /// Whether half cell i, counted from 0 to 47, is high. Each bit, the most significant first, has two half cells: a
    /// one is low and then high, a zero is high and then low.
    #[tactic(auto, using(crate::proofs::Bits::half_even, crate::proofs::Bits::half_odd))]
    pub fn half(self, i: usize) -> bool
        requires { i < 48 }
        ensures { result ≡ slice_index_or (halves_of self) i false }
    {
        let one = (self.value >> (23 - i / 2)) % 2 == 1;
        if i % 2 == 0 { !one } else { one }
    }
}
