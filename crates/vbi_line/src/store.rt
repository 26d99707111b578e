//! The array that holds a line's bytes. It is a struct of its own so that a contract can say what the array is after a
//! part of it was lent.

ghost use Rattle.std.specs.Prelude.{◌≡◌, ◌-◌, ◌≤◌, take, drop};
ghost use Rattle.std.specs.Borrow.{sem};

use vbi_words::LONGEST_LINE;

/// Room for the bytes of the longest line.
#[derive(Drop)]
pub(crate) struct LineBytes {
    pub(crate) bytes: [u8; LONGEST_LINE],
}

impl LineBytes {
    ghost use Rattle.vbi_line.specs.StoreLends.{LendsPart};

    /// The bytes from one place up to another, for writing.
    pub(crate) fn part_mut(&mut self, from: usize, to: usize) -> &mut [u8]
        requires { (from ≤ to) × (to ≤ LONGEST_LINE) }
        ensures* writes_back { sem 𝓛 (LendsPart self.entry from to result) }
        ensures value { result.now ≡ take (to - from) (drop from self.old.bytes) }
    {
        &mut self.bytes[from..to]
    }
}
