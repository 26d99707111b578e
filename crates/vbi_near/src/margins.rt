//! By how much nearest words have to be ahead of others, for each way in which lines are asked.
//!
//! A sample counts at most seven tenths of what white is from black (pile.rt). So a word with one bit turned is farther
//! by seven tenths of the columns of a cell, of which NTSC has 28 and PAL 35, and each column of that cell that a
//! dropout turns over takes away twice seven tenths. On a line without noise a cell counts about a twelfth of how much
//! nearer the word is than none, so a share of 10 of 288 parts is five twelfths of a cell there: it keeps back what a
//! dropout says on a good line. Columns keep back what a line says of which hardly anything is left.
//!
//! specs/Margins.antt has the same numbers, and margin_laws.rt has words at their limits. CONTRIBUTING.md says what
//! else changes with a margin.

ghost use Rattle.std.specs.Prelude.{◌≡◌, ◌-◌, ◌*◌, ◌^◌, ◌<◌};

use vbi_words::Levels;

/// How far white is from black.
pub(crate) fn unit_of(levels: Levels) -> u32
    ensures value { result ≡ levels.white - levels.black }
    ensures range { (0 < result) × (result < 2 ^ 16) }
{
    u32::from(levels.white() - levels.black())
}

/// By how much a nearest word has to be ahead of any other.
#[derive(Clone, Copy)]
pub struct Margin {
    /// By this many times what white and black are off from each other.
    pub columns: u32,
    /// By a share of how much nearer the word is than none, in 288ths.
    pub share: u8,
}

/// What a nearest word has to meet to be said.
#[derive(Clone, Copy)]
pub struct Margins {
    /// A code that may stand on its line.
    pub code: Margin,
    /// Any other word.
    pub other: Margin,
    /// By how many columns of each line its signal may go on beyond it, or have fewer cells.
    pub ends: u8,
}

/// The margins of lines that are asked in one way.
#[derive(Clone, Copy)]
pub struct MarginSet {
    /// The margins of one line.
    pub lone: Margins,
    /// The margins of one of two lines that don't agree.
    pub apart: Margins,
    /// The margins of two lines together.
    pub both: Margins,
}

/// The margins of levelled lines, chosen on simulated lines of worn discs (docs/MEASURED.md). One of two lines that
/// don't agree is badly worn, so its nearest word is worth less. A code is compared with codes alone. If it is the
/// nearest of all words, too, it may also be said as any other word is (word_rule.rt).
pub(crate) const LEVELLED: MarginSet = MarginSet {
    lone: Margins {
        code: Margin {
            columns: 4,
            share: 10,
        },
        other: Margin {
            columns: 5,
            share: 8,
        },
        ends: 2,
    },
    apart: Margins {
        code: Margin {
            columns: 8,
            share: 0,
        },
        other: Margin {
            columns: 10,
            share: 0,
        },
        ends: 2,
    },
    both: Margins {
        code: Margin {
            columns: 8,
            share: 10,
        },
        other: Margin {
            columns: 5,
            share: 7,
        },
        ends: 2,
    },
};

/// The margins of lines as they are, which are asked if the levelled ones say nothing. They aren't smoothed, so noise
/// makes a row with one cell more or less nearer by more columns.
pub(crate) const GIVEN: MarginSet = MarginSet {
    lone: Margins {
        code: Margin {
            columns: 6,
            share: 0,
        },
        other: Margin {
            columns: 8,
            share: 0,
        },
        ends: 3,
    },
    apart: Margins {
        code: Margin {
            columns: 8,
            share: 0,
        },
        other: Margin {
            columns: 10,
            share: 0,
        },
        ends: 3,
    },
    both: Margins {
        code: Margin {
            columns: 8,
            share: 8,
        },
        other: Margin {
            columns: 8,
            share: 6,
        },
        ends: 3,
    },
};
