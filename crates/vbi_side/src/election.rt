//! In which field a number is elected.

ghost use Rattle.std.specs.Prelude.{ℕ, ◌<◌, ◌^◌};

use vbi_words::System;

/// In which field a number is elected, with which part of a minute.
#[derive(Clone, Copy)]
pub(crate) struct Election {
    pub(crate) system: System,
    pub(crate) field: usize,
    pub(crate) part: u32,
    pub ghost far: { field < 2 ^ 60 },
}
