//! What is sought in the bytes of a side, and how many of its fields were read for it.

use crate::asked::Judging;
use crate::side_bytes::{Setup, SideBytes};

/// How a number is sought.
#[derive(Clone, Copy)]
pub struct Seek {
    /// The system and the levels of the side.
    pub setup: Setup,
    /// What its numbers count, and their pace.
    pub judging: Judging,
}

/// What the fields of a side are read for.
#[derive(Clone, Copy)]
pub(crate) enum Target {
    /// A number of these.
    Number(Judging),
    Chapter,
}

/// A number or a chapter, and the side in whose bytes it is sought.
#[derive(Clone, Copy)]
pub(crate) struct Search<'a> {
    pub(crate) side: SideBytes<'a>,
    pub(crate) kind: Target,
    pub(crate) sought: u32,
}

/// How many fields were read, and how many more than usual may be at a spot if few lines show a number.
#[derive(Clone, Copy)]
pub(crate) struct Looked {
    pub(crate) fields: u32,
    pub(crate) spare: u32,
}
