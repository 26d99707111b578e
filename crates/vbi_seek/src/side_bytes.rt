//! A side in the bytes of its fields, and where in it something was found.

ghost use Rattle.std.specs.Prelude.{◌≡◌, ◌*◌, ◌^◌, ◌<◌, ◌≤◌, length};
ghost use Rattle.vbi_words.specs.Geometry.{field_bytes};

use std::mem::size_of;
use vbi_words::{Levels, System};

/// A system and its black and white.
#[derive(Clone, Copy)]
pub struct Setup {
    /// The system of the lines.
    pub system: System,
    /// Their black and white.
    pub levels: Levels,
}

/// A side in whose bytes something is sought.
#[derive(Clone, Copy)]
pub(crate) struct SideBytes<'a> {
    pub(crate) setup: Setup,
    pub(crate) bytes: &'a [u8],
    /// How many whole fields they have.
    pub(crate) count: usize,
    ghost whole: { count * field_bytes setup.system ≤ length bytes.now },
    ghost few: { 32 * count < 2 ^ 64 },
}

impl<'a> SideBytes<'a> {
    ghost use Rattle.vbi_seek.specs.FieldLines.{side_in, side_of};

    /// The side of these bytes. A last field that is cut is left out.
    pub(crate) fn new(setup: Setup, bytes: &'a [u8]) -> SideBytes<'a>
        ensures { side_of result ≡ side_in setup bytes.now }
    {
        SideBytes {
            setup,
            bytes,
            count: bytes.len() / setup.system.field_bytes(),
        }
    }
}

/// Where a stop or a chapter was found.
#[derive(Clone, Copy)]
#[repr(C)]
pub struct FoundField {
    /// The field, counted from 0; as many as the side has if none was found.
    pub field: usize,
    /// How many fields were read.
    pub looked: usize,
}

// As include/ldvbi.h has it.
const _: () = prove!(size_of::<FoundField>() == 16);
