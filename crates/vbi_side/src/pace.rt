//! How fast a disc counts its pictures.

/// How long the disc's pictures last.
#[derive(Clone, Copy)]
pub enum Pace {
    /// Two fields.
    Video,
    /// Two and three fields by turns, as film of 24 pictures a second lasts on NTSC.
    Film,
}
