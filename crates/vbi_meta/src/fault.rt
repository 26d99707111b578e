//! Why metadata gives no settings.

use thiserror::Error;

/// Why metadata or settings are refused, in the order in which the refusals are tried. `Display` gives the text that
/// the program prints.
#[derive(Clone, Copy, Debug, PartialEq, Eq, Error)]
pub enum MetaFault {
    /// The document has more than 268,435,456 bytes.
    #[error("metadata too large")]
    TooLarge,
    /// The bytes aren't a JSON text in UTF-8 nested at most 127 deep.
    #[error("metadata is not JSON")]
    NotJson,
    /// Memory for the document was refused.
    #[error("out of memory")]
    OutOfMemory,
    /// The document isn't an object with an object `videoParameters`.
    #[error("metadata has no videoParameters")]
    NoVideoParameters,
    /// Neither an option, nor `system`, nor `isSourcePal` names the system.
    #[error("no system given")]
    NoSystem,
    /// `system` isn't `NTSC` or `PAL`, or `isSourcePal` isn't a truth value.
    #[error("unknown system")]
    UnknownSystem,
    /// `system` names one system and `isSourcePal` the other.
    #[error("system and isSourcePal disagree")]
    SystemsDisagree,
    /// Neither an option nor `black16bIre` gives the black level.
    #[error("no black level given")]
    NoBlack,
    /// `black16bIre` isn't a whole number from 0 to 65,535.
    #[error("black level is not a whole number from 0 to 65535")]
    BadBlack,
    /// Neither an option nor `white16bIre` gives the white level.
    #[error("no white level given")]
    NoWhite,
    /// `white16bIre` isn't a whole number from 0 to 65,535.
    #[error("white level is not a whole number from 0 to 65535")]
    BadWhite,
    /// The black level isn't below the white level.
    #[error("black level is not below white level")]
    LevelsOrder,
    /// `fieldWidth` isn't the samples of a line in this system.
    #[error("field width differs")]
    WidthDiffers,
    /// `fieldHeight` isn't the lines of a field in this system.
    #[error("field height differs")]
    HeightDiffers,
    /// The limit of fields given as an option isn't from 1 to 1,000,000.
    #[error("max fields is not from 1 to 1000000")]
    BadMaxFields,
}
