//! Why the program fails outside a job.

ghost use Rattle.std.specs.Prelude.{◌≡◌, ◌≢◌};

use thiserror::Error;
use vbi_meta::MetaFault;

/// What fails in the program itself, outside a job.
#[derive(Clone, Copy, Debug, PartialEq, Eq, Error)]
pub(crate) enum MainFault {
    /// A word of the command line isn't text.
    #[error("arguments are not UTF-8")]
    NotUtf8,
    /// Memory for the words or the metadata file was refused.
    #[error("{}", MetaFault::OutOfMemory)]
    OutOfMemory,
    /// The metadata file can't be opened or read.
    #[error("cannot read metadata")]
    CannotReadMetadata,
    /// The input can't be opened.
    #[error("cannot open input")]
    CannotOpenInput,
    /// Help or the version can't be written.
    #[error("cannot write output")]
    CannotWriteOutput,
    /// What was written couldn't be flushed.
    #[error("flush failed")]
    FlushFailed,
}

impl MainFault {
    /// The status that the program ends with: words that aren't text count as refused.
    pub(crate) fn status(self) -> u8
        ensures refused { self ≡ MainFault.NotUtf8 → result ≡ 2 }
        ensures fault { self ≢ MainFault.NotUtf8 → result ≡ 1 }
    {
        match self {
            MainFault::NotUtf8 => 2,
            _ => 1,
        }
    }
}
