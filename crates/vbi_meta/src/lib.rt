//! The metadata of a capture, and the settings of a run that it and the command line give together.
//!
//! ld-decode writes a `.tbc.json` beside each TBC file. `read_meta` reads such a document, and `settings` takes from
//! its `videoParameters` and from the options of the command line what a run needs: system, levels and limit.
//! `specs/Settings` has what a document is, and the refusals in the order in which they are tried. Only
//! `read_meta` takes memory. `laws` says what readers of JSON find in the document of a run: `specs/DocumentValue` has
//! its value, and `specs/ReadBack` what is found at each path.
#![tactic(auto)]

mod fault;
pub mod laws;
mod metadata;
mod overrides;

pub use fault::MetaFault;
pub use metadata::{META_LIMIT, read_meta};
pub use overrides::{Overrides, settings};
