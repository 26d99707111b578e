//! The fields of a TBC stream: the document and the report that are written for it, pulled from a reader or pushed in
//! pieces, and test fields drawn from a text of words. Stands on `vbi_words`, `vbi_line`, `vbi_near`, `itoa`,
//! `arrayvec` and `thiserror`. What is written is exactly the text of `specs/` for the bytes fetched, however they were
//! cut; a fault comes only if a device failed or the input is at fault, and says what was written. One line is held at
//! a time, each byte is fetched once, and nothing allocates. A file of `specs/` passes on by `pub use` what its readers
//! need, but no type of this crate to another crate.
#![tactic(auto)]

mod cause_texts;
mod code_texts;
mod config;
mod document;
mod drawing;
mod feeder;
pub mod laws;
mod numbers;
mod outlet;
mod progress;
mod readings;
mod recovered_document;
mod recovered_rows;
mod report;
mod row_intake;
mod run;
mod summary;
mod texts;
mod word_row;

pub use cause_texts::cause_text;
pub use code_texts::{code_text, hex_text};
pub use config::{Config, ConfigFault, MAX_FIELDS_LIMIT};
pub use drawing::{DrawFault, draw};
pub use feeder::Feeder;
pub use outlet::{Outlet, OutletFault};
pub use readings::FieldReadings;
pub use recovered_document::recovered_record;
pub use row_intake::RowIntake;
pub use run::{extract, extract_recovered, show, show_recovered};
pub use summary::{RunFault, Summary};
pub use word_row::WordRow;
