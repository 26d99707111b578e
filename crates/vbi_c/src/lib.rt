//! The code words of LaserDisc lines (IEC 60857 and IEC 60856) for callers in C: the static library that
//! `include/ldvbi.h` declares, over the reader of `vbi_line`, the nearest words of `vbi_near`, the records of
//! `vbi_field`, the judge of `vbi_side`, the searches of `vbi_seek` and the codes of `vbi_words`.
//!
//! Each export tests the numbers that it is given, and answers a status; after any but 0 all that it could have written
//! is as it was. Numbers are as wide as C hands them, 32 bits, so that none is cut off before it is tested.
//! It requires nothing beyond what its types say: pointers to values of those types, with as many bytes as the length
//! beside them says, and nothing else that points to what it writes. No export allocates, prints or keeps anything
//! between two calls, so calls from several threads don't meet.
#![tactic(auto)]

mod completing;
mod erased;
mod field_codes;
mod judging;
pub mod laws;
mod numbers;
mod piling;
mod plan;
mod reading;
mod recovering;
mod seeking;
mod setup;
mod sizes;
mod status;
mod version;
pub mod whole_laws;
mod whole_side;
mod words;

pub use completing::ldvbi_complete_times;
pub use erased::LdvbiErased;
pub use field_codes::{ldvbi_judge_chapters, ldvbi_judge_ends, ldvbi_judge_stops};
pub use judging::{ldvbi_find_pace, ldvbi_first_of, ldvbi_judge, ldvbi_judge_field};
pub use numbers::{LdvbiClock, LdvbiCode};
pub use piling::{LdvbiNear, ldvbi_nearest, ldvbi_recover_pile};
pub use plan::{LdvbiChecked, ldvbi_check_plan};
pub use reading::{
    LdvbiFieldReadings, LdvbiReading, ldvbi_read_field, ldvbi_read_fields, ldvbi_read_line,
    ldvbi_read_rows,
};
pub use recovering::{
    LdvbiRecord, ldvbi_recover_fields, ldvbi_recover_rows, ldvbi_recovered_record,
};
pub use seeking::{LdvbiSought, ldvbi_next_stop, ldvbi_seek, ldvbi_seek_chapter};
pub use sizes::{ldvbi_field_bytes, ldvbi_line_bytes, ldvbi_line_samples, ldvbi_lines};
use std::mem::size_of;
pub use vbi_seek::{FoundField as LdvbiPlace, Neighbour as LdvbiNeighbour};
pub use version::{ldvbi_abi, ldvbi_version};
pub use whole_side::{
    LdvbiSide, LdvbiSideRule, ldvbi_find_both, ldvbi_find_clock, ldvbi_judge_side, ldvbi_set_aside,
};
pub use words::{ldvbi_classify, ldvbi_draw_line, ldvbi_format};

// As include/ldvbi.h has them
const _: () = prove!(
    size_of::<LdvbiChecked>() == 16
        && size_of::<LdvbiClock>() == 12
        && size_of::<LdvbiCode>() == 12
        && size_of::<LdvbiErased>() == 16
        && size_of::<LdvbiFieldReadings>() == 24
        && size_of::<LdvbiNear>() == 32
        && size_of::<LdvbiReading>() == 8
        && size_of::<LdvbiRecord>() == 452
        && size_of::<LdvbiSide>() == 152
        && size_of::<LdvbiSideRule>() == 28
        && size_of::<LdvbiSought>() == 56
);
