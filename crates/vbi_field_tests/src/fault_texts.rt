//! The texts of faults.

use std::test::Fail;
use vbi_field::{ConfigFault, DrawFault, OutletFault, RunFault};
use vbi_test_devices::same;

/// Faults of a run, and the text of each.
static OF_RUNS: [(RunFault, &str); 4] = [
    (
        RunFault::Read {
            field: 2,
            offset: 1000,
        },
        "read failed in field 2 at byte 1000",
    ),
    (
        RunFault::Write { written: 150 },
        "write failed after 150 bytes",
    ),
    (RunFault::TooManyFields, "too many fields"),
    (RunFault::Failed, "feeder failed before"),
];

/// Faults of drawing, and the text of each.
static OF_DRAWING: [(DrawFault, &str); 4] = [
    (DrawFault::Row { number: 3 }, "row 3 is malformed"),
    (DrawFault::Read { number: 3 }, "read failed in row 3"),
    (
        DrawFault::Write { written: 3 },
        "write failed after 3 bytes",
    ),
    (DrawFault::TooManyFields, "too many fields"),
];

#[test]
fn faults_have_their_texts(rt: HostRuntime) -> Result<(), Fail> {
    let alloc = rt.alloc();
    for &(fault, text) in &OF_RUNS {
        same(fault.to_string(alloc)?.as_str(), text, fault)?;
    }
    for &(fault, text) in &OF_DRAWING {
        same(fault.to_string(alloc)?.as_str(), text, fault)?;
    }
    let text = "max fields is not from 1 to 1000000";
    same(
        ConfigFault::BadMaxFields.to_string(alloc)?.as_str(),
        text,
        "a limit",
    )?;
    same(
        OutletFault::Write.to_string(alloc)?.as_str(),
        "write failed",
        "an outlet",
    )
}
