//! Asserts of how a run ended and what it wrote. Like those of `vbi_test_devices` they fail by their result.

use crate::runs::Ran;
use std::fmt::Debug;
use std::test::Fail;
use vbi_cli::{AppFault, Ended, status};
use vbi_test_devices::same;

/// Fails where a run ended otherwise, or the program's status isn't then this one; `row` names the case.
pub(crate) fn ends(
    ran: &Ran,
    ended: Result<Ended, AppFault>,
    code: u8,
    row: impl Debug + Drop,
) -> Result<(), Fail> {
    same((ran.ended, status(&ran.ended)), (ended, code), row)
}

/// Fails where a run ended otherwise, or wrote other bytes than these; `row` names the case.
pub(crate) fn writes(
    ran: &Ran,
    ended: Result<Ended, AppFault>,
    written: &[u8],
    row: impl Debug + Drop,
) -> Result<(), Fail> {
    same((ran.ended, ran.written.as_slice()), (ended, written), row)
}
