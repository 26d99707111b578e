//! Asserts of tests, which fail by their result, so that they can stand in a library.
ghost use Rattle.std.specs.Prelude.{◌↔◌, IsOk, IsTrue};

use std::fmt::Debug;
use std::test::Fail;

/// Fails where what was found isn't what is expected; `row` names the case.
pub fn same<T: PartialEq + Debug + Drop>(
    found: T,
    expected: T,
    row: impl Debug + Drop,
) -> Result<(), Fail>
    ensures { IsOk result ↔ IsTrue (T.eq found expected) }
{
    if found == expected {
        return Ok(());
    }
    Err(Fail::new(format_args!("{row:?}: found {found:?}, expected {expected:?}")))
}

/// Fails where a fact doesn't hold; `row` names the case.
pub fn holds(fact: bool, row: impl Debug + Drop) -> Result<(), Fail>
    ensures { IsOk result ↔ IsTrue fact }
{
    if fact {
        return Ok(());
    }
    Err(Fail::new(format_args!("doesn't hold: {row:?}")))
}
