//! The texts of faults.

use std::alloc::Global;
use std::fmt::Display;
use std::test::Fail as TestFail;
use vbi_line::{Fail, IntakeFault};
use vbi_test_devices::same;
use vbi_words::{LevelsFault, WordFault};

/// Fails where a fault has another text.
fn says<F: Display + Drop>(alloc: Global, fault: F, text: &'static str) -> Result<(), TestFail> {
    same(fault.to_string(alloc)?.as_str(), text, "a fault")
}

#[test]
fn faults_have_their_texts(rt: HostRuntime) -> Result<(), TestFail> {
    let alloc = rt.alloc();
    let text = "black level is not below white level";
    says(alloc, LevelsFault::Order, text)?;
    says(alloc, WordFault::TooWide, "word has more than 24 bits")?;
    says(alloc, WordFault::TopBitClear, "top bit of word is not set")?;
    says(alloc, Fail::Interrupted, "call was interrupted")?;
    says(alloc, Fail::Other, "call failed")?;
    says(alloc, IntakeFault::Read, "read failed")
}
