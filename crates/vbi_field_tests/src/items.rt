//! What a row of the text of words may hold: three items with one space between two of them, each a word in six
//! hexadecimal digits or a single `-`.

use crate::fields::config;
use crate::runs::drew;
use std::alloc::Global;
use std::test::Fail;
use vbi_field::DrawFault;
use vbi_test_devices::{Paper, Tape, same};
use vbi_words::System;

/// Items that are none, wherever they stand in a row.
static NO_ITEMS: [&str; 36] = [
    "0",
    "8",
    "_",
    "--",
    "---",
    "82CFF",
    "82CFFF0",
    "082CFFF",
    "7FFFFF",
    "000000",
    // Six characters, of which one is beside the digits and letters of a number in hexadecimal.
    "82CFF/",
    "82CFF:",
    "82CFF@",
    "82CFFG",
    "82CFF`",
    "82CFFg",
    "+F1234",
    "-F1234",
    "_F1234",
    "F_1234",
    "F1234_",
    "#F1234",
    "0xF123",
    "F1234h",
    "F1234.",
    "F1234\0",
    "F1234-",
    "-----",
    "------",
    // Blanks that are no space.
    "\t",
    "\tF12345",
    "F12345\t",
    "F12\t45",
    "\u{b}F1234",
    "-\t",
    "\r",
];

type Ended = Result<u32, DrawFault>;

const MALFORMED: Ended = Err(DrawFault::Row { number: 1 });

/// Fails where a text of words ends otherwise, or other bytes than so many are written.
fn ends(
    alloc: Global,
    system: System,
    text: &str,
    ended: Ended,
    written: usize,
) -> Result<(), Fail> {
    let mut paper = Paper::new(alloc);
    let run = drew(&config(system, 9)?, Tape::new(text.as_bytes()), &mut paper);
    let found = (run.result, run.written, paper.taken.len());
    same(found, (ended, written as u64, written), text)
}

#[test]
fn each_of_the_three_items_is_looked_at(rt: HostRuntime) -> Result<(), Fail> {
    let alloc = rt.alloc();
    for &item in &NO_ITEMS {
        for text in [
            format!(in alloc; "{item} - -\n")?,
            format!(in alloc; "- {item} -\n")?,
            format!(in alloc; "- - {item}\n")?,
            format!(in alloc; "- - {item}")?,
        ] {
            ends(alloc, System::Ntsc, text.as_str(), MALFORMED, 0)?;
        }
    }
    Ok(())
}

/// Rows of good items that aren't three with one space between two of them.
static NO_ROWS: [&str; 17] = [
    "\n",
    "-\n",
    "- -\n",
    "- - - -\n",
    "F12345\n",
    "F12345 F12345\n",
    " - - -\n",
    "- - - \n",
    "-  - -\n",
    "- -  -\n",
    "  -\n",
    "-\t- -\n",
    "- -\t-\n",
    "-,-,-\n",
    "- - -\r\n",
    "F12345F12345 -\n",
    "- - -\0\n",
];

#[test]
fn a_row_is_three_items_and_two_spaces(rt: HostRuntime) -> Result<(), Fail> {
    for &text in &NO_ROWS {
        ends(rt.alloc(), System::Pal, text, MALFORMED, 0)?;
    }
    Ok(())
}

/// Rows that are drawn, with each digit in either case.
static ROWS: [&str; 5] = [
    "- - -\n",
    "800000 FFFFFF -\n",
    "F01234 F56789 FABCDE\n",
    "f01234 f56789 fabcde\n",
    "- ffffff -",
];

#[test]
fn words_have_any_digits_after_the_first(rt: HostRuntime) -> Result<(), Fail> {
    for &text in &ROWS {
        ends(rt.alloc(), System::Ntsc, text, Ok(1), 478_660)?;
        ends(rt.alloc(), System::Pal, text, Ok(1), 710_510)?;
    }
    Ok(())
}
