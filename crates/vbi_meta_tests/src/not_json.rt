//! Texts that are no JSON, short and long ones of each kind. No clause can say that memory was refused, so these rows
//! alone see a reader that says of a wrong text that memory ran out.

use crate::documents::refusal;
use std::alloc::{AllocError, Global};
use std::test::Fail;
use vbi_meta::MetaFault;
use vbi_test_devices::same;

/// Texts of no byte, one and two, and the shortest of the kinds that need more.
static SHORT: [&[u8]; 58] = [
    b"",
    b" ",
    b"\n\n",
    b"\0",
    b"\0\0",
    // Words that JSON doesn't have, or has only whole.
    b"x",
    b"xx",
    b"N",
    b"Na",
    b"NaN",
    b"t",
    b"tr",
    b"n",
    b"f",
    b"/",
    b"//",
    b"'",
    b"''",
    // Texts, arrays and objects that don't end.
    b"\"",
    b"\"a",
    b"\"\\",
    b"[",
    b"[[",
    b"[1",
    b"{",
    b"{\"",
    // Ends and commas without a beginning, and what follows a document.
    b"]",
    b"}",
    b",",
    b":",
    b"1]",
    b"1,",
    b"1x",
    b"{}x",
    b"{} {}",
    // Numbers.
    b"-",
    b"--",
    b"+1",
    b".5",
    b"1.",
    b"1e",
    b"01",
    b"1e999",
    // Bytes that aren't UTF-8, and marks of other codes.
    b"\xff",
    b"\"\xff",
    b"{\"a\":\"\xff\"}",
    b"\xef",
    b"\xef\xbb",
    b"\xef\xbb\xbf{}",
    b"\xff\xfe",
    // Inside of texts, arrays and objects.
    b"\"\n",
    b"\"\n\"",
    b"\"\\x\"",
    b"{\"a\":NaN}",
    b"{a:1}",
    b"{\"a\" 1}",
    b"[1,]",
    b"[1 2]",
];

#[test]
fn short_texts_that_are_no_json_are_refused_as_such(rt: HostRuntime) -> Result<(), Fail> {
    let alloc = rt.alloc();
    for &bytes in &SHORT {
        same(refusal(alloc, bytes), Some(MetaFault::NotJson), bytes)?;
    }
    same(refusal(alloc, b"{}"), None, "an empty object")?;
    same(refusal(alloc, b"1"), None, "a digit")
}

/// Long texts: what they begin with, the byte that fills them, and what they end with.
static LONG: [(&[u8], u8, &[u8]); 20] = [
    (b"", b' ', b""),
    (b"", b'x', b""),
    (b"", 0, b""),
    (b"\xff\xfe", 0, b""),
    (b"\xef\xbb\xbf", b' ', b"{}"),
    (b"{\"a\":", b' ', b"NaN}"),
    (b"{\"a\":\"", b'a', b"\xff\"}"),
    (b"{\"a\":\"", b'a', b"\n\"}"),
    (b"{\"a\":\"", b'a', b"\\x\"}"),
    (b"{\"a\":\"", b'a', b""),
    (b"'", b'a', b"'"),
    (b"{}", b' ', b"{}"),
    (b"{} //", b' ', b""),
    (b"[1", b' ', b""),
    (b"[1,", b' ', b"]"),
    (b"{\"a\":1", b' ', b""),
    (b"{", b' ', b"a:1}"),
    (b"-", b' ', b"1"),
    (b"", b'0', b""),
    (b"[1e", b' ', b"5]"),
];

/// One mebibyte, and two million bytes.
static LENGTHS: [usize; 2] = [1_048_576, 2_000_000];

/// The text of so many bytes that begins and ends with these.
fn filled(
    alloc: Global,
    length: usize,
    head: &[u8],
    fill: u8,
    tail: &[u8],
) -> Result<Vec<u8>, AllocError> {
    let mut text = Vec::new(alloc);
    text.extend_from_slice(head)?;
    text.resize(length.saturating_sub(tail.len()), fill)?;
    text.extend_from_slice(tail)?;
    Ok(text)
}

#[test]
fn long_texts_that_are_no_json_are_refused_as_such(rt: HostRuntime) -> Result<(), Fail> {
    let alloc = rt.alloc();
    for &length in &LENGTHS {
        for &(head, fill, tail) in &LONG {
            let text = filled(alloc, length, head, fill, tail)?;
            same(text.len(), length, head)?;
            let found = refusal(alloc, text.as_slice());
            same(found, Some(MetaFault::NotJson), (head, fill, tail))?;
        }
        let text = filled(alloc, length, b"{", b' ', b"}")?;
        same(refusal(alloc, text.as_slice()), None, "blanks inside")?;
    }
    Ok(())
}
