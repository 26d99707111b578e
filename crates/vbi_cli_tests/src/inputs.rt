//! The input of the program, with test readers in place of a file and of standard input.

use std::io::{ErrorKind, Read};
use std::test::Fail;
use vbi_cli::Input;
use vbi_test_devices::{Tape, same};

/// What a reader of `abcdefgh` answers that gives two bytes in a read, is interrupted once before the first and fails
/// once after `f`: the bytes, or the error.
static ANSWERS: [Result<&[u8], ErrorKind>; 8] = [
    Err(ErrorKind::Interrupted),
    Ok(b"ab"),
    Ok(b"cd"),
    Ok(b"ef"),
    Err(ErrorKind::Other),
    Ok(b"gh"),
    Ok(b""),
    Ok(b""),
];

/// The reader of these answers.
fn letters() -> Tape<'static> {
    Tape {
        piece: 2,
        interrupts: 1,
        ..Tape::failing(b"abcdefgh", 6)
    }
}

#[test]
fn passes_on_each_answer_of_the_reader_that_is_meant() -> Result<(), Fail> {
    for mut input in [Input::File(letters()), Input::Standard(letters())] {
        for answer in &ANSWERS {
            let mut buf = [0u8; 5];
            let came = match input.read(&mut buf) {
                Ok(count) => Ok(&buf[..count]),
                Err(error) => Err(error.kind()),
            };
            same(came, *answer, "an answer")?;
        }
        // One question for each answer.
        let asked = match input {
            Input::File(tape) | Input::Standard(tape) => tape.asked,
        };
        same(asked, 8, "the questions")?;
    }
    Ok(())
}
