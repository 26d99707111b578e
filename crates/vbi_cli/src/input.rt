//! The input of the program, whichever it is.

use std::io;
use std::io::Read;

/// A file, or standard input. Reads aren't buffered: each asks the system once.
#[derive(Drop)]
pub enum Input<F, S> {
    /// The file that the command line names.
    File(F),
    /// Standard input.
    Standard(S),
}

impl<F: Read, S: Read> Read for Input<F, S> {
    ghost use Rattle.vbi_cli.specs.Jobs.{input_remaining};

    ghost remaining = { input_remaining F.remaining S.remaining };

    fn read(&mut self, buf: &mut [u8]) -> io::Result<usize> {
        match self {
            Input::File(file) => file.read(buf),
            Input::Standard(stdin) => stdin.read(buf),
        }
    }
}
