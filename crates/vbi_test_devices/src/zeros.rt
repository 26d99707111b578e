//! A reader without end.

use std::io::{self, Read};

/// Zeros without end, as many as it is asked for.
#[derive(Drop)]
pub struct Zeros;

impl Read for Zeros {
    fn read(&mut self, buf: &mut [u8]) -> io::Result<usize> {
        buf.fill(0);
        Ok(buf.len())
    }
}
