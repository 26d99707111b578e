//! A reader that goes on after its end.

use std::io::{self, Read};

/// Gives its first bytes, says its end once, and then has more, as a terminal does. A contract can't speak of its
/// bytes.
#[derive(Drop)]
pub struct Resumed<'a> {
    /// The bytes before the end.
    pub first: &'a [u8],
    /// The bytes after it.
    pub more: &'a [u8],
}

impl Read for Resumed<'_> {
    fn read(&mut self, buf: &mut [u8]) -> io::Result<usize> {
        let count = buf.len().min(self.first.len());
        if count == 0 {
            self.first = self.more;
            self.more = &[];
            return Ok(0);
        }
        let (front, rest) = self.first.split_at(count);
        buf[..count].copy_from_slice(front);
        self.first = rest;
        Ok(count)
    }
}
