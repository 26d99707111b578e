//! A reader that cuts, interrupts and fails.
ghost use Rattle.std.specs.Prelude.{◌≡◌, None, Some};

use std::io::{self, Error, ErrorKind, Read};

/// Gives its bytes in reads of at most `piece`, and then says its end. So many interruptions come before the next read
/// that isn't interrupted, and `again` before each after it. It fails once at most, and then has the rest of its bytes:
/// a caller that asks again after the fault is seen.
#[derive(Drop)]
pub struct Tape<'a> {
    /// The bytes that it has left.
    pub rest: &'a [u8],
    /// The most bytes of a read, at least one.
    pub piece: usize,
    /// The interruptions before the next read.
    pub interrupts: usize,
    /// The interruptions before each read after that.
    pub again: usize,
    /// After how many bytes more it fails, where it does.
    pub fault: Option<usize>,
    /// How often it was asked.
    pub asked: u64,
}

impl<'a> Tape<'a> {
    /// A reader that gives as many of these bytes as it is asked for.
    pub fn new(rest: &'a [u8]) -> Self
        ensures bytes { result.rest.now ≡ rest.now }
        ensures fault { result.fault ≡ None }
    {
        Tape {
            rest,
            piece: usize::MAX,
            interrupts: 0,
            again: 0,
            fault: None,
            asked: 0,
        }
    }

    /// A reader of these bytes that fails after so many of them.
    pub fn failing(rest: &'a [u8], count: usize) -> Self
        ensures bytes { result.rest.now ≡ rest.now }
        ensures fault { result.fault ≡ Some count }
    {
        Tape {
            fault: Some(count),
            ..Tape::new(rest)
        }
    }
}

impl Read for Tape<'_> {
    ghost remaining = { λ t. Some t.rest.now };

    fn read(&mut self, buf: &mut [u8]) -> io::Result<usize> {
        self.asked = self.asked.wrapping_add(1);
        if self.interrupts > 0 {
            self.interrupts -= 1;
            return Err(Error::from(ErrorKind::Interrupted));
        }
        self.interrupts = self.again;
        let most = buf.len().min(self.piece.max(1)).min(self.rest.len());
        let count = match self.fault {
            None => most,
            Some(0) => {
                self.fault = None;
                return Err(Error::from(ErrorKind::Other));
            }
            Some(left) => {
                let count = most.min(left);
                self.fault = Some(left - count);
                count
            }
        };
        let bytes = self.rest;
        buf[..count].copy_from_slice(&bytes[..count]);
        self.rest = &bytes[count..];
        Ok(count)
    }
}
