//! A writer that cuts, interrupts and fails.
ghost use Rattle.std.specs.Prelude.{◌≡◌, [], None, Some};

use std::alloc::Global;
use std::io::{self, Error, ErrorKind, Write};

/// Keeps what it takes, in writes of at most `piece`. Interruptions and one fault come as in a `Tape`, and a caller
/// that goes on after the fault is seen, since the writer then takes bytes again.
#[derive(Drop)]
pub struct Paper {
    /// The bytes that it took.
    pub taken: Vec<u8>,
    /// The most bytes of a write.
    pub piece: usize,
    /// The interruptions before the next write.
    pub interrupts: usize,
    /// The interruptions before each write after that.
    pub again: usize,
    /// After how many bytes more it fails, where it does.
    pub fault: Option<usize>,
    /// Whether it fails by the answer 0, and not by an error.
    pub jams: bool,
    /// How often it was asked to write.
    pub asked: u64,
    /// How often it was flushed.
    pub flushed: u64,
}

impl Paper {
    /// A writer that takes all that it is given.
    pub fn new(alloc: Global) -> Self
        ensures taken { result.taken.items ≡ [] }
        ensures fault { result.fault ≡ None }
    {
        Paper {
            taken: Vec::new(alloc),
            piece: usize::MAX,
            interrupts: 0,
            again: 0,
            fault: None,
            jams: false,
            asked: 0,
            flushed: 0,
        }
    }

    /// A writer that fails after so many bytes.
    pub fn failing(alloc: Global, count: usize) -> Self
        ensures taken { result.taken.items ≡ [] }
        ensures fault { result.fault ≡ Some count }
    {
        Paper {
            fault: Some(count),
            ..Paper::new(alloc)
        }
    }
}

impl Write for Paper {
    ghost contents = { λ p. Some p.taken.items };

    fn write(&mut self, buf: &[u8]) -> io::Result<usize> {
        self.asked = self.asked.wrapping_add(1);
        if self.interrupts > 0 {
            self.interrupts -= 1;
            return Err(Error::from(ErrorKind::Interrupted));
        }
        self.interrupts = self.again;
        let most = buf.len().min(self.piece);
        let count = match self.fault {
            None => most,
            Some(0) => {
                self.fault = None;
                if self.jams {
                    return Ok(0);
                }
                return Err(Error::from(ErrorKind::Other));
            }
            Some(left) => {
                let count = most.min(left);
                self.fault = Some(left - count);
                count
            }
        };
        self.taken.extend_from_slice(&buf[..count])?;
        Ok(count)
    }

    fn flush(&mut self) -> io::Result<()> {
        self.flushed = self.flushed.wrapping_add(1);
        Ok(())
    }
}
