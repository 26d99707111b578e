//! Jobs that run out of memory. No device here takes any, so that each allocation of a run is the job's own.

use crate::jobs::{BLACK_FIELD, FULL};
use crate::runs::{NONE, STORED, job};
use std::io::{self, Read, Write};
use std::test::Fail;
use vbi_cli::{AppFault, Ended, Verb, run_job};
use vbi_meta::MetaFault;
use vbi_test_devices::{Zeros, holds, same};

/// Takes what begins the rest of a text, and fails at all else.
#[derive(Drop)]
struct Stencil<'a> {
    rest: &'a [u8],
    asked: u32,
}

impl Write for Stencil<'_> {
    fn write(&mut self, buf: &[u8]) -> io::Result<usize> {
        self.asked = self.asked.saturating_add(1);
        let Some(rest) = self.rest.strip_prefix(buf) else {
            return Err(io::Error::from(io::ErrorKind::Other));
        };
        self.rest = rest;
        Ok(buf.len())
    }

    fn flush(&mut self) -> io::Result<()> {
        Ok(())
    }
}

/// To be run with each allocation failing in turn: the answer is that of ample memory, or that memory ran out, and
/// then nothing was read or written.
#[test]
fn the_joined_run_answers_want_of_memory_as_such(rt: HostRuntime) -> Result<(), Fail> {
    let mut field = Zeros.take(478_660);
    let mut stencil = Stencil {
        rest: BLACK_FIELD.as_bytes(),
        asked: 0,
    };
    let joined = job(Verb::Extract, NONE);
    match run_job(rt.alloc(), &joined, Some(FULL), &mut field, &mut stencil) {
        Ok(ended) => {
            same(ended, Ended::Whole, "the run")?;
            let left = (stencil.rest.len(), field.limit());
            same(left, (0, 0), "what is left")
        }
        Err(fault) => {
            let wanted = AppFault::Meta(MetaFault::OutOfMemory);
            same(fault, wanted, "the run")?;
            let left = (stencil.asked, field.limit());
            same(left, (0, 478_660), "what is left")
        }
    }
}

/// To be run with each allocation failing in turn: bytes that are no JSON are called so, or memory is wanted.
#[test]
fn bytes_that_are_no_json_are_called_so_or_memory_is_wanted(rt: HostRuntime) -> Result<(), Fail> {
    let mut line = Zeros.take(1820);
    let mut stencil = Stencil {
        rest: b"",
        asked: 0,
    };
    let job = job(Verb::Line, STORED);
    let meta = Some(b"{\"a\":NaN}".as_slice());
    let ended = run_job(rt.alloc(), &job, meta, &mut line, &mut stencil);
    let is_named = matches!(
        ended,
        Err(AppFault::Meta(MetaFault::NotJson | MetaFault::OutOfMemory))
    );
    holds(is_named, ended)?;
    let left = (stencil.asked, line.limit());
    same(left, (0, 1820), "what is left")
}
