//! A writer that takes all of some bytes, or says why not.

use std::test::Fail;
use vbi_field::{Outlet, OutletFault};
use vbi_test_devices::{Paper, holds, same};

type Answer = Result<(), OutletFault>;

const WRITE: Answer = Err(OutletFault::Write);

/// What a call of `put_all` answers, how many bytes are then written and failures and errors counted, and how often the
/// writer was asked.
type Call = (Answer, u64, u64, u64, u64);

/// How a writer is set: the most of a write, the interruptions before the first and before each other, and the bytes
/// after which it fails; and what a call with six bytes does.
static WRITERS: [(usize, usize, usize, Option<usize>, Call); 8] = [
    (6, 0, 0, None, (Ok(()), 6, 0, 0, 1)),
    (1, 0, 0, None, (Ok(()), 6, 0, 0, 6)),
    (6, 16, 0, None, (Ok(()), 6, 16, 0, 17)),
    (6, 17, 0, None, (WRITE, 0, 17, 0, 17)),
    (2, 16, 16, None, (Ok(()), 6, 48, 0, 51)),
    (2, 0, 17, None, (WRITE, 2, 17, 0, 18)),
    (6, 0, 0, Some(4), (WRITE, 4, 1, 1, 2)),
    (6, 3, 0, Some(0), (WRITE, 0, 4, 1, 4)),
];

fn put(paper: &mut Paper) -> Call {
    let mut outlet = Outlet::new(paper);
    let answer = outlet.put_all(b"abcdef");
    let (written, failures, errors) = (outlet.written(), outlet.failures(), outlet.errors());
    let asked = outlet.into_writer().asked;
    (answer, written, failures, errors, asked)
}

#[test]
fn bytes_are_written_whole_or_up_to_a_fault(rt: HostRuntime) -> Result<(), Fail> {
    for &(piece, interrupts, again, fault, expected) in &WRITERS {
        for jams in [false, true] {
            let mut paper = Paper {
                piece,
                interrupts,
                again,
                fault,
                jams,
                ..Paper::new(rt.alloc())
            };
            same(put(&mut paper), expected, (piece, again, jams))?;
            let taken = paper.taken.as_slice();
            holds(b"abcdef".starts_with(taken), expected)?;
            let counts = (taken.len() as u64, paper.flushed);
            same(counts, (expected.1, 0), expected)?;
        }
    }
    Ok(())
}
