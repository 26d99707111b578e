//! Known streams that are pushed in pieces.

use crate::fields::{DRAWN, NONE, config, field, front};
use crate::known::{BLACK, CUT, CUT_END, HEAD, PAL_HEAD, TAIL, WORDS};
use crate::runs::{
    Ended, FailureCounts, NO_FAILURE, ONE_ERROR, Wanted, failures_of_writes, total, undisturbed,
    whole, wrote,
};
use std::alloc::Global;
use std::test::Fail;
use vbi_field::{Config, Feeder, Outlet, RunFault};
use vbi_test_devices::{Paper, holds, same};
use vbi_words::System;

/// Feeds a piece, where the outlet's counts are as small as those of the streams here.
fn push(
    feeder: &mut Feeder,
    piece: &[u8],
    outlet: &mut Outlet<Paper>,
) -> Result<Result<(), RunFault>, Fail> {
    let is_small = outlet.written() < 1_000_000 && outlet.failures() < 1_000_000;
    holds(is_small, "small counts")?;
    Ok(feeder.feed(piece, outlet))
}

/// Ends a stream, in the same way.
fn end(feeder: Feeder, outlet: &mut Outlet<Paper>) -> Result<Ended, Fail> {
    let is_small = outlet.written() < 1_000_000 && outlet.failures() < 1_000_000;
    holds(is_small, "small counts")?;
    Ok(feeder.finish(outlet))
}

/// Pushes a stream in pieces of so many bytes and pieces of no bytes, and ends it.
fn push_chunks(
    mut feeder: Feeder,
    stream: &[u8],
    size: usize,
    outlet: &mut Outlet<Paper>,
) -> Result<Ended, Fail> {
    let mut rest = stream;
    for _ in 0..stream.len() {
        let (piece, more) = rest.split_at(size.min(rest.len()));
        if let Err(fault) = push(&mut feeder, piece, outlet)? {
            return Ok(Err(fault));
        }
        rest = more;
    }
    end(feeder, outlet)
}

/// Fails if a stream in pieces of this many bytes ends otherwise, or other texts than these are written.
pub(crate) fn feeds_chunks(
    alloc: Global,
    config: Config,
    stream: &[u8],
    size: usize,
    wanted: Wanted,
) -> Result<(), Fail> {
    let mut paper = Paper::new(alloc);
    let mut outlet = Outlet::new(&mut paper);
    let feeder = Feeder::begin(config, &mut outlet)?;
    let found = push_chunks(feeder, stream, size, &mut outlet)?;
    same(found, wanted.done.result, size)?;
    same(failures_of_writes(&outlet), NO_FAILURE, size)?;
    wrote(&paper, total(wanted.texts), wanted.texts)
}

#[test]
fn an_empty_stream_has_a_head_and_a_tail(rt: HostRuntime) -> Result<(), Fail> {
    for (system, head) in [(System::Ntsc, HEAD), (System::Pal, PAL_HEAD)] {
        let config = config(system, 5)?;
        let texts = [head, TAIL];
        let wanted = undisturbed(b"", whole(0, None, 0), &texts);
        feeds_chunks(rt.alloc(), config, b"", 1, wanted)?;
    }
    Ok(())
}

#[test]
fn pieces_of_any_length_give_one_document(rt: HostRuntime) -> Result<(), Fail> {
    let config = config(System::Ntsc, 5)?;
    let stream = field(rt.alloc(), &config, DRAWN)?;
    let stream = stream.as_slice();
    let ended = whole(1, None, 2730);
    let texts = [HEAD, WORDS, TAIL];
    let wanted = undisturbed(stream, ended, &texts);
    for size in [1, 3, 1821] {
        feeds_chunks(rt.alloc(), config, stream, size, wanted)?;
    }
    // Inside the first sample of line 16, and a piece of no bytes.
    let (front, back) = stream.split_at_checked(27301).ok_or("short")?;
    let mut paper = Paper::new(rt.alloc());
    let mut outlet = Outlet::new(&mut paper);
    let mut feeder = Feeder::begin(config, &mut outlet)?;
    for piece in [front, &[], back] {
        same(push(&mut feeder, piece, &mut outlet)?, Ok(()), "a piece")?;
    }
    same(end(feeder, &mut outlet)?, ended, "the end")?;
    wrote(&paper, total(&texts), &texts)
}

#[test]
fn one_piece_may_be_a_whole_stream(rt: HostRuntime) -> Result<(), Fail> {
    let alloc = rt.alloc();
    for (system, head, bytes, cut) in [
        (System::Ntsc, HEAD, 478_659, "478659"),
        (System::Pal, PAL_HEAD, 710_509, "710509"),
    ] {
        let config = config(system, 1)?;
        let stream = field(alloc, &config, NONE)?;
        let stream = stream.as_slice();
        let looked = 3 * system.width() as u64;
        let texts = [head, BLACK, TAIL];
        let wanted = undisturbed(stream, whole(1, None, looked), &texts);
        feeds_chunks(alloc, config, stream, 1_000_000, wanted)?;
        let stream = front(stream, bytes as usize);
        let texts = [head, CUT, cut, CUT_END];
        let wanted = undisturbed(stream, whole(0, Some(bytes), looked), &texts);
        feeds_chunks(alloc, config, stream, 1_000_000, wanted)?;
    }
    Ok(())
}

#[test]
fn a_writer_may_fail_at_each_byte(rt: HostRuntime) -> Result<(), Fail> {
    let config = config(System::Ntsc, 1)?;
    let stream = field(rt.alloc(), &config, NONE)?;
    for room in 0..247_u32 {
        let mut paper = Paper {
            piece: 1,
            ..Paper::failing(rt.alloc(), room as usize)
        };
        let mut outlet = Outlet::new(&mut paper);
        let found = match Feeder::begin(config, &mut outlet) {
            Ok(feeder) => push_chunks(feeder, stream.as_slice(), 1_000_000, &mut outlet)?,
            Err(fault) => Err(fault),
        };
        let written = u64::from(room);
        same(found, Err(RunFault::Write { written }), room)?;
        same(failures_of_writes(&outlet), ONE_ERROR, room)?;
        same(paper.asked, written + 1, room)?;
        wrote(&paper, written, &[HEAD, BLACK, TAIL])?;
    }
    Ok(())
}

const WRITE: RunFault = RunFault::Write { written: 150 };

/// The bytes that come beside a black field, those after which the writer fails, the fault, the writer's failures, the
/// bytes written one by one, and how often the writer was asked for these, in all calls.
static FAULTS: [(usize, Option<usize>, RunFault, FailureCounts, u64, u64); 3] = [
    (0, Some(150), WRITE, ONE_ERROR, 150, 151),
    (1, None, RunFault::TooManyFields, NO_FAILURE, 227, 227),
    // Too many fields as well, after the record that isn't written.
    (1, Some(150), WRITE, ONE_ERROR, 150, 151),
];

#[test]
fn a_feeder_that_failed_writes_nothing_more(rt: HostRuntime) -> Result<(), Fail> {
    let config = config(System::Ntsc, 1)?;
    let mut stream = field(rt.alloc(), &config, NONE)?;
    // The field's first byte again.
    stream.push(0)?;
    for &(more, fault, error, failures, written, asked) in &FAULTS {
        let mut paper = Paper {
            piece: 1,
            fault,
            ..Paper::new(rt.alloc())
        };
        let piece = front(stream.as_slice(), 478_660 + more);
        let mut outlet = Outlet::new(&mut paper);
        let mut feeder = Feeder::begin(config, &mut outlet)?;
        same(
            push(&mut feeder, piece, &mut outlet)?,
            Err(error),
            "a piece",
        )?;
        same(
            push(&mut feeder, &[], &mut outlet)?,
            Err(RunFault::Failed),
            "no bytes",
        )?;
        same(end(feeder, &mut outlet)?, Err(RunFault::Failed), "the end")?;
        same(failures_of_writes(&outlet), failures, error)?;
        same(paper.asked, asked, error)?;
        wrote(&paper, written, &[HEAD, BLACK])?;
    }
    Ok(())
}
