//! Faults of a run, what stands after them, and how often the devices are asked: a reader that has a byte for each read
//! once for each, and once more for its end or its error; a writer of one byte a write once for each, and once more
//! where it fails. No run asks again after these.

use crate::faults::ReaderEnd::{Cut, Read, TooMany, Whole};
use crate::fields::{NONE, config, field, front, two_fields};
use crate::known::{
    BLACK, HEAD, PAL_HEAD, PAL_RECOVERED_HEAD, PAL_REPORT_HEAD, RECOVERED_BLACK, RECOVERED_HEAD,
    REPORT_BLACK, REPORT_HEAD, REPORT_SECOND_BLACK, REPORT_TAIL, SECOND_BLACK,
    SECOND_RECOVERED_BLACK, TAIL,
};
use crate::runs::{
    Ended, NO_FAILURE, ONE_ERROR, RunCounts, StreamText, VERBS, answers, interruptions, total,
    whole,
};
use std::test::Fail;
use vbi_field::{RunFault, Summary};
use vbi_test_devices::{Paper, Tape, same};
use vbi_words::System::{self, Ntsc, Pal};

/// How a run over black fields ends.
#[derive(Clone, Copy, Debug)]
enum ReaderEnd {
    /// Whole, after so many fields.
    Whole(u32),
    /// Whole, after the first byte of the first field.
    Cut,
    /// By an error, in this field after so many of its bytes.
    Read(u32, u32),
    /// By a byte past the last field allowed.
    TooMany(u32),
}

/// The bytes of a field, and those of two.
const FIELD: usize = 478_660;

const TWO: usize = 957_320;

const PAL_FIELD: usize = 710_510;

/// The system, the limit of fields, the bytes of the stream, after how many of them the reader fails, how the run ends,
/// and how often the reader is asked.
static READERS: [(System, u32, usize, Option<usize>, ReaderEnd, u64); 22] = [
    (Ntsc, 5, 0, None, Whole(0), 1),
    (Ntsc, 5, 1, None, Cut, 2),
    (Ntsc, 5, FIELD, None, Whole(1), 478_661),
    (Ntsc, 1, FIELD, None, Whole(1), 478_661),
    (Ntsc, 2, TWO, None, Whole(2), 957_321),
    (Ntsc, 5, TWO, Some(0), Read(1, 0), 1),
    (Ntsc, 5, TWO, Some(1), Read(1, 1), 2),
    (Ntsc, 5, TWO, Some(1819), Read(1, 1819), 1820),
    (Ntsc, 5, TWO, Some(1820), Read(1, 1820), 1821),
    (Ntsc, 5, TWO, Some(478_659), Read(1, 478_659), 478_660),
    (Ntsc, 5, TWO, Some(FIELD), Read(2, 0), 478_661),
    (Ntsc, 5, TWO, Some(479_660), Read(2, 1000), 479_661),
    (Ntsc, 1, TWO, Some(FIELD), Read(2, 0), 478_661),
    (Ntsc, 1, TWO, Some(478_665), Read(2, 5), 478_666),
    (Ntsc, 1, 478_665, None, TooMany(1), 478_666),
    (Ntsc, 2, 957_321, None, TooMany(2), 957_322),
    // A whole line past the last field, after which nothing is asked for.
    (Ntsc, 1, TWO, None, TooMany(1), 480_480),
    (Pal, 5, 1, None, Cut, 2),
    (Pal, 1, PAL_FIELD, None, Whole(1), 710_511),
    (Pal, 5, 1_421_020, Some(710_509), Read(1, 710_509), 710_510),
    (Pal, 5, 1_421_020, Some(710_511), Read(2, 1), 710_512),
    (Pal, 1, 1_421_020, None, TooMany(1), 712_780),
];

/// What stands after the head of a document or a report of one byte.
static CUTS: [&str; 2] = [
    "\n],\"cutField\":{\"seqNo\":1,\"bytes\":1}}\n",
    "fields 0 cut field 1 bytes 1\n",
];

/// The last lines of reports.
static LASTS: [&str; 3] = ["fields 0 cut none\n", REPORT_TAIL, "fields 2 cut none\n"];

/// The head, the records of two black fields and, where the run is whole, the tail that stand after a run.
fn texts_of(verb: StreamText, system: System, end: ReaderEnd) -> [&'static str; 4] {
    let head = match (verb, system) {
        (StreamText::Extract, Ntsc) => HEAD,
        (StreamText::Extract, Pal) => PAL_HEAD,
        (StreamText::ExtractRecovered, Ntsc) => RECOVERED_HEAD,
        (StreamText::ExtractRecovered, Pal) => PAL_RECOVERED_HEAD,
        (StreamText::Show | StreamText::ShowRecovered, Ntsc) => REPORT_HEAD,
        (StreamText::Show | StreamText::ShowRecovered, Pal) => PAL_REPORT_HEAD,
    };
    let (first, second, tails, cut) = match verb {
        StreamText::Extract => (BLACK, SECOND_BLACK, [TAIL; 3], CUTS[0]),
        StreamText::ExtractRecovered => (
            RECOVERED_BLACK,
            SECOND_RECOVERED_BLACK,
            [TAIL; 3],
            CUTS[0],
        ),
        StreamText::Show | StreamText::ShowRecovered => (
            REPORT_BLACK,
            REPORT_SECOND_BLACK,
            LASTS,
            CUTS[1],
        ),
    };
    match end {
        Cut => [head, cut, "", ""],
        Whole(0) => [head, tails[0], "", ""],
        Whole(1) => [head, first, tails[1], ""],
        Whole(_) => [head, first, second, tails[2]],
        Read(1, _) => [head, "", "", ""],
        Read(..) | TooMany(1) => [head, first, "", ""],
        TooMany(_) => [head, first, second, ""],
    }
}

fn result_of(system: System, end: ReaderEnd) -> Ended {
    match end {
        Cut => whole(0, Some(1), 0),
        Whole(fields) => {
            let looked = match system {
                Ntsc => 2730 * u64::from(fields),
                Pal => 3405 * u64::from(fields),
            };
            whole(fields, None, looked)
        }
        Read(field, offset) => Err(RunFault::Read { field, offset }),
        TooMany(_) => Err(RunFault::TooManyFields),
    }
}

#[test]
fn no_reader_is_asked_again_after_its_end_or_an_error(rt: HostRuntime) -> Result<(), Fail> {
    let mut ntsc = two_fields(rt.alloc(), &config(Ntsc, 5)?, NONE)?;
    ntsc.push(0)?;
    let pal = two_fields(rt.alloc(), &config(Pal, 5)?, NONE)?;
    for &(system, limit, bytes, fault, end, asked) in &READERS {
        let config = config(system, limit)?;
        let stream = match system {
            Ntsc => front(ntsc.as_slice(), bytes),
            Pal => front(pal.as_slice(), bytes),
        };
        // What the reader has before it says its end or fails.
        let had = match fault {
            Some(count) => count,
            None => bytes,
        };
        // One loop serves all four, so that short streams are enough for those with recovered words.
        let verbs = if asked < 2000 { 4 } else { 2 };
        for &verb in VERBS.iter().take(verbs) {
            let texts = texts_of(verb, system, end);
            let mut tape = Tape {
                piece: 1,
                fault,
                ..Tape::new(stream)
            };
            let done = RunCounts {
                result: result_of(system, end),
                fetched: asked.min(had as u64),
                read_failures: match end {
                    Read(..) => ONE_ERROR,
                    _ => NO_FAILURE,
                },
                written: total(&texts),
                write_failures: NO_FAILURE,
            };
            let mut paper = Paper::new(rt.alloc());
            answers(verb, &config, &mut tape, &mut paper, done.with(&texts))?;
            same(tape.asked, asked, (verb, end))?;
        }
    }
    Ok(())
}

/// The bytes of the head and of all texts of a black field's document and report.
static WRITERS: [(StreamText, u32, u32); 2] = [
    (StreamText::Extract, 135, 247),
    (StreamText::Show, 44, 120),
];

/// How a run over black fields ends where the writer takes so many bytes, and then fails; the head has `head` of them.
fn unwritten(room: u32, head: u32) -> RunCounts {
    let written = u64::from(room);
    RunCounts {
        result: Err(RunFault::Write { written }),
        fetched: if room < head { 0 } else { 478_660 },
        read_failures: NO_FAILURE,
        written,
        write_failures: ONE_ERROR,
    }
}

#[test]
fn no_writer_is_asked_again_after_it_failed_at_any_byte(rt: HostRuntime) -> Result<(), Fail> {
    let config = config(Ntsc, 5)?;
    let stream = field(rt.alloc(), &config, NONE)?;
    for &(verb, head, bytes) in &WRITERS {
        let texts = texts_of(verb, Ntsc, Whole(1));
        for room in 0..bytes {
            let mut paper = Paper {
                piece: 1,
                jams: room % 2 == 0,
                ..Paper::failing(rt.alloc(), room as usize)
            };
            let mut tape = Tape::new(stream.as_slice());
            let done = unwritten(room, head);
            answers(verb, &config, &mut tape, &mut paper, done.with(&texts))?;
            same(paper.asked, u64::from(room) + 1, (verb, room))?;
        }
        let mut paper = Paper {
            piece: 1,
            ..Paper::failing(rt.alloc(), bytes as usize)
        };
        let mut tape = Tape::new(stream.as_slice());
        let done = RunCounts {
            result: whole(1, None, 2730),
            write_failures: NO_FAILURE,
            ..unwritten(bytes, head)
        };
        answers(verb, &config, &mut tape, &mut paper, done.with(&texts))?;
        same(paper.asked, u64::from(bytes), verb)?;
    }
    Ok(())
}

#[test]
fn a_record_is_written_before_the_next_field_is_read(rt: HostRuntime) -> Result<(), Fail> {
    let config = config(Ntsc, 5)?;
    let stream = two_fields(rt.alloc(), &config, NONE)?;
    for jams in [false, true] {
        let mut tape = Tape::new(stream.as_slice());
        let mut paper = Paper {
            jams,
            ..Paper::failing(rt.alloc(), 150)
        };
        let done = unwritten(150, 135);
        let wanted = done.with(&[HEAD, BLACK]);
        answers(StreamText::Extract, &config, &mut tape, &mut paper, wanted)?;
    }
    Ok(())
}

const BLACK_FIELD: Ended = Ok(Summary {
    fields: 1,
    cut: None,
    looked: 2730,
});

const UNREAD: Ended = Err(RunFault::Read {
    field: 1,
    offset: 0,
});

const UNWRITTEN: Ended = Err(RunFault::Write { written: 0 });

/// The interruptions before the first read and before the first write, each of which is a failure and no error, and how
/// the run over a black field then ends: its result, the bytes fetched and those written.
static INTERRUPTIONS: [(usize, usize, Ended, u64, u64); 4] = [
    (16, 0, BLACK_FIELD, 478_660, 247),
    (17, 0, UNREAD, 0, 135),
    (0, 16, BLACK_FIELD, 478_660, 247),
    (0, 17, UNWRITTEN, 0, 0),
];

#[test]
fn sixteen_interruptions_in_a_row_are_borne(rt: HostRuntime) -> Result<(), Fail> {
    let config = config(Ntsc, 5)?;
    let stream = field(rt.alloc(), &config, NONE)?;
    for &(reads, interrupts, result, fetched, written) in &INTERRUPTIONS {
        let mut tape = Tape {
            interrupts: reads,
            ..Tape::new(stream.as_slice())
        };
        let mut paper = Paper {
            interrupts,
            ..Paper::new(rt.alloc())
        };
        let done = RunCounts {
            result,
            fetched,
            read_failures: interruptions(reads),
            written,
            write_failures: interruptions(interrupts),
        };
        let texts = [HEAD, BLACK, TAIL];
        let wanted = done.with(&texts);
        answers(StreamText::Extract, &config, &mut tape, &mut paper, wanted)?;
    }
    Ok(())
}
