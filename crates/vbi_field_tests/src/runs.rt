//! Runs between a reader and a writer, what they answer, and what was written.

use std::alloc::Global;
use std::io::Read;
use std::test::Fail;
use vbi_field::{
    Config, DrawFault, Outlet, RowIntake, RunFault, Summary, draw, extract, extract_recovered,
    show, show_recovered,
};
use vbi_line::Intake;
use vbi_test_devices::{Paper, Tape, holds, same};

/// How a run over a stream ends.
pub(crate) type Ended = Result<Summary, RunFault>;

/// How often a device failed, and how often of these by an error, which is no interruption.
#[derive(Clone, Copy, Debug, PartialEq, Eq)]
pub(crate) struct FailureCounts {
    pub(crate) all: u64,
    pub(crate) errors: u64,
}

pub(crate) const NO_FAILURE: FailureCounts = FailureCounts { all: 0, errors: 0 };

pub(crate) const ONE_ERROR: FailureCounts = FailureCounts { all: 1, errors: 1 };

/// This many interruptions and no error.
pub(crate) fn interruptions(count: usize) -> FailureCounts {
    FailureCounts {
        all: count as u64,
        errors: 0,
    }
}

pub(crate) fn failures_of_writes(outlet: &Outlet<Paper>) -> FailureCounts {
    FailureCounts {
        all: outlet.failures(),
        errors: outlet.errors(),
    }
}

/// How a run ended, and its counts.
#[derive(Clone, Copy, Debug, PartialEq, Eq)]
pub(crate) struct RunCounts {
    pub(crate) result: Ended,
    pub(crate) fetched: u64,
    pub(crate) read_failures: FailureCounts,
    pub(crate) written: u64,
    pub(crate) write_failures: FailureCounts,
}

#[derive(Clone, Copy, Debug)]
pub(crate) enum StreamText {
    Extract,
    ExtractRecovered,
    Show,
    ShowRecovered,
}

pub(crate) static VERBS: [StreamText; 4] = [
    StreamText::Extract,
    StreamText::Show,
    StreamText::ExtractRecovered,
    StreamText::ShowRecovered,
];

pub(crate) fn ran<R: Read>(
    verb: StreamText,
    config: &Config,
    reader: &mut R,
    paper: &mut Paper,
) -> RunCounts {
    let mut intake = Intake::new(reader, config.system());
    let mut outlet = Outlet::new(paper);
    let result = match verb {
        StreamText::Extract => extract(config, &mut intake, &mut outlet),
        StreamText::ExtractRecovered => extract_recovered(config, &mut intake, &mut outlet),
        StreamText::Show => show(config, &mut intake, &mut outlet),
        StreamText::ShowRecovered => show_recovered(config, &mut intake, &mut outlet),
    };
    RunCounts {
        result,
        fetched: intake.fetched(),
        read_failures: FailureCounts {
            all: intake.failures(),
            errors: intake.errors(),
        },
        written: outlet.written(),
        write_failures: failures_of_writes(&outlet),
    }
}

/// How drawing a text of words ended, its counts, and how often the reader of the text was asked.
#[derive(Clone, Copy, Debug, PartialEq, Eq)]
pub(crate) struct Drawn {
    pub(crate) result: Result<u32, DrawFault>,
    pub(crate) fetched: u64,
    pub(crate) read_failures: FailureCounts,
    pub(crate) asked: u64,
    pub(crate) written: u64,
    pub(crate) write_failures: FailureCounts,
}

/// Draws the fields of a text of words.
pub(crate) fn drew(config: &Config, mut words: Tape, paper: &mut Paper) -> Drawn {
    let mut rows = RowIntake::new(&mut words);
    let mut outlet = Outlet::new(paper);
    let result = draw(config, &mut rows, &mut outlet);
    Drawn {
        result,
        fetched: rows.fetched(),
        read_failures: FailureCounts {
            all: rows.failures(),
            errors: rows.errors(),
        },
        written: outlet.written(),
        write_failures: failures_of_writes(&outlet),
        asked: rows.into_reader().asked,
    }
}

/// What a whole run answers.
pub(crate) fn whole(fields: u32, cut: Option<u32>, looked: u64) -> Ended {
    Ok(Summary {
        fields,
        cut,
        looked,
    })
}

/// Whether a writer took so many bytes, and they begin these texts, one after another.
fn took(paper: &Paper, count: u64, texts: &[&str]) -> bool {
    let mut rest = paper.taken.as_slice();
    for text in texts {
        let (front, more) = rest.split_at(rest.len().min(text.len()));
        if !text.as_bytes().starts_with(front) {
            return false;
        }
        rest = more;
    }
    rest.is_empty() && paper.taken.len() as u64 == count
}

/// Fails where a writer took other bytes than so many of these texts, or was flushed.
pub(crate) fn wrote(paper: &Paper, count: u64, texts: &[&str]) -> Result<(), Fail> {
    holds(took(paper, count, texts), (count, texts))?;
    same(paper.flushed, 0, "flushed")
}

/// The bytes of some short texts.
pub(crate) fn total(texts: &[&str]) -> u64 {
    let mut bytes = 0_u64;
    for text in texts {
        bytes = bytes.wrapping_add(text.len() as u64);
    }
    bytes
}

/// What a run has to answer, and the texts that it has to begin, or to write if it ends well.
#[derive(Clone, Copy)]
pub(crate) struct Wanted<'a> {
    pub(crate) done: RunCounts,
    pub(crate) texts: &'a [&'a str],
}

impl RunCounts {
    /// What a run has to answer, with the texts that it writes.
    pub(crate) fn with<'a>(self, texts: &'a [&'a str]) -> Wanted<'a> {
        Wanted { done: self, texts }
    }
}

/// Fails if a run between two devices ends otherwise, or if what was written doesn't begin these texts.
pub(crate) fn answers<R: Read + Drop>(
    verb: StreamText,
    config: &Config,
    reader: &mut R,
    paper: &mut Paper,
    wanted: Wanted,
) -> Result<(), Fail> {
    same(ran(verb, config, reader, paper), wanted.done, verb)?;
    wrote(paper, wanted.done.written, wanted.texts)
}

/// What a run answers that takes all of a stream and writes these texts, and whose devices don't fail.
pub(crate) fn undisturbed<'a>(stream: &[u8], ended: Ended, texts: &'a [&'a str]) -> Wanted<'a> {
    let done = RunCounts {
        result: ended,
        fetched: stream.len() as u64,
        read_failures: NO_FAILURE,
        written: total(texts),
        write_failures: NO_FAILURE,
    };
    done.with(texts)
}

/// Fails if a run over a stream ends otherwise, a device fails, or other texts than these are written.
pub(crate) fn writes(
    alloc: Global,
    verb: StreamText,
    config: &Config,
    stream: &[u8],
    wanted: Wanted,
) -> Result<(), Fail> {
    let mut tape = Tape::new(stream);
    let mut paper = Paper::new(alloc);
    answers(verb, config, &mut tape, &mut paper, wanted)
}

/// Fails where a run writes otherwise by reads of some length: a byte, an odd number of bytes, and a line of NTSC and a
/// byte.
pub(crate) fn writes_by_any_reads(
    alloc: Global,
    verb: StreamText,
    config: &Config,
    stream: &[u8],
    wanted: Wanted,
) -> Result<(), Fail> {
    for piece in [1, 3, 1821] {
        let mut tape = Tape {
            piece,
            ..Tape::new(stream)
        };
        let mut paper = Paper::new(alloc);
        answers(verb, config, &mut tape, &mut paper, wanted)?;
    }
    Ok(())
}
