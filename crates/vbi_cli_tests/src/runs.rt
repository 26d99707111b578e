//! Jobs between the devices of tests, and what they do.

use std::alloc::Global;
use vbi_cli::{AppFault, Ended, Job, Verb, run_job};
use vbi_meta::Overrides;
use vbi_test_devices::{Paper, Tape};
use vbi_words::System;

pub(crate) const NONE: Overrides = Overrides {
    system: None,
    black: None,
    white: None,
    max_fields: None,
};

/// The levels of the stored run, whose samples are two spaces or two `@`.
pub(crate) const STORED: Overrides = Overrides {
    system: Some(System::Ntsc),
    black: Some(8224),
    white: Some(16448),
    max_fields: None,
};

pub(crate) const NTSC: Overrides = Overrides {
    system: Some(System::Ntsc),
    black: Some(16384),
    white: Some(51200),
    max_fields: None,
};

pub(crate) const PAL: Overrides = Overrides {
    system: Some(System::Pal),
    black: Some(16384),
    white: Some(54016),
    max_fields: None,
};

/// A job with no paths, and without recovered words.
pub(crate) fn job(verb: Verb, overrides: Overrides) -> Job {
    Job {
        verb,
        recover: false,
        overrides,
        meta: None,
        input: None,
    }
}

/// How often the devices of a job were asked, and how often its writer was flushed.
#[derive(Clone, Copy, Debug, PartialEq, Eq)]
pub(crate) struct DeviceCalls {
    pub(crate) reads: u64,
    pub(crate) writes: u64,
    pub(crate) flushes: u64,
}

pub(crate) const NEVER: DeviceCalls = DeviceCalls {
    reads: 0,
    writes: 0,
    flushes: 0,
};

/// What a job did.
#[derive(Drop)]
pub(crate) struct Ran {
    pub(crate) ended: Result<Ended, AppFault>,
    /// How many bytes of the input weren't read.
    pub(crate) left: usize,
    pub(crate) written: Vec<u8>,
    pub(crate) asked: DeviceCalls,
}

/// Does a job between two devices.
pub(crate) fn run_between(
    alloc: Global,
    job: &Job,
    meta: Option<&[u8]>,
    mut tape: Tape,
    mut paper: Paper,
) -> Ran {
    let ended = run_job(alloc, job, meta, &mut tape, &mut paper);
    let asked = DeviceCalls {
        reads: tape.asked,
        writes: paper.asked,
        flushes: paper.flushed,
    };
    Ran {
        ended,
        left: tape.rest.len(),
        written: paper.taken,
        asked,
    }
}

/// Does a job over memory.
pub(crate) fn run_over(alloc: Global, job: &Job, meta: Option<&[u8]>, input: &[u8]) -> Ran {
    run_between(alloc, job, meta, Tape::new(input), Paper::new(alloc))
}
