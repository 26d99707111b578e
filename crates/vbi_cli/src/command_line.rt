//! The words of the command line, read into a job.

ghost use Rattle.std.specs.Prelude.{◌≡◌, None, IfOk, OnErr};
ghost use Rattle.vbi_words.specs.Geometry.{name_of, system_named};
ghost use Rattle.vbi_cli.specs.Jobs.{words_status, word_of, looks_beside};
ghost use Rattle.vbi_cli.specs.declared.command_line.Verb as verbs;

use crate::commands::{RECOVER, can_recover, program};
use clap::ArgMatches;
use clap::error::ErrorKind;
use std::alloc::{AllocError, AllocFailed, Global};
use thiserror::Error;
use vbi_meta::{MetaFault, Overrides};
use vbi_words::System;

/// What the program is to do.
#[derive(Clone, Copy, Debug, PartialEq, Eq)]
pub enum Verb {
    /// Print the word of one line.
    Line,
    /// Write the words of each field as a document.
    Extract,
    /// Print the words of each field and what they mean.
    Show,
    /// Write fields drawn from rows of words.
    Draw,
}

/// A command line, read.
#[derive(Debug, Drop)]
pub struct Job {
    /// What is to be done.
    pub verb: Verb,
    /// Whether `extract` and `show` are to recover words from worn lines; the others recover none.
    pub recover: bool,
    /// The options that stand in place of metadata.
    pub overrides: Overrides,
    /// The path of the metadata file, if one is given.
    pub meta: Option<String>,
    /// The path of the input; None for standard input.
    pub input: Option<String>,
}

impl Job {
    /// Whether the metadata that lies beside the input is to be read, if there is some: the input is a file, and
    /// neither metadata nor each of system, black and white is given.
    pub fn looks_beside(&self) -> bool
        ensures { result ≡ looks_beside self.now }
    {
        let given = &self.overrides;
        let is_settled = given.system.is_some() && given.black.is_some() && given.white.is_some();
        self.input.is_some() && self.meta.is_none() && !is_settled
    }
}

/// Why a command line gives no job.
#[derive(Debug, Drop, Error)]
pub enum WordsFault {
    /// The words are refused, with the text that says why.
    #[error("{0}")]
    Refused(String),
    /// Help or the version is asked for, with its text.
    #[error("{0}")]
    Help(String),
    /// Memory was refused.
    #[error("{}", MetaFault::OutOfMemory)]
    OutOfMemory,
}

impl WordsFault {
    /// The status that the program ends with.
    pub fn status(&self) -> u8
        ensures { result ≡ words_status self.now }
    {
        match self {
            WordsFault::Refused(_) => 2,
            WordsFault::Help(_) => 0,
            WordsFault::OutOfMemory => 1,
        }
    }
}

impl From<AllocError> for WordsFault {
    fn from(_refused: AllocError) -> WordsFault {
        WordsFault::OutOfMemory
    }
}

impl<T: Drop> From<AllocFailed<T>> for WordsFault {
    fn from(_refused: AllocFailed<T>) -> WordsFault {
        WordsFault::OutOfMemory
    }
}

/// Reads a command line, whose first word is the program's name.
pub fn read_words(alloc: Global, words: &[String]) -> Result<Job, WordsFault> {
    let matches = match program(alloc)?.try_get_matches_from(words) {
        Ok(matches) => matches,
        Err(error) => return Err(refusal(alloc, &error)?),
    };
    match matches.subcommand() {
        Some((name, options)) => job_of(alloc, name, options),
        None => unreachable!("the program asks for a command"),
    }
}

/// The fault that an error of `clap` is.
fn refusal(alloc: Global, error: &clap::Error) -> Result<WordsFault, AllocError> {
    Ok(match error.kind() {
        ErrorKind::OutOfMemory => WordsFault::OutOfMemory,
        ErrorKind::DisplayHelp | ErrorKind::DisplayVersion => {
            WordsFault::Help(error.to_string(alloc)?)
        }
        _ => WordsFault::Refused(error.to_string(alloc)?),
    })
}

/// The job of a command and its options.
fn job_of(alloc: Global, name: &str, options: &ArgMatches<'_>) -> Result<Job, WordsFault> {
    let system = options
        .get_str("system")
        .map(|name| system_named(alloc, name))
        .transpose()?;
    let overrides = Overrides {
        system,
        black: options.get_one::<u16>("black"),
        white: options.get_one::<u16>("white"),
        max_fields: options.get_one::<u32>("max-fields"),
    };
    let meta = owned(alloc, options.get_str("meta"))?;
    let input = owned(alloc, options.get_str("input").filter(|path| *path != "-"))?;
    Ok(Job {
        verb: verb_named(name),
        recover: asks_recovery(name, options),
        overrides,
        meta,
        input,
    })
}

/// The command of one of the four names; `clap` has refused every other name.
fn verb_named(name: &str) -> Verb
    ensures { (verb : verbs.Verb) → name.now ≡ word_of verb → result ≡ verb }
{
    match name {
        "line" => Verb::Line,
        "extract" => Verb::Extract,
        "show" => Verb::Show,
        _ => Verb::Draw,
    }
}

/// Whether recovered words are asked for. Rust's own `clap` panics if a command is asked for a flag that it hasn't.
fn asks_recovery(name: &str, options: &ArgMatches<'_>) -> bool {
    can_recover(name) && options.get_flag(RECOVER)
}

/// The system of this name. `clap` has refused each name that isn't among the possible values; should one of these name
/// no system, it is refused here.
fn system_named(alloc: Global, name: &str) -> Result<System, WordsFault>
    ensures ok { IfOk result (λ system. name.now ≡ name_of system) }
    ensures refused { OnErr result (system_named name.now ≡ None) }
{
    let Some(system) = System::named(name) else {
        let text = format!(in alloc; "error: no system is called '{name}'\n")?;
        return Err(WordsFault::Refused(text));
    };
    Ok(system)
}

fn owned(alloc: Global, text: Option<&str>) -> Result<Option<String>, AllocError> {
    text.map(|text| String::from_str(alloc, text)).transpose()
}
