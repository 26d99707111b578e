//! The program `ldvbi`: it opens what the command line names, has the job done over that, and prints what went wrong.
//! The crate `vbi_cli` reads the words (`read_words`) and does the job (`run_job`).
#![tactic(auto)]

mod fault;

use fault::MainFault;
use std::fs::File;
use std::io::{Read, Write};
use std::process::ExitCode;
use std::rt::{Env, Files};
use std::{env, fs, io};
use vbi_cli::{AppFault, Input, Job, WordsFault, read_words, run_job, status};
use vbi_meta::{META_LIMIT, MetaFault};

fn main(rt: HostRuntime) -> ExitCode {
    ExitCode::from(run(&rt))
}

/// Runs the program, and answers its status.
fn run(rt: &HostRuntime) -> u8 {
    let words = match arguments(rt) {
        Ok(words) => words,
        Err(fault) => return complain(rt, fault),
    };
    let job = match read_words(rt.alloc(), words.as_slice()) {
        Ok(job) => job,
        Err(fault) => return refuse(rt, &fault),
    };
    match run_with_files(rt, &job) {
        Ok(status) => status,
        Err(fault) => complain(rt, fault),
    }
}

/// The words of the command line, the program's name first.
fn arguments(rt: &(impl Env + AllocGlobal)) -> Result<Vec<String>, MainFault> {
    let words = match env::args(rt) {
        Ok(words) => words,
        Err(error) if error.kind() == io::ErrorKind::OutOfMemory => {
            return Err(MainFault::OutOfMemory);
        }
        Err(_) => return Err(MainFault::NotUtf8),
    };
    words
        .collect::<Vec<String>>(rt.alloc())
        .map_err(|_| MainFault::OutOfMemory)
}

/// Prints why there is no job, and answers the status.
fn refuse(rt: &HostRuntime, fault: &WordsFault) -> u8 {
    // If a refusal can't be printed, nothing is left to say so with.
    let _ = match fault {
        WordsFault::Help(text) => return help(rt, text.as_str()),
        WordsFault::Refused(text) => eprint!(rt; "{text}"),
        WordsFault::OutOfMemory => eprintln!(rt; "ldvbi: {fault}"),
    };
    fault.status()
}

/// Prints help or the version, which was asked for, and answers the status.
fn help(rt: &HostRuntime, text: &str) -> u8 {
    let mut output = rt.stdout();
    if output.write_all(text.as_bytes()).is_err() || output.flush().is_err() {
        return complain(rt, MainFault::CannotWriteOutput);
    }
    0
}

/// Prints the line of a fault, and answers the status.
fn complain(rt: &impl Eprint, fault: MainFault) -> u8 {
    let _ = eprintln!(rt; "ldvbi: {fault}");
    fault.status()
}

/// Opens what the job names, does the job, and answers the status.
fn run_with_files(rt: &HostRuntime, job: &Job) -> Result<u8, MainFault> {
    let beside = name_beside(rt, job)?;
    let meta = match metadata_of(rt, job, beside.as_ref()) {
        Ok(meta) => meta,
        Err(fault) => return Ok(complain_of(rt, beside.as_ref(), fault)),
    };
    // A fault is the file's that nobody named only if there is one.
    let beside = beside.filter(|_| meta.is_some());
    let mut input = match &job.input {
        None => Input::Standard(rt.stdin()),
        Some(path) => {
            let file = File::open(rt, path.as_str()).map_err(|_| MainFault::CannotOpenInput)?;
            Input::File(file)
        }
    };
    let mut output = rt.stdout();
    let bytes = meta.as_ref().map(Vec::as_slice);
    let ended = run_job(rt.alloc(), job, bytes, &mut input, &mut output);
    let flushed = output.flush();
    if let Err(fault) = &ended {
        print_fault(rt, beside.as_ref(), fault);
    } else if flushed.is_err() {
        return Err(MainFault::FlushFailed);
    }
    Ok(status(&ended))
}

/// Prints the line of a job's fault. It names the metadata file that nobody named, if the fault is in that.
fn print_fault(rt: &impl Eprint, beside: Option<&String>, fault: &AppFault) {
    let _ = match (beside, fault) {
        (Some(name), AppFault::Meta(fault)) if is_in_metadata(*fault) => {
            eprintln!(rt; "ldvbi: {name}: {fault}")
        }
        _ => eprintln!(rt; "ldvbi: {fault}"),
    };
}

/// Whether a fault may be one of the metadata: of the limit of fields it is one of the options, and memory is no fault
/// of theirs.
fn is_in_metadata(fault: MetaFault) -> bool {
    !matches!(fault, MetaFault::BadMaxFields | MetaFault::OutOfMemory)
}

/// Prints that metadata can't be read, with the name of a file that nobody named, and answers the status.
fn complain_of(rt: &impl Eprint, beside: Option<&String>, fault: MainFault) -> u8 {
    match beside {
        Some(name) if fault == MainFault::CannotReadMetadata => {
            let _ = eprintln!(rt; "ldvbi: {name}: {fault}");
            fault.status()
        }
        _ => complain(rt, fault),
    }
}

/// The name of the metadata that may be beside the job's input, if the job looks there: that of the input, with
/// `.json` after it.
fn name_beside(rt: &impl AllocGlobal, job: &Job) -> Result<Option<String>, MainFault> {
    match &job.input {
        Some(input) if job.looks_beside() => format!(in rt.alloc(); "{input}.json")
            .map(Some)
            .map_err(|_| MainFault::OutOfMemory),
        _ => Ok(None),
    }
}

/// The bytes of the metadata file that the job names, or of the one beside its input, if there is one.
fn metadata_of(
    rt: &HostRuntime,
    job: &Job,
    beside: Option<&String>,
) -> Result<Option<Vec<u8>>, MainFault> {
    match (&job.meta, beside) {
        (Some(path), _) => metadata(rt, path.as_str()).map(Some),
        (None, Some(path)) => metadata_beside(rt, path.as_str()),
        _ => Ok(None),
    }
}

/// The bytes of a metadata file, up to one past those that are allowed.
fn metadata(rt: &(impl Files + AllocGlobal), path: &str) -> Result<Vec<u8>, MainFault> {
    let file = File::open(rt, path).map_err(|_| MainFault::CannotReadMetadata)?;
    metadata_in(rt, file)
}

/// The bytes of a metadata file that nobody named, if there is such a file. A pipe or a device in its place might have
/// the program wait for ever, so it isn't opened.
fn metadata_beside(
    rt: &(impl Files + AllocGlobal),
    path: &str,
) -> Result<Option<Vec<u8>>, MainFault> {
    match fs::metadata(rt, path) {
        Ok(found) if found.is_file() => metadata(rt, path).map(Some),
        Err(error) if is_absent(error.kind()) => Ok(None),
        _ => Err(MainFault::CannotReadMetadata),
    }
}

/// Whether a file that can't be opened for this reason isn't there.
fn is_absent(kind: io::ErrorKind) -> bool {
    matches!(kind, io::ErrorKind::NotFound | io::ErrorKind::NotADirectory)
}

/// The bytes of an open metadata file, up to one past those that are allowed.
fn metadata_in<R: Read + Drop>(rt: &impl AllocGlobal, file: R) -> Result<Vec<u8>, MainFault> {
    let mut bytes = Vec::new(rt.alloc());
    match file.take(META_LIMIT as u64 + 1).read_to_end(&mut bytes) {
        Ok(_) => Ok(bytes),
        Err(error) if error.kind() == io::ErrorKind::OutOfMemory => Err(MainFault::OutOfMemory),
        Err(_) => Err(MainFault::CannotReadMetadata),
    }
}
