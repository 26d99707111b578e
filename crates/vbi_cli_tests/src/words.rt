//! What the words of the command line put into a job.
//!
//! `each_command_takes_each_set_of_options` goes through all 32 sets of the five options, with each value apart from
//! its name and joined to it, and the input before them or after them. The tables after it have what that leaves out:
//! which input has metadata beside it (`BESIDE`), paths that look like options or are odd otherwise (`PATHS`), and the
//! least and the greatest values (`LEVELS`, `LIMITS`), some of which the settings refuse later. The last two tests are
//! of memory that runs out.
//!
//! `read` and `read_after` serve refusals.rt, which has the words that are refused. An option that is added in
//! vbi_cli/src/commands.rt gets its row in `OPTIONS`, and its place in `Held`.

use crate::runs::NONE;
use std::alloc::{AllocError, Global};
use std::test::Fail;
use vbi_cli::{Job, Verb, WordsFault, read_words};
use vbi_meta::Overrides;
use vbi_test_devices::{holds, same};
use vbi_words::System;

/// What the program makes of these words.
pub(crate) fn read(alloc: Global, texts: &[&str]) -> Result<Job, WordsFault> {
    let words = owned(alloc, texts)?;
    read_words(alloc, words.as_slice())
}

/// What the program makes of its name, a command, and the words after it.
pub(crate) fn read_after(alloc: Global, command: &str, texts: &[&str]) -> Result<Job, WordsFault> {
    let mut words = owned(alloc, &["ldvbi", command])?;
    for text in texts {
        words.push(String::from_str(alloc, text)?)?;
    }
    read_words(alloc, words.as_slice())
}

fn owned(alloc: Global, texts: &[&str]) -> Result<Vec<String>, AllocError> {
    let mut words = Vec::new(alloc);
    for text in texts {
        words.push(String::from_str(alloc, text)?)?;
    }
    Ok(words)
}

pub(crate) static COMMANDS: [(&str, Verb); 4] = [
    ("line", Verb::Line),
    ("extract", Verb::Extract),
    ("show", Verb::Show),
    ("draw", Verb::Draw),
];

/// The commands that may be asked for recovered words.
static RECOVERING: [(&str, Verb); 2] = [("extract", Verb::Extract), ("show", Verb::Show)];

/// All that a job holds.
#[derive(Clone, Copy, Debug, PartialEq, Eq)]
struct Held<'a> {
    verb: Verb,
    recover: bool,
    overrides: Overrides,
    meta: Option<&'a str>,
    input: Option<&'a str>,
}

fn contents_of(job: &Job) -> Held<'_> {
    Held {
        verb: job.verb,
        recover: job.recover,
        overrides: job.overrides,
        meta: job.meta.as_ref().map(String::as_str),
        input: job.input.as_ref().map(String::as_str),
    }
}

/// The words of each option, with its value apart, and joined to it.
static OPTIONS: [(&[&str], &[&str]); 5] = [
    (&["--meta", "disc.tbc.json"], &["--meta=disc.tbc.json"]),
    (&["--system", "PAL"], &["--system=PAL"]),
    (&["--black", "16384"], &["--black=16384"]),
    (&["--white", "54016"], &["--white=54016"]),
    (&["--max-fields", "12"], &["--max-fields=12"]),
];

/// The words for the options that are given, in their order, and the input: before the options where these have their
/// values joined, else after them.
fn said(
    alloc: Global,
    given: [bool; 5],
    is_joined: bool,
    input: Option<&'static str>,
) -> Result<Vec<&'static str>, AllocError> {
    let mut words = Vec::new(alloc);
    if let (true, Some(path)) = (is_joined, input) {
        words.push(path)?;
    }
    for place in 0..OPTIONS.len() {
        let (apart, joined) = OPTIONS[place];
        if given[place] {
            words.extend_from_slice(if is_joined { joined } else { apart })?;
        }
    }
    if let (false, Some(path)) = (is_joined, input) {
        words.push(path)?;
    }
    Ok(words)
}

/// What these words put into a job, without recovered words.
fn wanted(verb: Verb, given: [bool; 5], input: Option<&'static str>) -> Held<'static> {
    let [meta, system, black, white, max_fields] = given;
    Held {
        verb,
        recover: false,
        overrides: Overrides {
            system: if system { Some(System::Pal) } else { None },
            black: if black { Some(16384) } else { None },
            white: if white { Some(54016) } else { None },
            max_fields: if max_fields { Some(12) } else { None },
        },
        meta: if meta { Some("disc.tbc.json") } else { None },
        input: if input == Some("-") { None } else { input },
    }
}

#[test]
fn each_command_takes_each_set_of_options(rt: HostRuntime) -> Result<(), Fail> {
    for &(command, verb) in &COMMANDS {
        for set in 0..32u32 {
            let given = [
                set & 1 != 0,
                set & 2 != 0,
                set & 4 != 0,
                set & 8 != 0,
                set & 16 != 0,
            ];
            for is_joined in [false, true] {
                for input in [None, Some("disc.tbc"), Some("-")] {
                    let words = said(rt.alloc(), given, is_joined, input)?;
                    let job = read_after(rt.alloc(), command, words.as_slice())?;
                    let wanted = wanted(verb, given, input);
                    let row = (command, words.as_slice());
                    same(contents_of(&job), wanted, row)?;
                }
            }
        }
    }
    Ok(())
}

#[test]
fn recovered_words_are_asked_for_before_or_after_the_input(rt: HostRuntime) -> Result<(), Fail> {
    for &(command, verb) in &RECOVERING {
        for words in [["--recover", "disc.tbc"], ["disc.tbc", "--recover"]] {
            let job = read_after(rt.alloc(), command, &words)?;
            let wanted = Held {
                recover: true,
                ..wanted(verb, [false; 5], Some("disc.tbc"))
            };
            same(contents_of(&job), wanted, (command, words))?;
        }
    }
    Ok(())
}

/// Words after `extract`, and whether metadata beside the input is looked for.
static BESIDE: [(&[&str], bool); 7] = [
    (&["disc.tbc"], true),
    (&["--recover", "--max-fields", "5", "disc.tbc"], true),
    (&["--system", "PAL", "--white", "54016", "disc.tbc"], true),
    (&["--black", "0", "--white", "54016", "disc.tbc"], true),
    (
        &[
            "--system", "PAL", "--black", "0", "--white", "54016", "disc.tbc",
        ],
        false,
    ),
    (&["--meta", "a.json", "disc.tbc"], false),
    (&["-"], false),
];

#[test]
fn metadata_is_looked_for_beside_a_file(rt: HostRuntime) -> Result<(), Fail> {
    for &(words, looks) in &BESIDE {
        let job = read_after(rt.alloc(), "extract", words)?;
        same(job.looks_beside(), looks, words)?;
    }
    Ok(())
}

/// The words after the command, the path of the metadata and that of the input.
static PATHS: [(&[&str], Option<&str>, Option<&str>); 17] = [
    (&[], None, None),
    (&["disc.tbc"], None, Some("disc.tbc")),
    (&["two words"], None, Some("two words")),
    (&["show"], None, Some("show")),
    // Standard input.
    (&["-"], None, None),
    (&["./-"], None, Some("./-")),
    // The empty text is a path.
    (&[""], None, Some("")),
    // After `--` stands no option.
    (&["--"], None, None),
    (&["--", "-"], None, None),
    (&["--", "-disc.tbc"], None, Some("-disc.tbc")),
    (&["--", "--black"], None, Some("--black")),
    (&["--", "--help"], None, Some("--help")),
    (&["--", "--"], None, Some("--")),
    // For metadata `-` is a path.
    (&["--meta", "-"], Some("-"), None),
    (&["--meta", "-", "disc.tbc"], Some("-"), Some("disc.tbc")),
    (&["--meta", "a.json", "-"], Some("a.json"), None),
    (
        &["--meta", "a.json", "--", "-b"],
        Some("a.json"),
        Some("-b"),
    ),
];

#[test]
fn paths_are_kept_as_they_are(rt: HostRuntime) -> Result<(), Fail> {
    for &(command, verb) in &COMMANDS {
        for &(words, meta, input) in &PATHS {
            let job = read_after(rt.alloc(), command, words)?;
            let wanted = Held {
                verb,
                recover: false,
                overrides: NONE,
                meta,
                input,
            };
            same(contents_of(&job), wanted, (command, words))?;
        }
    }
    Ok(())
}

/// Fails where an option with this value isn't taken, or isn't all that the job holds.
fn takes(alloc: Global, option: &str, value: &str, overrides: Overrides) -> Result<(), Fail> {
    for &(command, verb) in &COMMANDS {
        let job = read_after(alloc, command, &[option, value])?;
        let wanted = Held {
            verb,
            recover: false,
            overrides,
            meta: None,
            input: None,
        };
        same(contents_of(&job), wanted, (command, option, value))?;
    }
    Ok(())
}

/// Levels from the least to the greatest, and limits. The settings may still refuse them.
static LEVELS: [(&str, u16); 3] = [("0", 0), ("8224", 8224), ("65535", 65535)];

static LIMITS: [(&str, u32); 5] = [
    ("0", 0),
    ("1", 1),
    ("1000000", 1_000_000),
    ("1000001", 1_000_001),
    ("4294967295", 4_294_967_295),
];

#[test]
fn each_command_takes_values_up_to_their_bounds(rt: HostRuntime) -> Result<(), Fail> {
    for (value, system) in [("NTSC", System::Ntsc), ("PAL", System::Pal)] {
        let system = Some(system);
        takes(rt.alloc(), "--system", value, Overrides { system, ..NONE })?;
    }
    for &(value, level) in &LEVELS {
        let black = Some(level);
        takes(rt.alloc(), "--black", value, Overrides { black, ..NONE })?;
        let white = Some(level);
        takes(rt.alloc(), "--white", value, Overrides { white, ..NONE })?;
    }
    for &(value, limit) in &LIMITS {
        let max_fields = Some(limit);
        takes(
            rt.alloc(),
            "--max-fields",
            value,
            Overrides { max_fields, ..NONE },
        )?;
    }
    Ok(())
}

#[test]
fn the_program_may_be_called_by_any_name(rt: HostRuntime) -> Result<(), Fail> {
    for name in ["ldvbi", "/usr/local/bin/ldvbi", "./a b", "show", "--help"] {
        let job = read(rt.alloc(), &[name, "line"])?;
        same(job.verb, Verb::Line, name)?;
    }
    Ok(())
}

#[test]
fn want_of_memory_has_its_text_and_status(rt: HostRuntime) -> Result<(), Fail> {
    let fault = WordsFault::OutOfMemory;
    let text = fault.to_string(rt.alloc())?;
    let found = (text.as_str(), fault.status());
    same(found, ("out of memory", 1), "memory ran out")
}

/// To be run with each allocation failing in turn: the answer is that of ample memory, or that memory ran out.
#[test]
fn answers_want_of_memory_as_such(rt: HostRuntime) -> Result<(), Fail> {
    match read(rt.alloc(), &["ldvbi", "line", "--black", "8224"]) {
        Ok(job) => same(job.verb, Verb::Line, "the job"),
        Err(fault) => holds(matches!(fault, WordsFault::OutOfMemory), fault),
    }
}
