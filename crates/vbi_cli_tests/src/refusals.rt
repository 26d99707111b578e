//! Words of the command line that are refused, and the texts that say why.
//!
//! `REFUSALS` has a row for each way in which words after a command can be refused, with its whole text, and each
//! command is tried with each row; `REFUSED`, `NO_LEVELS` and `NO_OPTIONS` are more of the same, of which only the
//! refusal is tested. `NO_COMMAND` and `NO_NAMES` are words that name no command. `--recover` is of `extract` and
//! `show` alone.
//!
//! The texts are clap's own, with the names of src/commands.rt in vbi_cli: a row changes with those, and otherwise only
//! with clap. What good words put into a job is in words.rt.

use crate::known::joined;
use crate::words::{COMMANDS, read, read_after};
use std::alloc::Global;
use std::test::Fail;
use vbi_cli::{Job, WordsFault};
use vbi_test_devices::{holds, same};

/// The text that says why words are refused; fails where they aren't.
fn refused(
    alloc: Global,
    outcome: Result<Job, WordsFault>,
    words: &[&str],
) -> Result<String, Fail> {
    match outcome {
        Err(fault) => {
            same(fault.status(), 2, words)?;
            Ok(fault.to_string(alloc)?)
        }
        Ok(job) => {
            holds(false, (words, job))?;
            Ok(String::new(alloc))
        }
    }
}

/// Fails where words aren't refused, or these texts, one after another, aren't all that is said.
fn is_said(
    alloc: Global,
    outcome: Result<Job, WordsFault>,
    words: &[&str],
    texts: &[&str],
) -> Result<(), Fail> {
    let text = refused(alloc, outcome, words)?;
    let wanted = joined(alloc, texts)?;
    let is_same = text.as_str().as_bytes() == wanted.as_slice();
    holds(is_same, (words, text))
}

/// What stands after each refusal.
const MORE: &str = "\n\nFor more information, try '--help'.\n";

/// Words after a command that are refused, why, and whether the command's usage is shown. One option of each kind
/// stands for those that are read alike.
static REFUSALS: [(&[&str], &str, bool); 17] = [
    (
        &["--meta", "a", "--meta", "b"],
        "the argument '--meta <PATH>' cannot be used multiple times",
        true,
    ),
    (
        &["--system", "PAL", "--system", "PAL"],
        "the argument '--system <NAME>' cannot be used multiple times",
        true,
    ),
    (
        &["--black", "1", "--black", "2"],
        "the argument '--black <N>' cannot be used multiple times",
        true,
    ),
    (
        &["--max-fields", "1", "--max-fields", "2"],
        "the argument '--max-fields <N>' cannot be used multiple times",
        true,
    ),
    (
        &["--meta"],
        "a value is required for '--meta <PATH>' but none was supplied",
        false,
    ),
    (
        &["--system"],
        "a value is required for '--system <NAME>' but none was supplied\n  [possible values: NTSC, PAL]",
        false,
    ),
    (
        &["--black"],
        "a value is required for '--black <N>' but none was supplied",
        false,
    ),
    (
        &["--max-fields"],
        "a value is required for '--max-fields <N>' but none was supplied",
        false,
    ),
    (
        &["--system", "ntsc"],
        "invalid value 'ntsc' for '--system <NAME>'\n  [possible values: NTSC, PAL]",
        false,
    ),
    (
        &["--black", "65536"],
        "invalid value '65536' for '--black <N>': 65536 is not in 0..=65535",
        false,
    ),
    (
        &["--white=-1"],
        "invalid value '-1' for '--white <N>': -1 is not in 0..=65535",
        false,
    ),
    (
        &["--white", "1.0"],
        "invalid value '1.0' for '--white <N>': invalid digit found in string",
        false,
    ),
    (
        &["--max-fields", "4294967296"],
        "invalid value '4294967296' for '--max-fields <N>': 4294967296 is not in 0..=4294967295",
        false,
    ),
    (
        &["--meta", "--black", "8224"],
        "a value is required for '--meta <PATH>' but none was supplied",
        false,
    ),
    (
        &["--black", "-1"],
        "unexpected argument '-1' found\n\n  tip: to pass '-1' as a value, use '-- -1'",
        true,
    ),
    (
        &["--zzz"],
        "unexpected argument '--zzz' found\n\n  tip: to pass '--zzz' as a value, use '-- --zzz'",
        true,
    ),
    (&["one", "two"], "unexpected argument 'two' found", true),
];

/// Fails where a command doesn't refuse these words for this reason, with its usage or without.
fn says_why(
    alloc: Global,
    command: &str,
    words: &[&str],
    why: &str,
    has_usage: bool,
) -> Result<(), Fail> {
    let outcome = read_after(alloc, command, words);
    let [before, named, after] = if has_usage {
        ["\n\nUsage: ldvbi ", command, " [OPTIONS] [INPUT]"]
    } else {
        [""; 3]
    };
    let texts = ["error: ", why, before, named, after, MORE];
    is_said(alloc, outcome, words, &texts)
}

#[test]
fn each_command_says_why_it_refuses(rt: HostRuntime) -> Result<(), Fail> {
    for &(command, _) in &COMMANDS {
        for &(words, why, has_usage) in &REFUSALS {
            says_why(rt.alloc(), command, words, why, has_usage)?;
        }
    }
    Ok(())
}

/// More words after a command that are refused.
static REFUSED: [&[&str]; 16] = [
    // An option without its value.
    &["--black", "--white", "5"],
    // An unknown system.
    &["--system", "Pal"],
    &["--system", "PAL_M"],
    &["--system", "SECAM"],
    &["--system", ""],
    &["--system=NTSC "],
    // A limit that isn't a number from 0 to 4294967295.
    &["--max-fields", "18446744073709551616"],
    &["--max-fields", "-1"],
    &["--max-fields", "1.0"],
    &["--max-fields", "1e3"],
    &["--max-fields", "all"],
    &["--max-fields", ""],
    // Two inputs.
    &["-", "-"],
    &["one", "--", "two"],
    &["--", "one", "two"],
    &["", ""],
];

/// Values that are no level, a whole number from 0 to 65535.
static NO_LEVELS: [&str; 9] = [
    "65536",
    "4294967296",
    "-1",
    "1.0",
    "1e3",
    "0x10",
    "black",
    "",
    " 5",
];

/// Fails where a command doesn't refuse these words.
fn refuses(alloc: Global, command: &str, words: &[&str]) -> Result<(), Fail> {
    refused(alloc, read_after(alloc, command, words), words)?;
    Ok(())
}

/// Fails where a command takes an option with this value, apart from it or joined to it.
fn refuses_value(alloc: Global, command: &str, option: &str, value: &str) -> Result<(), Fail> {
    refuses(alloc, command, &[option, value])?;
    let word = format!(in alloc; "{option}={value}")?;
    refuses(alloc, command, &[word.as_str()])
}

#[test]
fn each_command_refuses_other_values(rt: HostRuntime) -> Result<(), Fail> {
    for &(command, _) in &COMMANDS {
        for &words in &REFUSED {
            refuses(rt.alloc(), command, words)?;
        }
        for &value in &NO_LEVELS {
            refuses_value(rt.alloc(), command, "--black", value)?;
            refuses_value(rt.alloc(), command, "--white", value)?;
        }
    }
    Ok(())
}

/// Words that name no option of a command, though some begin a name or are its first letter.
static NO_OPTIONS: [&str; 17] = [
    "--levels",
    "--blac",
    "--met",
    "--sys",
    "--whi",
    "--max",
    "--max_fields",
    "--BLACK",
    "--version",
    "-m",
    "-s",
    "-b",
    "-w",
    "-l",
    "-V",
    "-5",
    "-1",
];

#[test]
fn each_command_refuses_other_options(rt: HostRuntime) -> Result<(), Fail> {
    let alloc = rt.alloc();
    for &(command, _) in &COMMANDS {
        for &word in &NO_OPTIONS {
            let words = [word, "5"];
            let text = refused(rt.alloc(), read_after(alloc, command, &words), &words)?;
            let first = format!(in alloc; "error: unexpected argument '{word}' found\n")?;
            holds(text.as_str().starts_with(first.as_str()), text)?;
        }
    }
    Ok(())
}

#[test]
fn recovered_words_are_of_extract_and_show_alone(rt: HostRuntime) -> Result<(), Fail> {
    for command in ["line", "draw"] {
        let why =
            "unexpected argument '--recover' found\n\n  tip: to pass '--recover' as a value, use '-- --recover'";
        says_why(rt.alloc(), command, &["--recover"], why, true)?;
    }
    for command in ["extract", "show"] {
        refuses(rt.alloc(), command, &["--recover=yes"])?;
        refuses(rt.alloc(), command, &["--recover", "--recover"])?;
        refuses(rt.alloc(), command, &["--recove"])?;
    }
    Ok(())
}

/// Words that name no command, the program's name first, and why they are refused.
static NO_COMMAND: [(&[&str], &str); 5] = [
    (
        &["ldvbi"],
        "'ldvbi' requires a subcommand but one was not provided\n  \
            [subcommands: line, extract, show, draw, help]",
    ),
    (
        &["ldvbi", "lines"],
        "unrecognized subcommand 'lines'\n\n  tip: a similar subcommand exists: 'line'",
    ),
    (&["ldvbi", "disc.tbc"], "unrecognized subcommand 'disc.tbc'"),
    // Options stand after the command.
    (
        &["ldvbi", "--black", "1", "line"],
        "unexpected argument '--black' found\n\n  tip: 'line --black' exists",
    ),
    (
        &["ldvbi", "--system", "PAL", "show"],
        "unexpected argument '--system' found\n\n  tip: 'show --system' exists",
    ),
];

#[test]
fn the_program_says_why_it_refuses(rt: HostRuntime) -> Result<(), Fail> {
    for &(words, why) in &NO_COMMAND {
        let texts = ["error: ", why, "\n\nUsage: ldvbi <COMMAND>", MORE];
        is_said(rt.alloc(), read(rt.alloc(), words), words, &texts)?;
    }
    Ok(())
}

/// More words that name no command.
static NO_NAMES: [&[&str]; 6] = [
    // The first word is the program's name, whatever it is.
    &["line"],
    &["ldvbi", ""],
    &["ldvbi", "-"],
    &["ldvbi", "lin"],
    &["ldvbi", "LINE"],
    &["ldvbi", "help", "lines"],
];

#[test]
fn words_without_a_command_are_refused(rt: HostRuntime) -> Result<(), Fail> {
    for words in &NO_NAMES {
        refused(rt.alloc(), read(rt.alloc(), words), words)?;
    }
    Ok(())
}
