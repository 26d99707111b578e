//! The commands and options of the program, with the texts of their help.
//!
//! `COMMANDS` and `OPTIONS` are tables of texts, and `program` makes clap's commands of them: of each command one by
//! `command`, with the options that all commands have, and the flag `--recover` for those that write what fields show.
//! What the words of a command line put into a job is read in command_line.rt, by the names that stand here.
//!
//! A text that changes here changes the manual pages, the completions and the documents, which `python3 texts/write.py`
//! renews, and the plain Rust program, which has the same help. tests/cli and vbi_cli_tests/src/refusals.rt have the
//! texts of refusals. `VERSION` says that this build is proved; it changes with the version in the Makefile.

ghost use Rattle.std.specs.Prelude.{◌≡◌, IfOk, true, false};
ghost use Rattle.clap.specs.declared.builder.command.Command.TheViews.{out-Command as fields_of};

use clap::{Arg, ArgAction, Command, value_parser};
use std::alloc::{AllocError, Global};

/// What the program prints for `--version`, after its name. The plain Rust build says what it is there.
const VERSION: &str = "0.2.0 (proved)";

const ABOUT: &str =
    "Reads the biphase code words of LaserDiscs from fields in ld-decode's TBC format";

const DETAILS: &str =
    "Reads the 24-bit biphase code words (IEC 60857 and IEC 60856) that lines 16, 17 and 18 of each\n\
        field of a LaserDisc carry, from video in ld-decode's TBC format: picture numbers, chapters, times,\n\
        picture stops. System and levels come from the capture's metadata or from options. The metadata of\n\
        disc.tbc is disc.tbc.json, if that is there and --meta names no other file.";

const EXAMPLES: &str = "Examples:\n\
        \x20 ldvbi extract disc.tbc > disc.vbi.json\n\
        \x20 ldvbi extract --recover --meta disc.tbc.json < disc.tbc > disc.vbi.json\n\
        \x20 ldvbi show --system PAL --black 16384 --white 54016 disc.tbc\n\
        \x20 echo '82CFFF F12345 F12345' | ldvbi draw --system NTSC --black 16384 --white 51200 > test.tbc\n\n\
        Exit status:\n\
        \x20 0  done, or help\n\
        \x20 1  a fault, named in one line on standard error\n\
        \x20 2  the command line was refused\n\
        \x20 3  extract or show is done, and the last field was cut";

/// The texts of one command.
struct CommandTexts {
    name: &'static str,
    about: &'static str,
    details: &'static str,
    input: &'static str,
    example: &'static str,
    /// Whether it has the flag that asks for recovered words.
    recovers: bool,
}

/// The commands, in the order of the help.
static COMMANDS: [CommandTexts; 4] = [
    CommandTexts {
        name: "line",
        about: "Prints the word of one line, or why there is none",
        details: "Reads the bytes of one line (1820 for NTSC, 2270 for PAL; samples of 16 bits, low byte first), and\n\
            leaves the rest unread. Prints the word that the line shows as six hexadecimal digits, or why it\n\
            shows none: blank (no sample is high), unfinished (the line ends within a word), change N or hold N\n\
            (at column N, from 0, a change or a lasting level makes every word impossible).",
        input: "The line's samples; standard input where there is none, or for -",
        example: "Example:\n\
            \x20 ldvbi line --system NTSC --black 16384 --white 51200 line.raw\n\n\
            Exit status:\n\
            \x20 0  done\n\
            \x20 1  a fault, as a short line, named on standard error\n\
            \x20 2  the command line was refused",
        recovers: false,
    },
    CommandTexts {
        name: "extract",
        about: "Writes the words of every field as a JSON document",
        details: "Writes one JSON document for a TBC stream: for each field its number, the words of its lines 16, 17\n\
            and 18 (vbiData, 0 where a line has none), why a line has none (vbiCause), and whether a word was\n\
            read from the samples as they are or after short glitches were removed (vbiPass 1 or 2, else 0).",
        input: "The TBC stream; standard input where there is none, or for -",
        example: "Example:\n\
            \x20 ldvbi extract --recover disc.tbc > disc.vbi.json\n\n\
            Exit status:\n\
            \x20 0  done\n\
            \x20 1  a fault, named in one line on standard error\n\
            \x20 2  the command line was refused\n\
            \x20 3  done, and the last field was cut (cutField has its bytes)",
        recovers: true,
    },
    CommandTexts {
        name: "show",
        about: "Prints the words of every field and what they mean",
        details: "Prints a report of a TBC stream: for each field its number, whether its codes are those of a CAV or\n\
            a CLV disc, and for its lines 16, 17 and 18 the word in hexadecimal with its meaning (as picture\n\
            12345, chapter 07, time 1:09), or none and why.",
        input: "The TBC stream; standard input where there is none, or for -",
        example: "Example:\n\
            \x20 ldvbi show --recover disc.tbc\n\n\
            Exit status:\n\
            \x20 0  done\n\
            \x20 1  a fault, named in one line on standard error\n\
            \x20 2  the command line was refused\n\
            \x20 3  done, and the last field was cut",
        recovers: true,
    },
    CommandTexts {
        name: "draw",
        about: "Turns rows of words into a TBC stream",
        details: "Writes a TBC stream with one field for each row of text. A row has three items with one space\n\
            between them, for lines 16, 17 and 18: six hexadecimal digits (a word, 800000 to FFFFFF), or -\n\
            for a line without a word. Every other line is black; sync and colour burst aren't drawn.",
        input: "The rows of words; standard input where there is none, or for -",
        example: "Example:\n\
            \x20 echo '82CFFF F12345 F12345' | ldvbi draw --system NTSC --black 16384 --white 51200 > test.tbc\n\n\
            Exit status:\n\
            \x20 0  done\n\
            \x20 1  a fault, as a malformed row, named on standard error\n\
            \x20 2  the command line was refused",
        recovers: false,
    },
];

/// What an option takes.
#[derive(Clone, Copy)]
enum Taken {
    /// The path of a file.
    Path,
    /// The name of a system.
    System,
    /// A sample, from 0 to 65,535.
    Sample,
    /// A count of fields.
    Count,
}

/// An option, which each command has, with the texts of its help.
struct OptionTexts {
    name: &'static str,
    value: &'static str,
    taken: Taken,
    help: &'static str,
    details: &'static str,
}

/// The options, in the order of the help.
static OPTIONS: [OptionTexts; 5] = [
    OptionTexts {
        name: "meta",
        value: "PATH",
        taken: Taken::Path,
        help: "ld-decode's .tbc.json of the capture, for system and levels",
        details: "ld-decode's .tbc.json of the capture, whose videoParameters give system and levels.\n\
            Without it, and unless --system, --black and --white are all given, this is\n\
            INPUT.json, if there is such a file. Levels with decimals are refused: give them\n\
            with --black and --white",
    },
    OptionTexts {
        name: "system",
        value: "NAME",
        taken: Taken::System,
        help: "In place of the metadata's system",
        details: "NTSC (fields of 910x263 samples) or PAL (1135x313), in place of the metadata's system",
    },
    OptionTexts {
        name: "black",
        value: "N",
        taken: Taken::Sample,
        help: "The sample of black, in place of the metadata's black16bIre",
        details: "The sample of black, 0 to 65535, in place of the metadata's black16bIre",
    },
    OptionTexts {
        name: "white",
        value: "N",
        taken: Taken::Sample,
        help: "The sample of white, in place of the metadata's white16bIre",
        details: "The sample of white, 0 to 65535 and above black, in place of the metadata's white16bIre",
    },
    OptionTexts {
        name: "max-fields",
        value: "N",
        taken: Taken::Count,
        help: "The most fields of a run, 1 to 1000000; a stream with more is refused",
        details: "The most fields of a run, 1 to 1000000; 1000000 where it isn't given.\n\
            A stream with more is refused",
    },
];

static SYSTEMS: [&str; 2] = ["NTSC", "PAL"];

/// The flag that asks for recovered words, with the texts of its help.
pub(crate) const RECOVER: &str = "recover";

const RECOVER_HELP: &str = "Recover words from worn lines";

const RECOVER_DETAILS: &str =
    "Recover words from worn lines: the word whose drawing is nearest to the line's samples, if it\n\
        is far enough ahead of all others. The document of extract is of version 3 then, with vbiPass 3\n\
        and vbiNear; show marks such words";

/// Whether the command of this name has that flag.
pub(crate) fn can_recover(name: &str) -> bool {
    COMMANDS
        .iter()
        .any(|texts| texts.recovers && texts.name == name)
}

/// The program's command line: a command has to be given, and no option is shared by all.
pub(crate) fn program<'a>(alloc: Global) -> Result<Command<'a>, AllocError>
    ensures { IfOk result (λ c. ((fields_of c).has_globals ≡ false)
        × ((fields_of c).subcommand_required ≡ true)) }
{
    let mut program = titled(alloc);
    for texts in &COMMANDS {
        program = program.subcommand(command(alloc, texts)?)?;
    }
    Ok(program.subcommand_required(true))
}

/// The program's name and texts, with no command yet.
fn titled<'a>(alloc: Global) -> Command<'a>
    ensures { (fields_of result).has_globals ≡ false }
{
    Command::new(alloc, "ldvbi")
        .version(VERSION)
        .about(ABOUT)
        .long_about(DETAILS)
        .after_help(EXAMPLES)
}

/// One command with its options, which are the same in all of them but for one flag.
fn command<'a>(alloc: Global, texts: &CommandTexts) -> Result<Command<'a>, AllocError>
    ensures { IfOk result (λ c. (fields_of c).has_globals ≡ false) }
{
    let mut command = Command::new(alloc, texts.name)
        .about(texts.about)
        .long_about(texts.details)
        .after_help(texts.example);
    for option_texts in &OPTIONS {
        command = command.arg(option(alloc, option_texts))?;
    }
    with_recover(alloc, command, texts.recovers)?.arg(input(alloc, texts.input))
}

/// A command with the flag that asks for recovered words, if it is to have that.
fn with_recover<'a>(
    alloc: Global,
    command: Command<'a>,
    recovers: bool,
) -> Result<Command<'a>, AllocError>
    requires { (fields_of command).has_globals ≡ false }
    ensures { IfOk result (λ c. (fields_of c).has_globals ≡ false) }
{
    if recovers {
        command.arg(recover(alloc))
    } else {
        Ok(command)
    }
}

/// The flag that asks for recovered words.
fn recover<'a>(alloc: Global) -> Arg<'a>
    ensures { result.global ≡ false }
{
    Arg::new(alloc, RECOVER)
        .long(RECOVER)
        .action(ArgAction::SetTrue)
        .help(RECOVER_HELP)
        .long_help(RECOVER_DETAILS)
}

/// An option of a command.
fn option<'a>(alloc: Global, texts: &OptionTexts) -> Arg<'a>
    ensures { result.global ≡ false }
{
    let arg = Arg::new(alloc, texts.name)
        .long(texts.name)
        .value_name(texts.value)
        .help(texts.help)
        .long_help(texts.details);
    match texts.taken {
        Taken::Path => arg,
        Taken::System => arg.value_parser(SYSTEMS.as_slice()),
        Taken::Sample => arg.value_parser(value_parser!(u16)),
        Taken::Count => arg.value_parser(value_parser!(u32)),
    }
}

fn input<'a>(alloc: Global, help: &'a str) -> Arg<'a>
    ensures { result.global ≡ false }
{
    Arg::new(alloc, "input")
        .value_name("INPUT")
        .action(ArgAction::Set)
        .help(help)
}
